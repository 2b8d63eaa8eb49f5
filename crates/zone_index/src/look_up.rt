//! The rule that comes first.

ghost use Rattle.std.specs.Prelude.{◌≡◌};
ghost use Rattle.std.specs.Option.{option_map};
ghost use Rattle.zone_index.specs.Entry.{entry_seen};
ghost use Rattle.zone_index.specs.Groups.{AreWell, entries_in};
ghost use Rattle.zone_index.specs.Places.{best_rule, longest_rule};

use crate::entry::EntryRef;
use crate::group::{Group, lend};
use crate::patterns::Patterns;
use crate::prefixes::Prefixes;
use ip_prefix::{Addr, Prefix};
use packed_lists::{Held, SharedTable};
use qname_index::{Found, LookupName, PatternRef};

/// The rule that comes first of those whose prefix contains the address.
pub(crate) fn longest<'a>(
    groups: &'a SharedTable<Held<Group>>,
    prefixes: &Prefixes,
    addr: Addr,
) -> Option<(Prefix, EntryRef<'a>)>
    requires { AreWell groups.now prefixes.now }
    ensures { option_map (λ e. (e.0, entry_seen e.1)) result
        ≡ longest_rule addr (entries_in groups.now prefixes.now) }
{
    match prefixes.longest(addr) {
        Some(found) => Some((found.0, lend(groups, found.1))),
        None => None,
    }
}

/// The rule that comes first of those whose pattern matches the name.
pub(crate) fn best<'a>(
    groups: &'a SharedTable<Held<Group>>,
    patterns: &'a Patterns,
    name: &LookupName,
) -> Option<(PatternRef<'a>, EntryRef<'a>)>
    requires { AreWell groups.now patterns.now }
    ensures { option_map (λ e. (e.0, entry_seen e.1)) result
        ≡ best_rule name.now (entries_in groups.now patterns.now) }
{
    match patterns.best(name) {
        Some(Found { pattern, value }) => Some((pattern, lend(groups, value))),
        None => None,
    }
}
