//! The tries of all places.

ghost use Rattle.std.specs.Prelude.{◌≡◌, [], true, map, IfOk};
ghost use Rattle.std.specs.List.Sorted.{IsStrictlySortedBy};
ghost use Rattle.std.specs.Map.{keys_of};
ghost use Rattle.ip_prefix.specs.Prefix.{prefix_order};
ghost use Rattle.octet_trie.specs.Trie.{found_entry};
ghost use Rattle.qname_index.specs.Trie.{IsNameTrie};
ghost use Rattle.zone_index.specs.ActingEntries.{StandsAt, StandsByKey, at_pattern, at_prefix, marked_if_kept, pattern_values, prefix_values};
ghost use Rattle.zone_index.specs.Counted.{has_kept};
ghost use Rattle.zone_index.specs.Kept.{is_kept};
ghost use Rattle.zone_index.specs.Places.{AreLower, AreRanked, entry_at, nothing_at, rule_at, with_entry, with_rule, without_entry, without_rule};

use crate::kept::Kept;
use crate::patterns::Patterns;
use crate::place::Place;
use crate::places::Places;
use crate::prefixes::Prefixes;
use ip_prefix::Prefix;
use octet_trie::OctetFound;
use std::alloc::{AllocError, Global};
use trie_keys::Marked;
use trigger_codec::{ByKind, Kind, Trigger};

/// No values.
pub(crate) fn empty(alloc: Global) -> Places<Prefixes, Patterns>
    ensures { result ≡ nothing_at }
{
    Places {
        rules: ByKind {
            client_ip: Prefixes::empty(alloc),
            qname: Patterns::empty(alloc),
            response_ip: Prefixes::empty(alloc),
            nsdname: Patterns::empty(alloc),
            nsip: Prefixes::empty(alloc),
        },
        other: Patterns::empty(alloc),
    }
}

/// The same version once more.
pub(crate) fn share(
    places: &Places<Prefixes, Patterns>,
) -> Result<Places<Prefixes, Patterns>, AllocError>
    ensures { IfOk result (λ other. other ≡ places.now) }
{
    let rules = share_rules(&places.rules)?;
    let other = places.other.share()?;
    Ok(Places { rules, other })
}

fn share_rules(rules: &ByKind<Prefixes, Patterns>) -> Result<ByKind<Prefixes, Patterns>, AllocError>
    ensures { IfOk result (λ other. other ≡ rules.now) }
{
    let client_ip = rules.client_ip.share()?;
    let qname = rules.qname.share()?;
    let response_ip = rules.response_ip.share()?;
    let nsdname = rules.nsdname.share()?;
    let nsip = rules.nsip.share()?;
    Ok(ByKind {
        client_ip,
        qname,
        response_ip,
        nsdname,
        nsip,
    })
}

/// The value at the place.
pub(crate) fn get(places: &Places<Prefixes, Patterns>, place: &Place) -> Option<Marked<u32, Kept>>
    ensures { result ≡ entry_at places.now place.now }
{
    match place {
        Place::Rule(trigger) => get_rule(&places.rules, trigger),
        Place::Other(pattern) => places.other.get(pattern),
    }
}

pub(crate) fn get_rule(
    rules: &ByKind<Prefixes, Patterns>,
    trigger: &Trigger,
) -> Option<Marked<u32, Kept>>
    ensures { result ≡ rule_at rules.now trigger.now }
{
    match trigger {
        Trigger::ClientIp(prefix) => rules.client_ip.get(prefix),
        Trigger::Qname(pattern) => rules.qname.get(pattern),
        Trigger::ResponseIp(prefix) => rules.response_ip.get(prefix),
        Trigger::NsDname(pattern) => rules.nsdname.get(pattern),
        Trigger::NsIp(prefix) => rules.nsip.get(prefix),
    }
}

/// With the value at the place, in place of this version.
pub(crate) fn put(
    places: Places<Prefixes, Patterns>,
    place: &Place,
    value: Marked<u32, Kept>,
) -> Result<Places<Prefixes, Patterns>, AllocError>
    requires { is_kept value.mark ≡ true }
    ensures { IfOk result (λ other. other ≡ with_entry places place.now value) }
{
    let Places { rules, other } = places;
    match place {
        Place::Rule(trigger) => {
            let rules = put_rule(rules, trigger, value)?;
            Ok(Places { rules, other })
        }
        Place::Other(pattern) => {
            let other = other.put(pattern, value)?;
            Ok(Places { rules, other })
        }
    }
}

fn put_rule(
    rules: ByKind<Prefixes, Patterns>,
    trigger: &Trigger,
    value: Marked<u32, Kept>,
) -> Result<ByKind<Prefixes, Patterns>, AllocError>
    requires { is_kept value.mark ≡ true }
    ensures { IfOk result (λ other. other ≡ with_rule rules trigger.now value) }
{
    let ByKind {
        client_ip,
        qname,
        response_ip,
        nsdname,
        nsip,
    } = rules;
    match trigger {
        Trigger::ClientIp(prefix) => Ok(ByKind {
            client_ip: client_ip.put(prefix, value)?,
            qname,
            response_ip,
            nsdname,
            nsip,
        }),
        Trigger::Qname(pattern) => Ok(ByKind {
            client_ip,
            qname: qname.put(pattern, value)?,
            response_ip,
            nsdname,
            nsip,
        }),
        Trigger::ResponseIp(prefix) => Ok(ByKind {
            client_ip,
            qname,
            response_ip: response_ip.put(prefix, value)?,
            nsdname,
            nsip,
        }),
        Trigger::NsDname(pattern) => Ok(ByKind {
            client_ip,
            qname,
            response_ip,
            nsdname: nsdname.put(pattern, value)?,
            nsip,
        }),
        Trigger::NsIp(prefix) => Ok(ByKind {
            client_ip,
            qname,
            response_ip,
            nsdname,
            nsip: nsip.put(prefix, value)?,
        }),
    }
}

/// Without the place, in place of this version.
pub(crate) fn take(
    places: Places<Prefixes, Patterns>,
    place: &Place,
) -> Result<Places<Prefixes, Patterns>, AllocError>
    ensures { IfOk result (λ other. other ≡ without_entry places place.now) }
{
    let Places { rules, other } = places;
    match place {
        Place::Rule(trigger) => {
            let rules = take_rule(rules, trigger)?;
            Ok(Places { rules, other })
        }
        Place::Other(pattern) => {
            let other = other.take(pattern)?;
            Ok(Places { rules, other })
        }
    }
}

fn take_rule(
    rules: ByKind<Prefixes, Patterns>,
    trigger: &Trigger,
) -> Result<ByKind<Prefixes, Patterns>, AllocError>
    ensures { IfOk result (λ other. other ≡ without_rule rules trigger.now) }
{
    let ByKind {
        client_ip,
        qname,
        response_ip,
        nsdname,
        nsip,
    } = rules;
    match trigger {
        Trigger::ClientIp(prefix) => Ok(ByKind {
            client_ip: client_ip.take(prefix)?,
            qname,
            response_ip,
            nsdname,
            nsip,
        }),
        Trigger::Qname(pattern) => Ok(ByKind {
            client_ip,
            qname: qname.take(pattern)?,
            response_ip,
            nsdname,
            nsip,
        }),
        Trigger::ResponseIp(prefix) => Ok(ByKind {
            client_ip,
            qname,
            response_ip: response_ip.take(prefix)?,
            nsdname,
            nsip,
        }),
        Trigger::NsDname(pattern) => Ok(ByKind {
            client_ip,
            qname,
            response_ip,
            nsdname: nsdname.take(pattern)?,
            nsip,
        }),
        Trigger::NsIp(prefix) => Ok(ByKind {
            client_ip,
            qname,
            response_ip,
            nsdname,
            nsip: nsip.take(prefix)?,
        }),
    }
}

/// Whether some value of the kind acts.
pub(crate) fn has(rules: &ByKind<Prefixes, Patterns>, kind: Kind) -> bool
    ensures { result ≡ has_kept rules.now kind }
{
    match kind {
        Kind::ClientIp => rules.client_ip.has(),
        Kind::Qname => rules.qname.has(),
        Kind::ResponseIp => rules.response_ip.has(),
        Kind::NsDname => rules.nsdname.has(),
        Kind::NsIp => rules.nsip.has(),
    }
}

/// The keys of the patterns of the kind whose values act, in the order of their octets, each with this value in place of its own.
pub(crate) fn acting_keys<N: Copy + Drop>(
    alloc: Global,
    rules: &ByKind<Prefixes, Patterns>,
    kind: Kind,
    value: N,
) -> Result<Vec<OctetFound<'_, N, bool>>, AllocError>
    ensures keys { IfOk result (λ entries. IsNameTrie (map found_entry entries.items)) }
    ensures found { IfOk result (λ entries.
        StandsByKey (λ p. marked_if_kept value (at_pattern (pattern_values rules.now kind) p)) (map found_entry entries.items)) }
{
    match kind {
        Kind::Qname => rules.qname.acting_keys(alloc, value),
        Kind::NsDname => rules.nsdname.acting_keys(alloc, value),
        Kind::ClientIp | Kind::ResponseIp | Kind::NsIp => Ok(Vec::new(alloc)),
    }
}

/// The prefixes of the kind whose values act, in order of precedence, each with this value in place of its own.
pub(crate) fn acting_prefixes<N: Copy + Drop>(
    alloc: Global,
    rules: &ByKind<Prefixes, Patterns>,
    kind: Kind,
    value: N,
) -> Result<Vec<(Prefix, Marked<N, bool>)>, AllocError>
    ensures sorted { IfOk result (λ entries. IsStrictlySortedBy prefix_order (keys_of entries.items)) }
    ensures found { IfOk result (λ entries.
        StandsAt (λ p. marked_if_kept value (at_prefix (prefix_values rules.now kind) p)) entries.items) }
{
    match kind {
        Kind::ClientIp => rules.client_ip.acting_prefixes(alloc, value),
        Kind::ResponseIp => rules.response_ip.acting_prefixes(alloc, value),
        Kind::NsIp => rules.nsip.acting_prefixes(alloc, value),
        Kind::Qname | Kind::NsDname => Ok(Vec::new(alloc)),
    }
}

/// Called for its clauses.
pub(crate) fn in_order(places: &Places<Prefixes, Patterns>)
    ensures ranked { AreRanked places.now }
    ensures lower { AreLower places.now }
{
    let _client_ip = places.rules.client_ip.has();
    let _qname = places.rules.qname.has();
    let _response_ip = places.rules.response_ip.has();
    let _nsdname = places.rules.nsdname.has();
    let _nsip = places.rules.nsip.has();
    let _other = places.other.has();
}
