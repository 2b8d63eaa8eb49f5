//! All entries, with patterns of their own.

ghost use Rattle.std.specs.Prelude.{◌≡◌, ◌++◌, map, IfOk};
ghost use Rattle.octet_trie.specs.Trie.{found_entry};
ghost use Rattle.qname_index.specs.Listing.{listing_order};
ghost use Rattle.qname_index.specs.Ranked.{ArePatternKeys, IsPatternKey, patterns};
ghost use Rattle.qname_index.specs.Patterns.{pattern_in};

use crate::pattern_ref::PatternRef;
use dns_name::Pattern;
use octet_trie::OctetFound;
use std::alloc::{AllocError, Global};
use std::cmp::Ordering;
use trie_keys::{Mark, Marked};

// Which of two patterns is listed first.
pub(crate) fn listing_cmp(a: &Pattern, b: &Pattern) -> Ordering
    ensures { result ≡ listing_order a.now b.now }
{
    a.base()
        .canonical_cmp(b.base())
        .then(a.is_wild().cmp(&b.is_wild()))
}

// The pattern of an entry.
fn pattern_of<N: Copy + Drop, M: Mark>(
    alloc: Global,
    found: &OctetFound<'_, N, M>,
) -> Result<Pattern, AllocError>
    requires { IsPatternKey (found_entry found.now).0 }
    ensures { IfOk result (λ pattern. pattern ≡ pattern_in (found_entry found.now).0) }
{
    PatternRef::new(found.key, found.wild).to_pattern(alloc)
}

// Puts the entries at the end, as they come.
pub(crate) fn push_entries<N: Copy + Drop, M: Mark>(
    alloc: Global,
    found: &[OctetFound<'_, N, M>],
    entries: &mut Vec<(Pattern, Marked<N, M>)>,
) -> Result<(), AllocError>
    requires { ArePatternKeys (map found_entry found.now) }
    ensures { let more = patterns (map found_entry found.now) in
        IfOk result (λ _. entries.new.items ≡ entries.old.items ++ more) }
{
    for entry in found {
        entries.push((pattern_of(alloc, entry)?, entry.value))?;
    }
    Ok(())
}
