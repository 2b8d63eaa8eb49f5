//! Two lists of entries in order, as one.

ghost use Rattle.std.specs.Prelude.{◌≡◌, ℕ, ◌≤◌, ◌||◌, ◌++◌, List, [], ◌∷◌, map, IfOk};
ghost use Rattle.std.specs.Cmp.Lexicographic.{slice_cmp};
ghost use Rattle.std.specs.List.Sorted.{IsStrictlySortedBy};
ghost use Rattle.std.specs.Map.{keys_of};
ghost use Rattle.std.specs.Ordering.{match_ordering, nat_cmp};
ghost use Rattle.ip_prefix.specs.Prefix.{PlainPrefix, prefix_order};
ghost use Rattle.octet_trie.specs.Trie.{found_entry};
ghost use Rattle.qname_index.specs.Trie.{IsNameTrie};
ghost use Rattle.summary_index.specs.Entries.{zones_by_key};
ghost use Rattle.summary_index.specs.Merged.{merged as merged_entries, next_of, united as united_zones};
ghost use Rattle.summary_index.specs.Summary.{zones_at};
ghost use Rattle.summary_index.specs.Zones.{has_zone};

use crate::entries::{push, push_entries};
use crate::prefix_entries::push_prefixes;
use crate::zones::Zones;
use ip_prefix::Prefix;
use octet_trie::OctetFound;
use std::alloc::{AllocError, Global};
use std::cmp::Ordering;
use trie_keys::{Marked, NumberSet};

/// The entries of both, by the octets of their keys, with the zones of both where both have an entry at a key. It takes the time of
/// one pass over the two lists.
pub fn merged<'a>(
    alloc: Global,
    first: &[OctetFound<'a, Zones, bool>],
    second: &[OctetFound<'a, Zones, bool>],
) -> Result<Vec<OctetFound<'a, Zones, bool>>, AllocError>
    requires first { IsNameTrie (map found_entry first.now) }
    requires second { IsNameTrie (map found_entry second.now) }
    ensures keys { IfOk result (λ entries. IsNameTrie (map found_entry entries.items)) }
    ensures zones { IfOk result (λ entries. (key : List ℕ) → (n : ℕ) → has_zone (zones_by_key key entries.items) n
        ≡ (has_zone (zones_by_key key first.now) n || has_zone (zones_by_key key second.now) n)) }
{
    merge(alloc, first, second)
}

// The same, of any two lists.
fn merge<'a>(
    alloc: Global,
    first: &[OctetFound<'a, Zones, bool>],
    second: &[OctetFound<'a, Zones, bool>],
) -> Result<Vec<OctetFound<'a, Zones, bool>>, AllocError>
    ensures { let all = merged_entries (slice_cmp nat_cmp) united_zones (map found_entry first.now) (map found_entry second.now) in
        IfOk result (λ entries. map found_entry entries.items ≡ all) }
{
    let mut entries = Vec::with_capacity(alloc, first.len() + second.len())?;
    let mut i = 0;
    let mut j = 0;
    while i < first.len() && j < second.len() {
        let a = &first[i];
        let b = &second[j];
        let order = key_cmp(a, b);
        push_next(order, a, b, &mut entries)?;
        i += of_first(order);
        j += of_second(order);
    }
    push_entries(&first[i..], &mut entries)?;
    push_entries(&second[j..], &mut entries)?;
    Ok(entries)
}

/// The same of entries by prefix in order of precedence.
pub fn merged_prefixes(
    alloc: Global,
    first: &[(Prefix, Marked<Zones, bool>)],
    second: &[(Prefix, Marked<Zones, bool>)],
) -> Result<Vec<(Prefix, Marked<Zones, bool>)>, AllocError>
    requires first { IsStrictlySortedBy prefix_order (keys_of first.now) }
    requires second { IsStrictlySortedBy prefix_order (keys_of second.now) }
    ensures sorted { IfOk result (λ entries. IsStrictlySortedBy prefix_order (keys_of entries.items)) }
    ensures zones { IfOk result (λ entries. (p : PlainPrefix) → (n : ℕ) → has_zone (zones_at prefix_order p entries.items) n
        ≡ (has_zone (zones_at prefix_order p first.now) n || has_zone (zones_at prefix_order p second.now) n)) }
{
    merge_prefixes(alloc, first, second)
}

// The same, of any two lists.
fn merge_prefixes(
    alloc: Global,
    first: &[(Prefix, Marked<Zones, bool>)],
    second: &[(Prefix, Marked<Zones, bool>)],
) -> Result<Vec<(Prefix, Marked<Zones, bool>)>, AllocError>
    ensures { let all = merged_entries prefix_order united_zones first.now second.now in
        IfOk result (λ entries. entries.items ≡ all) }
{
    let mut entries = Vec::with_capacity(alloc, first.len() + second.len())?;
    let mut i = 0;
    let mut j = 0;
    while i < first.len() && j < second.len() {
        let a = &first[i];
        let b = &second[j];
        let order = a.0.rank_cmp(&b.0);
        entries.push(next_prefix(order, a, b))?;
        i += of_first(order);
        j += of_second(order);
    }
    push_prefixes(&first[i..], &mut entries)?;
    push_prefixes(&second[j..], &mut entries)?;
    Ok(entries)
}

// How the key of one entry stands to that of another.
fn key_cmp(a: &OctetFound<'_, Zones, bool>, b: &OctetFound<'_, Zones, bool>) -> Ordering
    ensures { result ≡ slice_cmp nat_cmp (found_entry a.now).0 (found_entry b.now).0 }
{
    a.key.cmp(b.key).then(a.wild.cmp(&b.wild))
}

// Puts the one of two entries that precedes the other at the end, or one for both.
fn push_next<'a>(
    order: Ordering,
    a: &OctetFound<'a, Zones, bool>,
    b: &OctetFound<'a, Zones, bool>,
    entries: &mut Vec<OctetFound<'a, Zones, bool>>,
) -> Result<(), AllocError>
    ensures { let next = next_of united_zones order (found_entry a.now) (found_entry b.now) in
        IfOk result (λ _. map found_entry entries.new.items ≡ map found_entry entries.old.items ++ next ∷ []) }
{
    match order {
        Ordering::Less => push(a.key, a.wild, a.value, entries),
        Ordering::Equal => push(a.key, a.wild, united(a.value, b.value), entries),
        Ordering::Greater => push(b.key, b.wild, b.value, entries),
    }
}

// The zones of both.
fn united(a: Marked<Zones, bool>, b: Marked<Zones, bool>) -> Marked<Zones, bool>
    ensures { result ≡ united_zones a b }
{
    Marked {
        value: a.value.union(b.value),
        mark: true,
    }
}

// How many entries of the first list go into the next one of both.
fn of_first(order: Ordering) -> usize
    ensures step { result ≡ match_ordering order 1 1 0 }
    ensures one { result ≤ 1 }
{
    match order {
        Ordering::Greater => 0,
        _ => 1,
    }
}

// How many entries of the second list go into the next one of both.
fn of_second(order: Ordering) -> usize
    ensures step { result ≡ match_ordering order 0 1 1 }
    ensures one { result ≤ 1 }
{
    match order {
        Ordering::Less => 0,
        _ => 1,
    }
}

// The one of two entries that precedes the other, or one for both.
fn next_prefix(
    order: Ordering,
    a: &(Prefix, Marked<Zones, bool>),
    b: &(Prefix, Marked<Zones, bool>),
) -> (Prefix, Marked<Zones, bool>)
    ensures { result ≡ next_of united_zones order a.now b.now }
{
    match order {
        Ordering::Less => (a.0, a.1),
        Ordering::Equal => (a.0, united(a.1, b.1)),
        Ordering::Greater => (b.0, b.1),
    }
}
