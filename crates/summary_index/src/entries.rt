//! Entries by pattern, in the order of the octets of their keys.

ghost use Rattle.std.specs.Prelude.{◌≡◌, ◌≤◌, ◌++◌, [], ◌∷◌, map, IfOk};
ghost use Rattle.octet_trie.specs.Trie.{found_entry};
ghost use Rattle.summary_index.specs.Entries.{entries_without, entry_of, entry_without, in_trie, standing};
ghost use Rattle.zone_rows.specs.declared.zone.TheConstants.{ZONE_LIMIT};

use crate::zones::Zones;
use octet_trie::OctetFound;
use std::alloc::{AllocError, Global};
use trie_keys::{Mark, Marked};

/// Puts an entry at the end.
pub(crate) fn push<'a, N: Copy + Drop, M: Mark>(
    key: &'a [u8],
    wild: bool,
    value: Marked<N, M>,
    entries: &mut Vec<OctetFound<'a, N, M>>,
) -> Result<(), AllocError>
    ensures { let entry = entry_of key.now wild value in
        IfOk result (λ _. map found_entry entries.new.items ≡ map found_entry entries.old.items ++ entry ∷ []) }
{
    entries.push(OctetFound { key, wild, value })?;
    Ok(())
}

/// Puts entries at the end, as they come.
pub(crate) fn push_entries<'a>(
    more: &[OctetFound<'a, Zones, bool>],
    entries: &mut Vec<OctetFound<'a, Zones, bool>>,
) -> Result<(), AllocError>
    ensures { let all = map found_entry entries.old.items ++ map found_entry more.now in
        IfOk result (λ _. map found_entry entries.new.items ≡ all) }
{
    for entry in more {
        push(entry.key, entry.wild, entry.value, entries)?;
    }
    Ok(())
}

/// The entries with marks by which they are in a trie.
pub(crate) fn marked<'a>(
    alloc: Global,
    entries: &[OctetFound<'a, Zones, bool>],
) -> Result<Vec<OctetFound<'a, Zones, bool>>, AllocError>
    ensures { let all = map in_trie (map found_entry entries.now) in
        IfOk result (λ marked. map found_entry marked.items ≡ all) }
{
    let mut marked = Vec::with_capacity(alloc, entries.len())?;
    for entry in entries {
        push_with(entry, entry.value.value, &mut marked)?;
    }
    Ok(marked)
}

// Puts the entry with these zones at the end.
fn push_with<'a>(
    entry: &OctetFound<'a, Zones, bool>,
    zones: Zones,
    entries: &mut Vec<OctetFound<'a, Zones, bool>>,
) -> Result<(), AllocError>
    ensures { let one = standing (found_entry entry.now).0 zones in
        IfOk result (λ _. map found_entry entries.new.items ≡ map found_entry entries.old.items ++ one ∷ []) }
{
    let value = Marked {
        value: zones,
        mark: true,
    };
    push(entry.key, entry.wild, value, entries)
}

/// The entries without the zone of this number, which is from 1 to 64, and without those that no zone is left at.
pub(crate) fn without_zone<'a>(
    alloc: Global,
    entries: &[OctetFound<'a, Zones, bool>],
    number: u32,
) -> Result<Vec<OctetFound<'a, Zones, bool>>, AllocError>
    requires some { 1 ≤ number }
    requires within { number ≤ ZONE_LIMIT }
    ensures { let all = entries_without number (map found_entry entries.now) in
        IfOk result (λ left. map found_entry left.items ≡ all) }
{
    let mut left = Vec::with_capacity(alloc, entries.len())?;
    for entry in entries {
        push_without(entry, number, &mut left)?;
    }
    Ok(left)
}

// Puts the entry without the zone at the end, if a zone is left at it.
fn push_without<'a>(
    entry: &OctetFound<'a, Zones, bool>,
    number: u32,
    entries: &mut Vec<OctetFound<'a, Zones, bool>>,
) -> Result<(), AllocError>
    requires some { 1 ≤ number }
    requires within { number ≤ ZONE_LIMIT }
    ensures { let more = entry_without number (found_entry entry.now) in
        IfOk result (λ _. map found_entry entries.new.items ≡ map found_entry entries.old.items ++ more) }
{
    let zones = entry.value.value.without(number);
    if zones.is_empty() {
        return Ok(());
    }
    push_with(entry, zones, entries)
}
