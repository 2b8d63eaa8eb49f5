//! Entries by prefix, in order of precedence.

ghost use Rattle.std.specs.Prelude.{◌≡◌, ◌≤◌, ◌++◌, map, IfOk};
ghost use Rattle.summary_index.specs.Entries.{entries_without, entry_without, in_trie};
ghost use Rattle.zone_rows.specs.declared.zone.TheConstants.{ZONE_LIMIT};

use crate::zones::Zones;
use ip_prefix::Prefix;
use std::alloc::{AllocError, Global};
use trie_keys::Marked;

/// Puts entries at the end, as they come.
pub(crate) fn push_prefixes(
    more: &[(Prefix, Marked<Zones, bool>)],
    entries: &mut Vec<(Prefix, Marked<Zones, bool>)>,
) -> Result<(), AllocError>
    ensures { IfOk result (λ _. entries.new.items ≡ entries.old.items ++ more.now) }
{
    for entry in more {
        entries.push((entry.0, entry.1))?;
    }
    Ok(())
}

/// The entries with marks by which they are in a trie.
pub(crate) fn marked_prefixes(
    alloc: Global,
    entries: &[(Prefix, Marked<Zones, bool>)],
) -> Result<Vec<(Prefix, Marked<Zones, bool>)>, AllocError>
    ensures { IfOk result (λ marked. marked.items ≡ map in_trie entries.now) }
{
    let mut marked = Vec::with_capacity(alloc, entries.len())?;
    for entry in entries {
        let value = Marked {
            value: entry.1.value,
            mark: true,
        };
        marked.push((entry.0, value))?;
    }
    Ok(marked)
}

/// The entries without the zone of this number, which is from 1 to 64, and without those that no zone is left at.
pub(crate) fn without_zone(
    alloc: Global,
    entries: &[(Prefix, Marked<Zones, bool>)],
    number: u32,
) -> Result<Vec<(Prefix, Marked<Zones, bool>)>, AllocError>
    requires some { 1 ≤ number }
    requires within { number ≤ ZONE_LIMIT }
    ensures { IfOk result (λ left. left.items ≡ entries_without number entries.now) }
{
    let mut left = Vec::with_capacity(alloc, entries.len())?;
    for entry in entries {
        push_without(entry, number, &mut left)?;
    }
    Ok(left)
}

// Puts the entry without the zone at the end, if a zone is left at it.
fn push_without(
    entry: &(Prefix, Marked<Zones, bool>),
    number: u32,
    entries: &mut Vec<(Prefix, Marked<Zones, bool>)>,
) -> Result<(), AllocError>
    requires some { 1 ≤ number }
    requires within { number ≤ ZONE_LIMIT }
    ensures { IfOk result (λ _. entries.new.items ≡ entries.old.items ++ entry_without number entry.now) }
{
    let zones = entry.1.value.without(number);
    if zones.is_empty() {
        return Ok(());
    }
    let value = Marked {
        value: zones,
        mark: true,
    };
    entries.push((entry.0, value))?;
    Ok(())
}
