//! Entries that act, with one value in place of their own.

ghost use Rattle.std.specs.Prelude.{◌≡◌, ◌++◌, map, IfOk};
ghost use Rattle.octet_trie.specs.Trie.{found_entry};
ghost use Rattle.zone_index.specs.ActingEntries.{acting_marked, acting_one};

use crate::kept::Kept;
use ip_prefix::Prefix;
use octet_trie::OctetFound;
use std::alloc::{AllocError, Global};
use trie_keys::{Mark, Marked};

// Puts the key of the entry at the end with the value, if the entry acts.
fn push_key<'a, N: Copy + Drop>(
    entry: &OctetFound<'a, u32, Kept>,
    value: N,
    entries: &mut Vec<OctetFound<'a, N, bool>>,
) -> Result<(), AllocError>
    ensures { IfOk result (λ _. map found_entry entries.new.items
        ≡ map found_entry entries.old.items ++ acting_one value (found_entry entry.now)) }
{
    if !entry.value.mark.does_act() {
        return Ok(());
    }
    entries.push(OctetFound {
        key: entry.key,
        wild: entry.wild,
        value: Marked { value, mark: true },
    })?;
    Ok(())
}

/// The keys of the entries that act, each with the value. There is room for `count` of them from the start.
pub(crate) fn acting_keys<'a, N: Copy + Drop>(
    alloc: Global,
    found: &[OctetFound<'a, u32, Kept>],
    count: usize,
    value: N,
) -> Result<Vec<OctetFound<'a, N, bool>>, AllocError>
    ensures { IfOk result
        (λ entries. map found_entry entries.items ≡ acting_marked value (map found_entry found.now)) }
{
    let mut entries = Vec::with_capacity(alloc, count)?;
    for entry in found {
        push_key(entry, value, &mut entries)?;
    }
    Ok(entries)
}

// Puts the prefix of the entry at the end with the value, if the entry acts.
fn push_prefix<N: Copy + Drop>(
    entry: &(Prefix, Marked<u32, Kept>),
    value: N,
    entries: &mut Vec<(Prefix, Marked<N, bool>)>,
) -> Result<(), AllocError>
    ensures { IfOk result (λ _. entries.new.items ≡ entries.old.items ++ acting_one value entry.now) }
{
    if !entry.1.mark.does_act() {
        return Ok(());
    }
    entries.push((entry.0, Marked { value, mark: true }))?;
    Ok(())
}

/// The prefixes of the entries that act, each with the value. There is room for `count` of them from the start.
pub(crate) fn acting_prefixes<N: Copy + Drop>(
    alloc: Global,
    found: &[(Prefix, Marked<u32, Kept>)],
    count: usize,
    value: N,
) -> Result<Vec<(Prefix, Marked<N, bool>)>, AllocError>
    ensures { IfOk result (λ entries. entries.items ≡ acting_marked value found.now) }
{
    let mut entries = Vec::with_capacity(alloc, count)?;
    for entry in found {
        push_prefix(entry, value, &mut entries)?;
    }
    Ok(entries)
}
