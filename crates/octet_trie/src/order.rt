//! Entries in the order of their keys.

ghost use Rattle.std.specs.Prelude.{◌≡◌, ◌+◌, ◌<◌, ◌≤◌, length, IsTrue};
ghost use Rattle.std.specs.Cmp.Lexicographic.{slice_cmp};
ghost use Rattle.std.specs.Ordering.{nat_cmp};
ghost use Rattle.std.specs.declared.cmp.Ordering.TheVariants.{Less};
ghost use Rattle.octet_trie.specs.Listed.{AreInOrder, HasOctet, HasOctetAt};
ghost use Rattle.octet_trie.specs.Trie.{found_entry};

use crate::trie::OctetFound;
use trie_keys::Mark;

// Whether the key of one entry precedes that of another.
fn precedes<N: Copy + Drop, M: Mark>(a: &OctetFound<'_, N, M>, b: &OctetFound<'_, N, M>) -> bool
    ensures { IsTrue result → slice_cmp nat_cmp (found_entry a.now).0 (found_entry b.now).0 ≡ Less }
{
    a.key.cmp(b.key).then(a.wild.cmp(&b.wild)).is_lt()
}

// Whether the entries stand in the order of their keys, each key once.
pub(crate) fn are_in_order<N: Copy + Drop, M: Mark>(entries: &[OctetFound<'_, N, M>]) -> bool
    ensures { IsTrue result → AreInOrder entries.now }
{
    for i in 1..entries.len() {
        if !precedes(&entries[i - 1], &entries[i]) {
            return false;
        }
    }
    true
}

// Whether the octet stands at the place of the entry's key.
fn has_octet<N: Copy + Drop, M: Mark>(entry: &OctetFound<'_, N, M>, place: usize, octet: u8) -> bool
    ensures { IsTrue result → HasOctet entry.now.key.now place octet }
{
    place < entry.key.len() && entry.key[place] == octet
}

// The number of the last entry that has the octet at the place, between one that has it and the end of a stretch.
fn last_between<N: Copy + Drop, M: Mark>(
    entries: &[OctetFound<'_, N, M>],
    low: usize,
    high: usize,
    place: usize,
    octet: u8,
) -> usize
    requires order { low < high }
    requires within { high ≤ length entries.now }
    requires has { HasOctetAt entries.now low place octet }
    ensures from { low ≤ result }
    ensures has { HasOctetAt entries.now result place octet }
{
    if high - low <= 1 {
        return low;
    }
    let middle = low + (high - low) / 2;
    if has_octet(&entries[middle], place, octet) {
        last_between(entries, middle, high, place, octet)
    } else {
        last_between(entries, low, middle, place, octet)
    }
}

// The number of the last entry that has the octet at the place, from one that has it on. It looks ahead by steps that double, and
// then by halves, so that it looks at few entries.
pub(crate) fn last_with<N: Copy + Drop, M: Mark>(
    entries: &[OctetFound<'_, N, M>],
    low: usize,
    step: usize,
    place: usize,
    octet: u8,
) -> usize
    requires some { 0 < step }
    requires few { step ≤ low + 1 }
    requires has { HasOctetAt entries.now low place octet }
    ensures from { low ≤ result }
    ensures has { HasOctetAt entries.now result place octet }
{
    let left = entries.len() - low;
    if step < left {
        let next = low + step;
        if has_octet(&entries[next], place, octet) {
            last_with(entries, next, step * 2, place, octet)
        } else {
            last_between(entries, low, next, place, octet)
        }
    } else {
        last_between(entries, low, entries.len(), place, octet)
    }
}
