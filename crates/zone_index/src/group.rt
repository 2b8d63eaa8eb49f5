//! Rows of one place.

ghost use Rattle.std.specs.Prelude.{◌≡◌, ◌<◌, ◌∷◌, ◌++◌, [], true, length, IfOk, slice_get};
ghost use Rattle.zone_index.specs.Entry.{entry_seen};
ghost use Rattle.zone_index.specs.Groups.{IsKeptAs, IsThere, entry_in, entry_of};

use crate::does::Does;
use crate::entry::EntryRef;
use crate::kept::Kept;
use crate::numbers::Numbers;
use packed_lists::{Held, SharedTable};
use std::alloc::{AllocError, Global};
use trie_keys::Marked;

/// The rows of a place, where one number and a mark don't say it all.
#[derive(Drop)]
pub(crate) struct Group {
    /// Their numbers.
    pub(crate) numbers: Vec<u32>,
    /// What they do.
    pub(crate) does: Does,
}

impl Group {
    // The group, lent.
    fn lend(&self) -> EntryRef<'_>
        ensures { entry_seen result ≡ entry_of self.now }
    {
        EntryRef {
            numbers: Numbers::several(&self.numbers),
            does: self.does.lend(),
        }
    }
}

/// What a value of a trie stands for.
pub(crate) fn lend<'a>(
    groups: &'a SharedTable<Held<Group>>,
    value: Marked<u32, Kept>,
) -> EntryRef<'a>
    requires { IsThere groups.now value }
    ensures { entry_seen result ≡ entry_in groups.now value }
{
    match value.mark {
        Kept::Group | Kept::IdleGroup => groups.get(value.value as usize).get().lend(),
        mark => EntryRef {
            numbers: Numbers::one(value.value),
            does: mark.lone(),
        },
    }
}

/// A value that stands for these rows: the number itself where there is one and a mark says what it does, or else that of a new
/// group.
pub(crate) fn keep(
    alloc: Global,
    groups: &mut SharedTable<Held<Group>>,
    numbers: &[u32],
    does: Does,
) -> Result<Marked<u32, Kept>, AllocError>
    ensures { IfOk result (λ value. IsKeptAs groups.old groups.new numbers.now does value) }
{
    if numbers.len() == 1
        && let Some(mark) = Kept::of(&does)
    {
        return Ok(Marked {
            value: numbers[0],
            mark,
        });
    }
    keep_group(alloc, groups, numbers, does)
}

// The same by a new group.
fn keep_group(
    alloc: Global,
    groups: &mut SharedTable<Held<Group>>,
    numbers: &[u32],
    does: Does,
) -> Result<Marked<u32, Kept>, AllocError>
    ensures { IfOk result (λ value. IsKeptAs groups.old groups.new numbers.now does value) }
{
    let mark = if does.acts() {
        Kept::Group
    } else {
        Kept::IdleGroup
    };
    let value = groups.len() as u32;
    let numbers = Vec::from_slice(alloc, numbers)?;
    groups.push(Held::new(alloc, Group { numbers, does })?)?;
    Ok(Marked { value, mark })
}
