//! Runs of one key.

ghost use Rattle.std.specs.Prelude.{◌≡◌, ◌<◌, length, map, IfOk};
ghost use Rattle.packed_lists.specs.Keyed.{AreInOrder, IsFirstRun};
ghost use Rattle.packed_lists.specs.KeysSeen.{keyed_seen};

use crate::keyed::Keyed;
use std::alloc::{AllocError, Global};

/// The keys at the front that are the same as the first, and those behind them. It takes no memory, and looks at the keys of the
/// first part and at one behind them.
pub fn first_run<'a, 'b>(keys: &'b [Keyed<'a>]) -> (&'b [Keyed<'a>], &'b [Keyed<'a>])
    requires some { 0 < length keys.now }
    requires order { AreInOrder (map keyed_seen keys.now) }
    ensures { IsFirstRun (map keyed_seen keys.now) (map keyed_seen result.0.now) (map keyed_seen result.1.now) }
{
    let first = keys[0].key;
    let mut count = 1;
    while count < keys.len() && keys[count].key == first {
        count += 1;
    }
    keys.split_at(count)
}

/// The numbers of keys, in their order. An `Err` comes where allocation fails.
pub fn numbers_of(alloc: Global, keys: &[Keyed<'_>]) -> Result<Vec<u32>, AllocError>
    ensures { IfOk result (λ numbers. numbers.items ≡ map (λ k. k.number) (map keyed_seen keys.now)) }
{
    let mut numbers = Vec::with_capacity(alloc, keys.len())?;
    for keyed in keys {
        numbers.push(keyed.number)?;
    }
    Ok(numbers)
}
