//! How many entries act.

ghost use Rattle.std.specs.Prelude.{◌≡◌, ◌+◌, ◌≤◌, IfOk};
ghost use Rattle.zone_index.specs.Counted.{acting_in, one_acting};

use crate::kept::Kept;
use std::alloc::AllocError;
use trie_keys::{Mark, Marked};

/// How many act where the value takes the place of the old one. An `Err` comes where they are too many to be counted.
pub(crate) fn tally(
    count: usize,
    old: Option<Marked<u32, Kept>>,
    value: Marked<u32, Kept>,
) -> Result<usize, AllocError>
    requires { acting_in old ≤ count }
    ensures { IfOk result (λ new. new + acting_in old ≡ count + one_acting value) }
{
    let rest = tally_without(count, old);
    let one = usize::from(value.mark.does_act());
    match rest.checked_add(one) {
        Some(count) => Ok(count),
        None => Err(AllocError),
    }
}

/// How many act without the value.
pub(crate) fn tally_without(count: usize, old: Option<Marked<u32, Kept>>) -> usize
    requires { acting_in old ≤ count }
    ensures { result + acting_in old ≡ count }
{
    match old {
        Some(value) if value.mark.does_act() => count - 1,
        _ => count,
    }
}
