//! The blocks of a list, the last of which stands apart.

ghost use Rattle.std.specs.Prelude.{◌≡◌, ◌<◌, ◌≤◌, [], ◌∷◌, ◌++◌, length, slice_get, slice_set, Some, IfOk, OnErr};

use crate::block::Block;
use crate::held::Held;
use crate::share::Share;
use crate::table::SharedTable;
use std::alloc::{AllocError, Global};

/// The block at the place.
pub(crate) fn block_at<'a>(
    blocks: &'a SharedTable<Held<Block>>,
    tail: &'a Block,
    place: usize,
) -> &'a Block
    requires { place ≤ length blocks.now }
    ensures { slice_get (blocks.now ++ tail.now ∷ []) place ≡ Some result.now }
{
    if place < blocks.len() {
        blocks.get(place).get()
    } else {
        tail
    }
}

/// Puts the block in place of the one there. An `Err` leaves all as it was.
pub(crate) fn put_block(
    alloc: Global,
    blocks: &mut SharedTable<Held<Block>>,
    tail: &mut Block,
    place: usize,
    block: Block,
) -> Result<(), AllocError>
    requires { place ≤ length blocks.old }
    ensures ok { IfOk result (λ _. blocks.new ++ tail.new ∷ []
        ≡ slice_set (blocks.old ++ tail.old ∷ []) place block) }
    ensures err { OnErr result (blocks.new ++ tail.new ∷ [] ≡ blocks.old ++ tail.old ∷ []) }
{
    if place < blocks.len() {
        let held = Held::new(alloc, block)?;
        blocks.set(place, held)?;
        Ok(())
    } else {
        *tail = block;
        Ok(())
    }
}
