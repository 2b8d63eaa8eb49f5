//! A list of plain items.

ghost use Rattle.std.specs.Prelude.{◌≡◌, ◌<◌, ◌≤◌, [], ◌∷◌, ◌++◌, length, slice_get, Some, IfOk, OnErr};

use crate::held::Held;
use crate::share::Share;
use crate::table::SharedTable;
use std::alloc::{AllocError, Global};
use std::marker::Model;

// How many items a full block has.
const BLOCK: usize = 1024;

// How many blocks may be full, so that the number of all items is below 2^32.
const MOST_BLOCKS: usize = 4_194_302;

/// A list of plain items that grows at its end. They stand in blocks of 1,024, which copies of the list share: a copy takes time
/// for each 65,536th item and for the items of the last block. Contracts see the list of its items.
#[derive(Drop)]
pub struct SharedList<T> {
    blocks: SharedTable<Held<Vec<T>>>,
    tail: Vec<T>,
    alloc: Global,
}

impl<T> Model for SharedList<T> {
    ghost use Rattle.std.specs.Prelude.{List, ◌≡◌, ◌≤◌, ◌++◌, length};
    ghost use Rattle.std.specs.List.{AllByRecursion, flat_map};

    ghost Value = { List T };

    ghost view = { λ s. flat_map (λ v. v.items) s.blocks ++ s.tail.items };

    ghost invariant = { λ s. AllByRecursion (λ v. length v.items ≡ 1024) s.blocks
        × (length s.blocks ≤ 4194302) × (length s.tail.items ≤ 1024) };
}

impl<T: Copy + Drop> SharedList<T> {
    /// No items. It takes no memory.
    pub fn new(alloc: Global) -> Self
        ensures { result ≡ [] }
    {
        SharedList {
            blocks: SharedTable::new(alloc),
            tail: Vec::new(alloc),
            alloc,
        }
    }

    /// How many items: fewer than 2^32 - 1.
    pub fn len(&self) -> usize
        ensures len { result ≡ length self.now }
        ensures few { length self.now < 4294967295 }
    {
        self.blocks.len() * BLOCK + self.tail.len()
    }

    /// The item at the place.
    pub fn get(&self, place: usize) -> &T
        requires { place < length self.now }
        ensures { slice_get self.now place ≡ Some result.now }
    {
        let block = place / BLOCK;
        if block < self.blocks.len() {
            let items: &Vec<T> = self.blocks.get(block).get();
            &items[place % BLOCK]
        } else {
            &self.tail[place - self.blocks.len() * BLOCK]
        }
    }

    /// Puts an item at the end. An `Err` leaves the list as it was; it comes where allocation fails, and where the list has
    /// as many items as it may have.
    pub fn push(&mut self, item: T) -> Result<(), AllocError>
        ensures ok { IfOk result (λ _. self.new ≡ self.old ++ item ∷ []) }
        ensures err { OnErr result (self.new ≡ self.old) }
    {
        if self.tail.len() == BLOCK {
            if self.blocks.len() >= MOST_BLOCKS {
                return Err(AllocError);
            }
            let items = Vec::from_slice(self.alloc, &self.tail)?;
            let block = Held::new(self.alloc, items)?;
            let mut tail = Vec::with_capacity(self.alloc, 1)?;
            self.blocks.push(block)?;
            tail.push_reserved(item);
            self.tail = tail;
        } else {
            self.tail.push(item)?;
        }
        Ok(())
    }
}

impl<T: Copy + Drop> Share for SharedList<T> {
    // All blocks but the last are in both.
    fn share(&self) -> Result<Self, AllocError> {
        let blocks = self.blocks.share()?;
        let tail = Vec::from_slice(self.alloc, &self.tail)?;
        Ok(SharedList {
            blocks,
            tail,
            alloc: self.alloc,
        })
    }
}
