//! A list of strings of octets.

ghost use Rattle.std.specs.Prelude.{◌≡◌, ℕ, ◌+◌, ◌<◌, ◌≤◌, ◌^◌, ◌++◌, [], List, length, slice_range, IfOk, OnErr};
ghost use Rattle.packed_lists.specs.Octets.{IsFilled, IsPut, StandsWhole};

use crate::held::Held;
use crate::share::Share;
use crate::table::SharedTable;
use std::alloc::{AllocError, Global};
use std::marker::Model;

// How many octets a full block has.
const BLOCK: usize = 4096;

// How many blocks may be full, so that the number of all octets is below 2^32.
const MOST_BLOCKS: usize = 1_048_574;

/// Strings of octets, up to 4,096 each, in one list that grows at its end. Each string stands in one block of 4,096, so that it can
/// be lent. Copies of the list share the blocks: a copy takes time for each 262,144th octet and for those of the last block.
/// Contracts see the list of all octets, with those that fill a block up where a string didn't fit.
#[derive(Drop)]
pub struct SharedOctets {
    blocks: SharedTable<Held<Vec<u8>>>,
    tail: Vec<u8>,
    alloc: Global,
}

impl Model for SharedOctets {
    ghost use Rattle.std.specs.Prelude.{List, ℕ, ◌≡◌, ◌≤◌, ◌++◌, length};
    ghost use Rattle.std.specs.List.{AllByRecursion, flat_map};

    ghost Value = { List ℕ };

    ghost view = { λ s. flat_map (λ v. v.items) s.blocks ++ s.tail.items };

    ghost invariant = { λ s. AllByRecursion (λ v. length v.items ≡ 4096) s.blocks
        × (length s.blocks ≤ 1048574) × (length s.tail.items ≤ 4096) };
}

impl SharedOctets {
    /// No octets. It takes no memory.
    pub fn new(alloc: Global) -> Self
        ensures { result ≡ [] }
    {
        SharedOctets {
            blocks: SharedTable::new(alloc),
            tail: Vec::new(alloc),
            alloc,
        }
    }

    /// How many octets, with those that fill blocks up: fewer than 2^32.
    pub fn len(&self) -> usize
        ensures len { result ≡ length self.now }
        ensures few { length self.now < 2 ^ 32 }
    {
        self.blocks.len() * BLOCK + self.tail.len()
    }

    /// So many octets from the place on.
    pub fn get(&self, place: u32, count: usize) -> &[u8]
        requires { StandsWhole self.now place count }
        ensures { result.now ≡ slice_range self.now place (place + count) }
    {
        let start = place as usize;
        let block = start / BLOCK;
        if block < self.blocks.len() {
            let octets: &Vec<u8> = self.blocks.get(block).get();
            let at = start % BLOCK;
            &octets[at..at + count]
        } else {
            let at = start - self.blocks.len() * BLOCK;
            &self.tail[at..at + count]
        }
    }

    /// Puts a string of at most 4,096 octets at the end, and gives its place. An `Err` leaves the list as it was; it comes where
    /// allocation fails, and where there are as many octets as there may be.
    pub fn push(&mut self, string: &[u8]) -> Result<u32, AllocError>
        requires { length string.now ≤ 4096 }
        ensures ok { IfOk result (λ place. IsPut self.old self.new string.now place) }
        ensures err { OnErr result (self.new ≡ self.old) }
    {
        if self.tail.len() + string.len() > BLOCK {
            return self.push_to_new_block(string);
        }
        let place = self.len();
        self.tail.extend_from_slice(string)?;
        Ok(place as u32)
    }

    // Puts a string at the end, at the begin of a block.
    fn push_to_new_block(&mut self, string: &[u8]) -> Result<u32, AllocError>
        requires { length string.now ≤ 4096 }
        ensures ok { IfOk result (λ place. IsPut self.old self.new string.now place) }
        ensures err { OnErr result (self.new ≡ self.old) }
    {
        if self.blocks.len() >= MOST_BLOCKS {
            return Err(AllocError);
        }
        let tail = Vec::from_slice(self.alloc, string)?;
        let octets = filled_up(self.alloc, &self.tail)?;
        let block = Held::new(self.alloc, octets)?;
        self.blocks.push(block)?;
        self.tail = tail;
        Ok((self.blocks.len() * BLOCK) as u32)
    }
}

impl Share for SharedOctets {
    // All blocks but the last are in both.
    fn share(&self) -> Result<Self, AllocError> {
        let blocks = self.blocks.share()?;
        let tail = Vec::from_slice(self.alloc, &self.tail)?;
        Ok(SharedOctets {
            blocks,
            tail,
            alloc: self.alloc,
        })
    }
}

// The octets, and zeros behind them up to a whole block.
fn filled_up(alloc: Global, octets: &Vec<u8>) -> Result<Vec<u8>, AllocError>
    requires { length octets.now.items ≤ 4096 }
    ensures { IfOk result (λ block. IsFilled octets.now.items block.items) }
{
    let mut block = Vec::with_capacity(alloc, BLOCK)?;
    block.extend_from_slice(octets)?;
    block.resize(BLOCK, 0)?;
    Ok(block)
}
