//! A list of rows with rising numbers.

ghost use Rattle.std.specs.Prelude.{◌≡◌, ◌+◌, ◌<◌, ◌≤◌, ◌^◌, [], ◌∷◌, ◌++◌, length, slice_get, Some, IfOk, OnErr, if◌then◌else◌};
ghost use Rattle.std.specs.Option.{option_map};
ghost use Rattle.packed_lists.specs.Stored.{NumbersRise, row_of_number};
ghost use Rattle.packed_lists.specs.RowsSeen.{seen};
ghost use Rattle.packed_lists.specs.Blocks.{no_rows, put_row, with_row, without_row};

use crate::block::Block;
use crate::block_numbers::BlockNumbers;
use crate::blocks::{block_at, put_block};
use crate::held::Held;
use crate::share::Share;
use crate::stored_row::StoredRow;
use crate::table::SharedTable;
use std::alloc::{AllocError, Global};
use std::marker::Model;

// How many rows may be taken out before a list of few rows is thin.
const SPARE: usize = 8192;

/// Rows in the order of their numbers, and the number that the next one gets. Each takes its octets and 16 more. They stand in
/// blocks of at most 512, which copies of the list share; no edit of one is seen in the other. An edit copies one block, and a
/// copy of the list takes time for each 32,768th row and the rows of the last block; beside these, both take time for one word
/// of each block.
pub struct RowList {
    blocks: SharedTable<Held<Block>>,
    tail: Block,
    // the first number that each block may have, and how many rows stand before it
    firsts: BlockNumbers,
    starts: BlockNumbers,
    next: u32,
    gone: usize,
    alloc: Global,
}

impl Model for RowList {
    ghost use Rattle.std.specs.Prelude.{◌++◌, ◌∷◌, []};
    ghost use Rattle.packed_lists.specs.Blocks.{PlainRowList, IsIndexed, joined};

    ghost Value = { PlainRowList };

    ghost view = { λ l. record { rows = joined (l.blocks ++ l.tail ∷ []); next = l.next } };

    ghost invariant = { λ l. IsIndexed l.firsts l.starts (l.blocks ++ l.tail ∷ [])
        l.next };
}

// Written out, so that wherever one is dropped this is one call.
impl Drop for RowList {
    fn drop(self) {
        let RowList {
            blocks: _,
            tail: _,
            firsts: _,
            starts: _,
            next: _,
            gone: _,
            alloc: _,
        } = self;
    }
}

impl RowList {
    /// No rows; the first gets the number 0. It takes no memory.
    pub fn empty(alloc: Global) -> Self
        ensures { result ≡ no_rows }
    {
        RowList {
            blocks: SharedTable::new(alloc),
            tail: Block::new(alloc),
            firsts: BlockNumbers::one(alloc, 0),
            starts: BlockNumbers::one(alloc, 0),
            next: 0,
            gone: 0,
            alloc,
        }
    }

    /// A list of the same rows. The two share all blocks but the last.
    pub fn share(&self) -> Result<Self, AllocError>
        ensures { IfOk result (λ other. other ≡ self.now) }
    {
        let blocks = self.blocks.share()?;
        let firsts = self.firsts.share(self.alloc)?;
        let starts = self.starts.share(self.alloc)?;
        let tail = self.tail.share(self.alloc)?;
        Ok(RowList {
            blocks,
            tail,
            firsts,
            starts,
            next: self.next,
            gone: self.gone,
            alloc: self.alloc,
        })
    }

    /// How many rows. Its clauses also say that their numbers rise, and that all are below 2^32 - 1.
    pub fn len(&self) -> usize
        ensures len { result ≡ length self.now.rows }
        ensures rising { NumbersRise 0 self.now.rows self.now.next }
        ensures fits { self.now.next < 2 ^ 32 }
    {
        self.starts.get(self.blocks.len()) + self.tail.len()
    }

    /// The number that the next row gets.
    pub fn next(&self) -> u32
        ensures { result ≡ self.now.next }
    {
        self.next
    }

    /// Whether more rows were taken out, since the blocks were last built, than there are: then [`RowList::rebuilt`] pays. No
    /// clause speaks of it.
    pub fn is_thin(&self) -> bool {
        self.gone.saturating_sub(SPARE) > self.len()
    }

    /// The row of the number.
    pub fn get(&self, number: u32) -> Option<StoredRow<'_>>
        ensures { option_map seen result ≡ row_of_number number self.now.rows }
    {
        let after = self.firsts.count_at_most(number as usize);
        if after == 0 {
            return None;
        }
        block_at(&self.blocks, &self.tail, after - 1).find(number)
    }

    /// The row at the place, from 0.
    pub fn nth(&self, at: usize) -> StoredRow<'_>
        requires { at < length self.now.rows }
        ensures { slice_get self.now.rows at ≡ Some (seen result) }
    {
        let after = self.starts.count_at_most(at);
        let block = block_at(&self.blocks, &self.tail, after - 1);
        block.get(at - self.starts.get(after - 1))
    }

    // Puts the row at the end and answers true, or answers false where the last block is full.
    fn append(&mut self, row: StoredRow<'_>) -> Result<bool, AllocError>
        requires above { self.old.next ≤ row.number }
        requires below { row.number + 1 < 2 ^ 32 }
        ensures ok { IfOk result
            (λ took. self.new ≡ (if took then put_row self.old (seen row.entry) else self.old)) }
        ensures err { OnErr result (self.new ≡ self.old) }
    {
        if self.tail.push(row)? {
            self.next = row.number + 1;
            Ok(true)
        } else {
            Ok(false)
        }
    }

    // Begins a new block. The rows stay.
    fn seal(&mut self) -> Result<(), AllocError>
        ensures { self.new ≡ self.old }
    {
        let total = self.len();
        let block = self.tail.share(self.alloc)?;
        let held = Held::new(self.alloc, block)?;
        let firsts = self.firsts.with(self.alloc, self.next as usize)?;
        let starts = self.starts.with(self.alloc, total)?;
        self.blocks.push(held)?;
        self.firsts = firsts;
        self.starts = starts;
        self.tail = Block::new(self.alloc);
        Ok(())
    }

    // Puts the row at the end, with a number from the next one on.
    fn put(&mut self, row: StoredRow<'_>) -> Result<(), AllocError>
        requires above { self.old.next ≤ row.number }
        requires below { row.number + 1 < 2 ^ 32 }
        ensures ok { IfOk result (λ _. self.new ≡ put_row self.old (seen row.entry)) }
        ensures err { OnErr result (self.new ≡ self.old) }
    {
        if self.append(row)? {
            return Ok(());
        }
        self.seal()?;
        if self.append(row)? {
            Ok(())
        } else {
            Err(AllocError)
        }
    }

    /// Puts a row at the end, and gives its number. An `Err` leaves the list as it was; it comes where allocation fails, where
    /// the numbers have run out (the greatest is 2^32 - 2), and for an owner or data of more than 65,535 octets.
    pub fn push(
        &mut self,
        owner: &[u8],
        rtype: u16,
        ttl: u32,
        rdata: &[u8],
    ) -> Result<u32, AllocError>
        ensures number { IfOk result (λ number. number ≡ self.old.next) }
        ensures ok { IfOk result
            (λ _. self.new ≡ with_row self.old owner.now rtype ttl rdata.now) }
        ensures err { OnErr result (self.new ≡ self.old) }
    {
        let number = self.next;
        if number == u32::MAX {
            return Err(AllocError);
        }
        self.put(StoredRow {
            number,
            owner,
            rtype,
            ttl,
            rdata,
        })?;
        Ok(number)
    }

    /// Takes out the row of the number, if there is one. An `Err` leaves the list as it was.
    pub fn remove(&mut self, number: u32) -> Result<(), AllocError>
        ensures ok { IfOk result (λ _. self.new ≡ without_row number self.old) }
        ensures err { OnErr result (self.new ≡ self.old) }
    {
        let after = self.firsts.count_at_most(number as usize);
        if after == 0 {
            return Ok(());
        }
        let place = after - 1;
        let old = block_at(&self.blocks, &self.tail, place);
        let block = old.without(self.alloc, number)?;
        let gone = old.len().saturating_sub(block.len());
        let starts = self.starts.lowered(self.alloc, after, gone)?;
        put_block(self.alloc, &mut self.blocks, &mut self.tail, place, block)?;
        self.starts = starts;
        self.gone = self.gone.saturating_add(gone);
        Ok(())
    }

    /// The same rows with the same numbers, in blocks that are full again.
    pub fn rebuilt(&self) -> Result<Self, AllocError>
        ensures { IfOk result (λ other. other ≡ self.now) }
    {
        let mut list = RowList::empty(self.alloc);
        let count = self.len();
        for at in 0..count {
            list.put(self.nth(at))?;
        }
        list.skip_to(self.next);
        Ok(list)
    }

    // The next row gets this number.
    fn skip_to(&mut self, next: u32)
        requires { self.old.next ≤ next }
        ensures { self.new ≡ record { rows = self.old.rows; next = next } }
    {
        self.next = next;
    }
}
