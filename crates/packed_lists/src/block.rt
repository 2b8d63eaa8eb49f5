//! A block of rows: their octets in one buffer, and an entry of 16 octets for each.

ghost use Rattle.std.specs.Prelude.{◌≡◌, ◌+◌, ◌<◌, ◌≤◌, ◌^◌, [], ◌∷◌, ◌++◌, length, slice_get, Some, IfOk, OnErr, if◌then◌else◌};
ghost use Rattle.std.specs.Option.{option_map};
ghost use Rattle.packed_lists.specs.Stored.{PlainStored, NumbersRise, row_of_number, without_number};
ghost use Rattle.packed_lists.specs.RowsSeen.{seen};

use crate::entry::{Entry, count_at_most};
use crate::stored_row::StoredRow;
use std::alloc::{AllocError, Global};
use std::marker::Model;

// How many rows a block takes.
const MOST_ROWS: usize = 512;

// Where the last row of a block may begin.
const LAST_START: usize = 65_535;

/// Rows, packed. Contracts see the list of them.
#[derive(Drop)]
pub(crate) struct Block {
    octets: Vec<u8>,
    entries: Vec<Entry>,
}

impl Model for Block {
    ghost use Rattle.std.specs.Prelude.{List, map, length};
    ghost use Rattle.std.specs.List.{AllByRecursion};
    ghost use Rattle.packed_lists.specs.Stored.{PlainStored};
    ghost use Rattle.packed_lists.specs.Packed.{unpacked, LiesWithin};

    ghost Value = { List PlainStored };

    ghost view = { λ b. map (unpacked b.octets.items) b.entries.items };

    ghost invariant = { λ b. AllByRecursion (LiesWithin (length b.octets.items)) b.entries.items };
}

impl Block {
    /// No rows. It takes no memory.
    pub(crate) fn new(alloc: Global) -> Self
        ensures { result ≡ [] }
    {
        Block {
            octets: Vec::new(alloc),
            entries: Vec::new(alloc),
        }
    }

    /// How many rows.
    pub(crate) fn len(&self) -> usize
        ensures { result ≡ length self.now }
    {
        self.entries.len()
    }

    /// The row at the place.
    pub(crate) fn get(&self, place: usize) -> StoredRow<'_>
        requires { place < length self.now }
        ensures { slice_get self.now place ≡ Some (seen result) }
    {
        let entry = self.entries[place];
        let start = usize::from(entry.start);
        let middle = start + usize::from(entry.owner_len);
        let end = middle + usize::from(entry.data_len);
        StoredRow {
            number: entry.number,
            owner: &self.octets[start..middle],
            rtype: entry.rtype,
            ttl: entry.ttl,
            rdata: &self.octets[middle..end],
        }
    }

    /// The row of the number. Where no row was taken out before it, it takes constant time, and else time logarithmic in the
    /// number of rows.
    pub(crate) fn find(&self, number: u32) -> Option<StoredRow<'_>>
        requires { NumbersRise 0 self.now (2 ^ 32) }
        ensures { option_map seen result ≡ row_of_number number self.now }
    {
        let place = self.likely_place(number);
        if place < self.len() {
            let row = self.get(place);
            if row.number == number {
                return Some(row);
            }
        }
        self.search(number)
    }

    // Where the row of the number stands if none before it was taken out.
    fn likely_place(&self, number: u32) -> usize {
        match self.entries.first() {
            None => 0,
            Some(entry) => number.saturating_sub(entry.number) as usize,
        }
    }

    // The row of the number, by halves.
    fn search(&self, number: u32) -> Option<StoredRow<'_>>
        requires { NumbersRise 0 self.now (2 ^ 32) }
        ensures { option_map seen result ≡ row_of_number number self.now }
    {
        let after = count_at_most(&self.entries, number);
        if after > 0 {
            let row = self.get(after - 1);
            if row.number == number {
                Some(row)
            } else {
                None
            }
        } else {
            None
        }
    }

    /// Puts the row at the end and answers true, or answers false where the block is full. An `Err` leaves it as it was.
    pub(crate) fn push(&mut self, row: StoredRow<'_>) -> Result<bool, AllocError>
        ensures ok { IfOk result (λ took. self.new
            ≡ (if took then self.old ++ seen row.entry ∷ [] else self.old)) }
        ensures err { OnErr result (self.new ≡ self.old) }
    {
        let start = self.octets.len();
        if self.entries.len() >= MOST_ROWS
            || start > LAST_START
            || row.owner.len() > LAST_START
            || row.rdata.len() > LAST_START
        {
            return Ok(false);
        }
        self.octets.extend_from_slice(row.owner)?;
        self.octets.extend_from_slice(row.rdata)?;
        self.entries.push(Entry {
            number: row.number,
            ttl: row.ttl,
            start: start as u16,
            rtype: row.rtype,
            owner_len: row.owner.len() as u16,
            data_len: row.rdata.len() as u16,
        })?;
        Ok(true)
    }

    /// A block of the same rows, with no room to spare.
    pub(crate) fn share(&self, alloc: Global) -> Result<Block, AllocError>
        ensures { IfOk result (λ other. other ≡ self.now) }
    {
        let octets = Vec::from_slice(alloc, &self.octets)?;
        let entries = Vec::from_slice(alloc, &self.entries)?;
        Ok(Block { octets, entries })
    }

    /// A block of the rows without that of the number.
    pub(crate) fn without(&self, alloc: Global, number: u32) -> Result<Block, AllocError>
        ensures { IfOk result (λ other. other ≡ without_number number self.now) }
    {
        let mut kept = Block {
            octets: Vec::with_capacity(alloc, self.octets.len())?,
            entries: Vec::with_capacity(alloc, self.entries.len())?,
        };
        let count = self.len();
        for place in 0..count {
            let row = self.get(place);
            keep_other(&mut kept, row, number)?;
        }
        Ok(kept)
    }
}

// Puts the row at the end unless it has the number.
fn keep_other(kept: &mut Block, row: StoredRow<'_>, number: u32) -> Result<(), AllocError>
    ensures { IfOk result
        (λ _. kept.new ≡ kept.old ++ without_number number (seen row.entry ∷ [])) }
{
    if row.number == number {
        return Ok(());
    }
    if kept.push(row)? {
        Ok(())
    } else {
        Err(AllocError)
    }
}
