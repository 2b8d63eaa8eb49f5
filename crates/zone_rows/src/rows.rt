//! A list of rows.

ghost use Rattle.std.specs.Prelude.{◌≡◌, ◌<◌, ◌^◌, All, List, [], ◌∷◌, ◌++◌, length, map, slice_get, true, Some, IfOk, OnOk, OnErr};
ghost use Rattle.dns_record.specs.Row.{IsRow};
ghost use Rattle.zone_rows.specs.Repeats.{without_repeats as no_repeats};
ghost use Rattle.zone_rows.specs.Stored.{IsStored, plain_row};

use crate::key_set::KeySet;
use crate::row_ref::RowRef;
use dns_record::Row;
use packed_lists::RowList;
use std::alloc::{AllocError, Global};
use std::fmt;
use std::marker::Model;

/// A list of rows, packed: each takes its octets and 16 more. Contracts see the list.
#[derive(Drop)]
pub struct Rows {
    list: RowList,
}

impl Model for Rows {
    ghost use Rattle.std.specs.Prelude.{All, List, map};
    ghost use Rattle.dns_record.specs.Row.{PlainRow};
    ghost use Rattle.zone_rows.specs.Stored.{IsStored, plain_row};

    ghost Value = { List PlainRow };

    ghost view = { λ r. map plain_row r.list.rows };

    ghost invariant = { λ r. All IsStored r.list.rows };
}

/// How many rows there are.
impl fmt::Debug for Rows {
    fn fmt<W: fmt::Write>(&self, f: &mut fmt::Formatter<W>) -> fmt::Result {
        f.debug_struct("Rows").field("len", &self.len()).finish()
    }
}

impl Rows {
    /// No rows. It takes no memory.
    pub fn new(alloc: Global) -> Self
        ensures { result ≡ [] }
    {
        Rows {
            list: RowList::empty(alloc),
        }
    }

    /// How many rows there are.
    pub fn len(&self) -> usize
        ensures len { result ≡ length self.now }
        ensures fits { length self.now < 2 ^ 32 }
    {
        self.list.len()
    }

    /// The row at the place, from 0. It takes time logarithmic in the number of rows.
    pub fn at(&self, place: usize) -> RowRef<'_>
        requires { place < length self.now }
        ensures row { slice_get self.now place ≡ Some result }
        ensures are_rows { All IsRow self.now }
    {
        RowRef::new(self.list.nth(place))
    }

    /// The packed list of the rows, with their numbers.
    pub fn list(&self) -> &RowList
        ensures rows { map plain_row result.now.rows ≡ self.now }
        ensures are_stored { All IsStored result.now.rows }
    {
        &self.list
    }

    /// The packed list of the rows, which is not copied.
    pub fn into_list(self) -> RowList
        ensures rows { map plain_row result.rows ≡ self }
        ensures are_stored { All IsStored result.rows }
    {
        self.list
    }

    /// Puts a row at the end. An `Err` leaves the list as it was.
    pub fn push(&mut self, row: Row) -> Result<(), AllocError>
        ensures ok { OnOk result (self.new ≡ self.old ++ row ∷ []) }
        ensures err { OnErr result (self.new ≡ self.old) }
    {
        let owner = row.owner().octets();
        self.list.push(owner, row.rtype(), row.ttl(), row.rdata())?;
        Ok(())
    }

    /// Puts a copy of the row at the end. An `Err` leaves the list as it was.
    pub fn push_ref(&mut self, row: &RowRef<'_>) -> Result<(), AllocError>
        ensures ok { OnOk result (self.new ≡ self.old ++ row.now ∷ []) }
        ensures err { OnErr result (self.new ≡ self.old) }
    {
        self.list
            .push(row.owner(), row.rtype(), row.ttl(), row.rdata())?;
        Ok(())
    }

    /// The same rows once more. The two share all blocks of rows but the last.
    pub fn share(&self) -> Result<Rows, AllocError>
        ensures { IfOk result (λ rows. rows ≡ self.now) }
    {
        let list = self.list.share()?;
        Ok(Rows { list })
    }

    /// The rows without those whose owner, type and data came before. It takes as long as so many look-ups in an ordered
    /// set, and twice that where a row repeats. Rows that do not repeat are not copied.
    pub fn without_repeats(self, alloc: Global) -> Result<Rows, AllocError>
        ensures { IfOk result (λ kept. kept ≡ no_repeats self) }
    {
        if self.is_distinct(alloc)? {
            Ok(self)
        } else {
            self.firsts(alloc)
        }
    }

    // Whether no row has the identity of an earlier one.
    fn is_distinct(&self, alloc: Global) -> Result<bool, AllocError>
        ensures { IfOk result (λ distinct. distinct ≡ true → no_repeats self.now ≡ self.now) }
    {
        let mut seen = KeySet::new(alloc);
        for place in 0..self.len() {
            let is_new = seen.insert(self.at(place).identity(alloc)?)?;
            if !is_new {
                return Ok(false);
            }
        }
        Ok(true)
    }

    // The first row of each identity.
    fn firsts(&self, alloc: Global) -> Result<Rows, AllocError>
        ensures { IfOk result (λ kept. kept ≡ no_repeats self.now) }
    {
        let mut kept = Rows::new(alloc);
        let mut seen = KeySet::new(alloc);
        for place in 0..self.len() {
            let row = self.at(place);
            let is_new = seen.insert(row.identity(alloc)?)?;
            if is_new {
                kept.push_ref(&row)?;
            }
        }
        Ok(kept)
    }
}
