//! The rows of a zone with their index.

ghost use Rattle.std.specs.Prelude.{◌≡◌, ◌++◌, [], ◌∷◌, All, length, map, true, false, IfOk, if◌then◌else◌};
ghost use Rattle.dns_record.specs.Row.{IsRow};
ghost use Rattle.zone_index.specs.Indexed.{IsIndexing};
ghost use Rattle.zone_index.specs.Placed.{PlainIndexed, row_place};
ghost use Rattle.zone_rows.specs.Distinct.{AreDistinct};
ghost use Rattle.zone_rows.specs.Repeats.{has_row};
ghost use Rattle.zone_rows.specs.Steps.{without_row};
ghost use Rattle.zone_rows.specs.Stored.{IsStored, plain_row};

use crate::editing::{Parts, added, removed};
use crate::finding::number_in;
use crate::gathering::{index_of, index_of_distinct};
use crate::place::Place;
use crate::row_place::place_of;
use crate::trigger_index::TriggerIndex;
use dns_name::Name;
use dns_name::laws::{case_does_not_matter, names_of_equal_octets_are_equal};
use dns_record::Row;
use dns_record::laws::rows_of_one_identity_differ_in_the_ttl_alone;
use packed_lists::RowList;
use std::alloc::{AllocError, Global};
use std::marker::Model;
use zone_rows::{RowRef, Rows};

// The work of an edit at a place of no other rows. The unit is such that a whole transfer is about 8 for each row.
const EDIT: usize = 256;

// The work that each other row of the place adds to it: it is read, copied and sorted.
const BESIDE: usize = 8;

/// The rows of a zone, of which no two have one identity, with an index of what stands at each trigger. Contracts see the rows, and
/// the origin of the zone. An edit gives a new version, and the two share what is the same in both.
pub(crate) struct IndexedRows {
    pub(crate) origin: Name,
    pub(crate) rows: RowList,
    pub(crate) index: TriggerIndex,
    // how much work the edits since it was shared have been
    pub(crate) spent: usize,
}

impl Model for IndexedRows {
    ghost use Rattle.std.specs.Prelude.{map};
    ghost use Rattle.zone_index.specs.Placed.{IsIndexed, PlainIndexed};
    ghost use Rattle.zone_rows.specs.Stored.{plain_row};

    ghost Value = { PlainIndexed };

    ghost view = { λ i. record { origin = i.origin; rows = map plain_row i.rows.rows } };

    ghost invariant = { λ i. IsIndexed i.origin i.rows.rows i.index };
}

// Written out, so that wherever one is dropped this is one call.
impl Drop for IndexedRows {
    fn drop(self) {
        let IndexedRows {
            origin: _,
            rows: _,
            index: _,
            spent: _,
        } = self;
    }
}

impl IndexedRows {
    /// These rows, of which no two have one identity, for a zone of this origin.
    pub(crate) fn of(alloc: Global, origin: Name, rows: RowList) -> Result<Self, AllocError>
        requires stored { All IsStored rows.rows }
        requires distinct { AreDistinct (map plain_row rows.rows) }
        ensures { IfOk result
            (λ indexed. indexed ≡ record { origin = origin; rows = map plain_row rows.rows }) }
    {
        let index = index_of(alloc, &origin, &rows)?;
        Ok(IndexedRows {
            origin,
            rows,
            index,
            spent: 0,
        })
    }

    /// These rows for a zone of this origin; or, where two of them have one identity, the rows again.
    pub(crate) fn of_distinct(
        alloc: Global,
        origin: Name,
        rows: RowList,
    ) -> Result<Result<Self, RowList>, AllocError>
        requires { All IsStored rows.rows }
        ensures { IfOk result (IsIndexing origin (map plain_row rows.rows)) }
    {
        let Some(index) = index_of_distinct(alloc, &origin, &rows)? else {
            return Ok(Err(rows));
        };
        Ok(Ok(IndexedRows {
            origin,
            rows,
            index,
            spent: 0,
        }))
    }

    /// The rows, copied. It takes the time of a whole transfer of these rows.
    pub(crate) fn to_rows(&self, alloc: Global) -> Result<Rows, AllocError>
        ensures { IfOk result (λ rows. rows ≡ self.now.rows) }
    {
        copied(alloc, &self.rows)
    }

    /// The same rows; made anew, and numbered from 0 on, where much of what stands for them is out of use or the next number is not
    /// below this one. That takes the time of a whole transfer of these rows.
    pub(crate) fn compacted(self, alloc: Global, last: u32) -> Result<Self, AllocError>
        ensures { IfOk result (λ rows. rows ≡ self) }
    {
        if self.rows.next() < last && !self.rows.is_thin() && !self.index.is_thin() {
            return Ok(self);
        }
        let rows = self.to_rows(alloc)?;
        let origin = copied_name(&self.origin)?;
        let anew = IndexedRows::of(alloc, origin, rows.into_list())?;
        Ok(anew)
    }

    /// How much work the edits since the version was shared have been: for each a number for itself, and one for each row that stood
    /// at its place, in units of which a whole transfer takes about 8 a row.
    pub(crate) fn spent(&self) -> usize {
        self.spent
    }

    // The same with an edit at this place.
    fn spent_with(&self, place: &Place) -> usize {
        let beside = match self.index.get(place) {
            None => 0,
            Some(entry) => entry.numbers.len(),
        };
        self.spent
            .saturating_add(EDIT)
            .saturating_add(beside.saturating_mul(BESIDE))
    }

    /// The same once more.
    pub(crate) fn share(&self) -> Result<Self, AllocError>
        ensures { IfOk result (λ rows. rows ≡ self.now) }
    {
        let origin = copied_name(&self.origin)?;
        let rows = self.rows.share()?;
        let index = self.index.share()?;
        Ok(IndexedRows {
            origin,
            rows,
            index,
            spent: 0,
        })
    }

    /// How many rows. Its clauses also say that they are rows, and that no two have one identity.
    pub(crate) fn len(&self) -> usize
        ensures len { result ≡ length self.now.rows }
        ensures are_rows { All IsRow self.now.rows }
        ensures distinct { AreDistinct self.now.rows }
    {
        self.rows.len()
    }

    /// The rows with one more at their end, in place of this version, and true; or, where one of its identity is among them, as
    /// they are, and false.
    pub(crate) fn with(self, alloc: Global, row: &Row) -> Result<(Self, bool), AllocError>
        ensures { IfOk result (λ with. with ≡ (if has_row self.rows row.now then (self, false)
            else (record self { rows = self.rows ++ row.now ∷ [] }, true))) }
    {
        let place = place_of(alloc, &self.origin, row)?;
        self.with_at(alloc, &place, row)
    }

    // The same, where the row stands at this place.
    fn with_at(self, alloc: Global, place: &Place, row: &Row) -> Result<(Self, bool), AllocError>
        requires { place.now ≡ row_place self.origin row.now }
        ensures { IfOk result (λ with. with ≡ (if has_row self.rows row.now then (self, false)
            else (record self { rows = self.rows ++ row.now ∷ [] }, true))) }
    {
        names_of_equal_octets_are_equal();
        case_does_not_matter();
        rows_of_one_identity_differ_in_the_ttl_alone();
        // called for their clauses
        let _owner = row.owner();
        let _count = self.rows.len();
        self.index.in_order();
        if number_in(alloc, &self.rows, &self.index, place, row)?.is_some() {
            return Ok((self, false));
        }
        let spent = self.spent_with(place);
        let IndexedRows {
            origin,
            rows,
            index,
            spent: _,
        } = self;
        let Parts { rows, index } = added(alloc, Parts { rows, index }, place, row)?;
        let new = IndexedRows {
            origin,
            rows,
            index,
            spent,
        };
        Ok((new, true))
    }

    /// The rows without that of the row's identity, in place of this version, and true; or, where there is none, as they are, and
    /// false.
    pub(crate) fn without(self, alloc: Global, row: &Row) -> Result<(Self, bool), AllocError>
        ensures { IfOk result (λ without. without ≡ (if has_row self.rows row.now
            then (record self { rows = without_row self.rows row.now }, true) else (self, false))) }
    {
        let place = place_of(alloc, &self.origin, row)?;
        self.without_at(alloc, &place, row)
    }

    // The same, where the row stands at this place.
    fn without_at(self, alloc: Global, place: &Place, row: &Row) -> Result<(Self, bool), AllocError>
        requires { place.now ≡ row_place self.origin row.now }
        ensures { IfOk result (λ without. without ≡ (if has_row self.rows row.now
            then (record self { rows = without_row self.rows row.now }, true) else (self, false))) }
    {
        names_of_equal_octets_are_equal();
        case_does_not_matter();
        rows_of_one_identity_differ_in_the_ttl_alone();
        // called for their clauses
        let _owner = row.owner();
        let _count = self.rows.len();
        self.index.in_order();
        let Some(number) = number_in(alloc, &self.rows, &self.index, place, row)? else {
            return Ok((self, false));
        };
        let spent = self.spent_with(place);
        let IndexedRows {
            origin,
            rows,
            index,
            spent: _,
        } = self;
        let Parts { rows, index } = removed(alloc, Parts { rows, index }, place, number)?;
        let new = IndexedRows {
            origin,
            rows,
            index,
            spent,
        };
        Ok((new, true))
    }
}

/// The name, copied.
pub(crate) fn copied_name(name: &Name) -> Result<Name, AllocError>
    ensures { IfOk result (λ other. other ≡ name.now) }
{
    name.clone()
}

/// The rows of the list, copied.
pub(crate) fn copied(alloc: Global, list: &RowList) -> Result<Rows, AllocError>
    requires { All IsStored list.now.rows }
    ensures { IfOk result (λ rows. rows ≡ map plain_row list.now.rows) }
{
    let mut rows = Rows::new(alloc);
    for place in 0..list.len() {
        rows.push_ref(&RowRef::new(list.nth(place)))?;
    }
    Ok(rows)
}
