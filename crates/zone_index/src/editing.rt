//! Rows that come and go, with what stands at their places.

ghost use Rattle.std.specs.Prelude.{◌≡◌, ◌++◌, [], ◌∷◌, All, map, IfOk};
ghost use Rattle.dns_name.specs.Labels.{name_octets};
ghost use Rattle.packed_lists.specs.Blocks.{with_row, without_row};
ghost use Rattle.zone_index.specs.Places.{entry_at};
ghost use Rattle.zone_index.specs.Placed.{entry_for, numbers_of, other_numbers, put_at, rows_by};
ghost use Rattle.zone_rows.specs.Stored.{IsStored};

use crate::finding::numbers_at;
use crate::place::Place;
use crate::settling::settle;
use crate::trigger_index::TriggerIndex;
use dns_record::Row;
use packed_lists::RowList;
use std::alloc::{AllocError, Global};

/// Rows, and what stands at each place of theirs.
#[derive(Drop)]
pub(crate) struct Parts {
    pub(crate) rows: RowList,
    pub(crate) index: TriggerIndex,
}

// Puts the row at the end, and gives its number.
fn push(rows: &mut RowList, row: &Row) -> Result<u32, AllocError>
    ensures number { IfOk result (λ number. number ≡ rows.old.next) }
    ensures rows { IfOk result (λ _. rows.new ≡ with_row rows.old (name_octets row.now.owner)
        row.now.rtype row.now.ttl row.now.rdata) }
    ensures stored { All IsStored rows.old.rows → IfOk result (λ _. All IsStored rows.new.rows) }
{
    let number = rows.push(row.owner().octets(), row.rtype(), row.ttl(), row.rdata())?;
    Ok(number)
}

/// With the row at the end, which stands at the place.
pub(crate) fn added(
    alloc: Global,
    parts: Parts,
    place: &Place,
    row: &Row,
) -> Result<Parts, AllocError>
    requires stored { All IsStored parts.rows.rows }
    requires numbers { let list = with_row parts.rows (name_octets row.now.owner)
        row.now.rtype row.now.ttl row.now.rdata in
        let numbers = numbers_of (entry_at parts.index place.now) ++ parts.rows.next ∷ [] in
        numbers ≡ map (λ s. s.number) (rows_by numbers list.rows) }
    ensures rows { IfOk result (λ new. new.rows ≡ with_row parts.rows (name_octets row.now.owner)
        row.now.rtype row.now.ttl row.now.rdata) }
    ensures index { IfOk result (λ new. let numbers =
        numbers_of (entry_at parts.index place.now) ++ parts.rows.next ∷ [] in
        new.index ≡ put_at parts.index place.now
        (entry_for place.now (rows_by numbers new.rows.rows))) }
{
    let mut numbers = numbers_at(alloc, &parts.index, place)?;
    numbers.reserve(1)?;
    let Parts { mut rows, index } = parts;
    let number = push(&mut rows, row)?;
    numbers.push_reserved(number);
    let index = settle(alloc, &rows, index, place, &numbers)?;
    Ok(Parts { rows, index })
}

// The numbers without one.
fn others(alloc: Global, numbers: &[u32], number: u32) -> Result<Vec<u32>, AllocError>
    ensures { IfOk result (λ others. others.items ≡ other_numbers number numbers.now) }
{
    let mut kept = Vec::with_capacity(alloc, numbers.len())?;
    for other in numbers {
        if *other != number {
            kept.push(*other)?;
        }
    }
    Ok(kept)
}

/// Without the row of the number, which stands at the place.
pub(crate) fn removed(
    alloc: Global,
    parts: Parts,
    place: &Place,
    number: u32,
) -> Result<Parts, AllocError>
    requires stored { All IsStored parts.rows.rows }
    requires numbers { let list = without_row number parts.rows in
        let numbers = other_numbers number (numbers_of (entry_at parts.index place.now)) in
        numbers ≡ map (λ s. s.number) (rows_by numbers list.rows) }
    ensures rows { IfOk result (λ new. new.rows ≡ without_row number parts.rows) }
    ensures index { IfOk result (λ new. let numbers =
        other_numbers number (numbers_of (entry_at parts.index place.now)) in
        new.index ≡ put_at parts.index place.now
        (entry_for place.now (rows_by numbers new.rows.rows))) }
{
    let before = numbers_at(alloc, &parts.index, place)?;
    let numbers = others(alloc, &before, number)?;
    let Parts { mut rows, index } = parts;
    rows.remove(number)?;
    let index = settle(alloc, &rows, index, place, &numbers)?;
    Ok(Parts { rows, index })
}
