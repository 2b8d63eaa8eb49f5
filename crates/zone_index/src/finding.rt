//! Rows by their identity.

ghost use Rattle.std.specs.Prelude.{◌≡◌, All, IfOk};
ghost use Rattle.dns_record.specs.Row.{identity};
ghost use Rattle.packed_lists.specs.Stored.{row_of_number};
ghost use Rattle.zone_index.specs.Places.{entry_at};
ghost use Rattle.zone_index.specs.Placed.{has_identity, number_among, numbers_of};
ghost use Rattle.zone_rows.specs.Stored.{IsStored};

use crate::place::Place;
use crate::trigger_index::TriggerIndex;
use dns_name::Octets;
use dns_record::Row;
use packed_lists::RowList;
use std::alloc::{AllocError, Global};
use zone_rows::RowRef;

/// The numbers of the rows at the place.
pub(crate) fn numbers_at(
    alloc: Global,
    index: &TriggerIndex,
    place: &Place,
) -> Result<Vec<u32>, AllocError>
    ensures { IfOk result (λ numbers. numbers.items ≡ numbers_of (entry_at index.now place.now)) }
{
    match index.get(place) {
        Some(entry) => entry.numbers.to_vec(alloc),
        None => Ok(Vec::new(alloc)),
    }
}

// Whether the row of the number has the identity. The buffer is only for speed.
fn has_it(rows: &RowList, number: u32, key: &[u8], buffer: &mut Octets) -> Result<bool, AllocError>
    requires { All IsStored rows.now.rows }
    ensures { IfOk result
        (λ has. has ≡ has_identity key.now (row_of_number number rows.now.rows)) }
{
    match rows.get(number) {
        None => Ok(false),
        Some(row) => {
            buffer.clear();
            RowRef::new(row).write_identity(buffer)?;
            Ok(buffer.as_slice() == key)
        }
    }
}

// The first of the numbers whose row has the identity.
fn find_number(
    alloc: Global,
    rows: &RowList,
    numbers: &[u32],
    key: &[u8],
) -> Result<Option<u32>, AllocError>
    requires { All IsStored rows.now.rows }
    ensures { IfOk result (λ found. found ≡ number_among key.now rows.now.rows numbers.now) }
{
    let mut buffer = Octets::new(alloc);
    for number in numbers {
        if has_it(rows, *number, key, &mut buffer)? {
            return Ok(Some(*number));
        }
    }
    Ok(None)
}

/// The number of the first row at the place that has the row's identity.
pub(crate) fn number_in(
    alloc: Global,
    rows: &RowList,
    index: &TriggerIndex,
    place: &Place,
    row: &Row,
) -> Result<Option<u32>, AllocError>
    requires { All IsStored rows.now.rows }
    ensures { let numbers = numbers_of (entry_at index.now place.now) in
        IfOk result (λ found. found ≡ number_among (identity row.now) rows.now.rows numbers) }
{
    let numbers = numbers_at(alloc, index, place)?;
    let key = row.identity(alloc)?;
    find_number(alloc, rows, &numbers, &key)
}
