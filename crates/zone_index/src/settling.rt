//! What stands at a place once its rows are others.

ghost use Rattle.std.specs.Prelude.{◌≡◌, ◌++◌, [], All, map, IfOk, IfSome, if◌then◌else◌};
ghost use Rattle.packed_lists.specs.RowsSeen.{seen};
ghost use Rattle.packed_lists.specs.Stored.{row_of_number};
ghost use Rattle.zone_index.specs.Placed.{does_for, entry_for, is_root_row, one_does, place_action, put_at, rows_by, several_do, with_found};
ghost use Rattle.zone_rows.specs.Stored.{IsStored, plain_row};

use crate::does::Does;
use crate::place::Place;
use crate::trigger_index::TriggerIndex;
use action_codec::{Action, action_of};
use dns_record::{Row, rtype};
use packed_lists::{RowList, StoredRow};
use std::alloc::{AllocError, Global};
use zone_rows::RowRef;

// Puts the row of the number at the end, if there is one.
fn push_row(
    alloc: Global,
    rows: &RowList,
    number: u32,
    own: &mut Vec<Row>,
) -> Result<(), AllocError>
    requires { All IsStored rows.now.rows }
    ensures { IfOk result (λ _. own.new.items
        ≡ own.old.items ++ map plain_row (with_found (row_of_number number rows.now.rows) [])) }
{
    if let Some(row) = rows.get(number) {
        own.push(RowRef::new(row).to_row(alloc)?)?;
    }
    Ok(())
}

// The rows of the numbers.
fn own_rows(alloc: Global, rows: &RowList, numbers: &[u32]) -> Result<Vec<Row>, AllocError>
    requires { All IsStored rows.now.rows }
    ensures { IfOk result
        (λ own. own.items ≡ map plain_row (rows_by numbers.now rows.now.rows)) }
{
    let mut own = Vec::with_capacity(alloc, numbers.len())?;
    for number in numbers {
        push_row(alloc, rows, *number, &mut own)?;
    }
    Ok(own)
}

// The rows, lent.
fn lend_all<'a>(alloc: Global, rows: &'a Vec<Row>) -> Result<Vec<&'a Row>, AllocError>
    ensures { IfOk result (λ lent. map (λ row. row.now) lent.items ≡ rows.now.items) }
{
    let mut lent = Vec::with_capacity(alloc, rows.len())?;
    for row in rows {
        lent.push(row)?;
    }
    Ok(lent)
}

// What the rows of the place do.
fn action_at(alloc: Global, place: &Place, rows: &Vec<Row>) -> Result<Option<Action>, AllocError>
    ensures { IfOk result (λ action. action ≡ place_action place.now rows.now.items) }
{
    match place {
        Place::Rule(trigger) => {
            let lent = lend_all(alloc, rows)?;
            action_of(alloc, trigger, lent.as_slice())
        }
        Place::Other(_) => Ok(None),
    }
}

// What an index keeps of what rows do: one row is read where it stands, and several are kept as an answer.
fn kept_of(action: Option<Action>, is_one: bool) -> Does
    ensures { result ≡ (if is_one then one_does action else several_do action) }
{
    match action {
        None => Does::Nothing,
        Some(Action::NxDomain) => Does::NxDomain,
        Some(Action::NoData) => Does::NoData,
        Some(Action::PassThru) => Does::PassThru,
        Some(Action::Drop) => Does::Drop,
        Some(Action::TcpOnly) => Does::TcpOnly,
        Some(Action::Local(rows)) => { if is_one { Does::Row } else { Does::Rows(rows) } }
    }
}

// Whether the row is a CNAME to the root: alone, it says that the name does not exist.
fn is_root_cname(row: &StoredRow<'_>) -> bool
    ensures { result ≡ is_root_row (seen row.now) }
{
    row.rtype == rtype::CNAME && row.rdata == [0].as_slice()
}

// What the row of the one number does at the place, if it is a CNAME to the root. Most rules have such a row, so that for these
// nothing is allocated.
fn done_by_one(rows: &RowList, place: &Place, numbers: &[u32]) -> Option<Does>
    ensures { IfSome result
        (λ does. does ≡ does_for place.now (rows_by numbers.now rows.now.rows)) }
{
    let [number] = numbers else {
        return None;
    };
    match rows.get(*number) {
        Some(row) if is_root_cname(&row) => match place {
            Place::Rule(_) => Some(Does::NxDomain),
            Place::Other(_) => Some(Does::Nothing),
        },
        _ => None,
    }
}

/// What the rows of these numbers do at the place.
pub(crate) fn does_at(
    alloc: Global,
    rows: &RowList,
    place: &Place,
    numbers: &[u32],
) -> Result<Does, AllocError>
    requires { All IsStored rows.now.rows }
    ensures { IfOk result (λ does. does ≡ does_for place.now (rows_by numbers.now rows.now.rows)) }
{
    if let Some(does) = done_by_one(rows, place, numbers) {
        return Ok(does);
    }
    let own = own_rows(alloc, rows, numbers)?;
    let action = action_at(alloc, place, &own)?;
    Ok(kept_of(action, own.len() == 1))
}

/// The index, where the rows at the place are those of these numbers.
pub(crate) fn settle(
    alloc: Global,
    rows: &RowList,
    index: TriggerIndex,
    place: &Place,
    numbers: &[u32],
) -> Result<TriggerIndex, AllocError>
    requires stored { All IsStored rows.now.rows }
    requires numbers { numbers.now ≡ map (λ s. s.number) (rows_by numbers.now rows.now.rows) }
    ensures { IfOk result (λ new. new
        ≡ put_at index place.now (entry_for place.now (rows_by numbers.now rows.now.rows))) }
{
    if numbers.is_empty() {
        return index.take(place);
    }
    let does = does_at(alloc, rows, place, numbers)?;
    index.put(place, numbers, does)
}
