//! Rows of a zone after the steps of a transfer, by edits.

ghost use Rattle.std.specs.Prelude.{◌≡◌, ◌+◌, nat_lt, IfErr, IfOk};
ghost use Rattle.zone_index.specs.declared.edit_error.EditError.TheVariants.{OutOfMemory};
ghost use Rattle.zone_rows.specs.Drafts.{one_added, one_deleted};
ghost use Rattle.zone_rows.specs.Steps.{rows_after_step, with_added, without_deleted};
ghost use Rattle.zone_index.specs.Indexed.{GivesRows};

use crate::edit_error::EditError;
use crate::indexed::IndexedRows;
use std::alloc::Global;
use zone_rows::{ApplyFault, RowRef, Rows, Step};

// The number of a step or a row, of which so many came before. A number of 2^32 or more doesn't fit a fault: so many rows
// take more than 100 GB, and the answer is that memory ran out.
fn number(before: usize) -> Result<u32, EditError>
    ensures number { IfOk result (λ number. number ≡ before + 1) }
    ensures err { IfErr result (λ error. error ≡ OutOfMemory) }
{
    match u32::try_from(before) {
        Ok(before) if before < u32::MAX => Ok(before + 1),
        _ => Err(EditError::OutOfMemory),
    }
}

// The rows without one. Steps and rows are counted from 0 on.
fn delete(
    alloc: Global,
    rows: IndexedRows,
    limit: usize,
    step: usize,
    place: usize,
    row: &RowRef<'_>,
) -> Result<IndexedRows, EditError>
    ensures { GivesRows result rows.origin (one_deleted (step + 1) (place + 1) rows.rows row.now) }
{
    if rows.spent() > limit {
        return Err(EditError::TooMuchWork);
    }
    let row = row.to_row(alloc)?;
    let (rows, was_there) = rows.without(alloc, &row)?;
    if was_there {
        Ok(rows)
    } else {
        Err(EditError::Fault(ApplyFault::DeleteAbsent {
            step: number(step)?,
            row: number(place)?,
        }))
    }
}

// Whether there are fewer rows than the bound with one more.
fn has_room(rows: usize, bound: u32) -> bool
    ensures { result ≡ nat_lt (rows + 1) bound }
{
    rows < bound.saturating_sub(1) as usize
}

// The rows with one more at their end. Steps and rows are counted from 0 on.
fn add(
    alloc: Global,
    rows: IndexedRows,
    bound: u32,
    limit: usize,
    step: usize,
    place: usize,
    row: &RowRef<'_>,
) -> Result<IndexedRows, EditError>
    ensures { GivesRows result rows.origin
        (one_added bound (step + 1) (place + 1) rows.rows row.now) }
{
    if rows.spent() > limit {
        return Err(EditError::TooMuchWork);
    }
    let row = row.to_row(alloc)?;
    let has_room = has_room(rows.len(), bound);
    let (rows, is_new) = rows.with(alloc, &row)?;
    if !is_new {
        return Err(EditError::Fault(ApplyFault::AddPresent {
            step: number(step)?,
            row: number(place)?,
        }));
    }
    if !has_room {
        return Err(EditError::Fault(ApplyFault::TooManyRows { at: bound }));
    }
    Ok(rows)
}

// The rows without these, taken out one after another.
fn delete_all(
    alloc: Global,
    rows: IndexedRows,
    limit: usize,
    step: usize,
    deleted: &Rows,
) -> Result<IndexedRows, EditError>
    ensures { GivesRows result rows.origin (without_deleted (step + 1) 1 rows.rows deleted.now) }
{
    let mut rows = rows;
    for place in 0..deleted.len() {
        rows = delete(alloc, rows, limit, step, place, &deleted.at(place))?;
    }
    Ok(rows)
}

// The rows with these at their end, put in one after another.
fn add_all(
    alloc: Global,
    rows: IndexedRows,
    bound: u32,
    limit: usize,
    step: usize,
    added: &Rows,
) -> Result<IndexedRows, EditError>
    ensures { GivesRows result rows.origin (with_added bound (step + 1) 1 rows.rows added.now) }
{
    let mut rows = rows;
    for place in 0..added.len() {
        rows = add(alloc, rows, bound, limit, step, place, &added.at(place))?;
    }
    Ok(rows)
}

/// The rows after a step, of which this many came before, with fewer rows than the bound; unless that is more work than the limit.
pub(crate) fn after_step(
    alloc: Global,
    rows: IndexedRows,
    bound: u32,
    limit: usize,
    before: usize,
    step: &Step,
) -> Result<IndexedRows, EditError>
    ensures { GivesRows result rows.origin (rows_after_step bound (before + 1) rows.rows step.now) }
{
    let rows = delete_all(alloc, rows, limit, before, &step.deleted)?;
    add_all(alloc, rows, bound, limit, before, &step.added)
}
