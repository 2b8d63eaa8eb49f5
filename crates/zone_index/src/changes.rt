//! Which rules a transfer may change.

ghost use Rattle.std.specs.Prelude.{◌≡◌, ◌+◌, ◌≤◌, ◌||◌, ◌++◌, All as AllOf, length, map, nat_lt, option_copied, IfOk};
ghost use Rattle.std.specs.List.{AllByRecursion};
ghost use Rattle.dns_record.specs.Row.{IsRow};
ghost use Rattle.packed_lists.specs.RowsSeen.{seen};
ghost use Rattle.zone_index.specs.Changes.{ListsTriggers, HasStepRows, held_rows, live_triggers, place_triggers, step_rows, step_triggers};
ghost use Rattle.zone_index.specs.Indexed.{HasRows, content_of};
ghost use Rattle.zone_index.specs.Placed.{row_place};
ghost use Rattle.zone_rows.specs.Stored.{IsStored, plain_row};

use crate::indexed::IndexedRows;
use crate::loaded::Loaded;
use crate::place::Place;
use crate::row_place::stored_place;
use dns_name::Name;
use packed_lists::{RowList, StoredRow};
use std::alloc::{AllocError, Global};
use trigger_codec::Trigger;
use zone_rows::{Rows, Step};

/// The triggers whose rules a transfer may change.
#[derive(Debug, Drop)]
pub enum Changes {
    /// All of them: of the zone before, and of the zone behind the transfer.
    All,
    /// No others than these: the triggers of the rows that the transfer takes out or puts in, some of them more than once.
    Triggers(Vec<Trigger>),
}

// Puts the trigger of the row at the end, if the row is live.
fn push_trigger(
    alloc: Global,
    origin: &Name,
    row: StoredRow<'_>,
    triggers: &mut Vec<Trigger>,
) -> Result<(), AllocError>
    requires { IsStored (seen row) }
    ensures { IfOk result (λ _. triggers.new.items
        ≡ triggers.old.items ++ place_triggers (row_place origin.now (plain_row (seen row.entry)))) }
{
    let place = stored_place(alloc, origin, row)?;
    match place {
        Place::Rule(trigger) => Ok(triggers.push(trigger)?),
        Place::Other(_) => Ok(()),
    }
}

// Puts the triggers of the rows that are live at the end.
fn push_triggers(
    alloc: Global,
    origin: &Name,
    rows: &RowList,
    triggers: &mut Vec<Trigger>,
) -> Result<(), AllocError>
    requires { AllOf IsStored rows.now.rows }
    ensures { IfOk result (λ _. triggers.new.items
        ≡ triggers.old.items ++ live_triggers origin.now (map plain_row rows.now.rows)) }
{
    for at in 0..rows.len() {
        push_trigger(alloc, origin, rows.nth(at), triggers)?;
    }
    Ok(())
}

impl IndexedRows {
    // The triggers of its rows.
    fn triggers(&self, alloc: Global, origin: &Name) -> Result<Vec<Trigger>, AllocError>
        ensures { IfOk result (λ triggers. triggers.items ≡ live_triggers origin.now self.now.rows) }
    {
        let mut triggers = Vec::new(alloc);
        push_triggers(alloc, origin, &self.rows, &mut triggers)?;
        Ok(triggers)
    }
}

// The triggers of the rows of what is loaded.
fn held_triggers(
    alloc: Global,
    origin: &Name,
    loaded: Option<&Loaded>,
) -> Result<Vec<Trigger>, AllocError>
    ensures { IfOk result (λ triggers. triggers.items
        ≡ live_triggers origin.now (held_rows (content_of (option_copied loaded.entry)))) }
{
    match loaded {
        None => Ok(Vec::new(alloc)),
        Some(loaded) => loaded.rows.triggers(alloc, origin),
    }
}

/// How many rows are loaded. Its clauses also say that they are rows.
pub(crate) fn held_count(loaded: Option<&Loaded>) -> usize
    ensures count { result ≡ length (held_rows (content_of (option_copied loaded.entry))) }
    ensures rows { HasRows (content_of (option_copied loaded.entry)) }
{
    match loaded {
        None => 0,
        Some(loaded) => loaded.rows.len(),
    }
}

// How many rows. Its clauses also say that they are rows.
fn row_count(rows: &Rows) -> usize
    ensures count { result ≡ length rows.now }
    ensures rows { AllByRecursion IsRow rows.now }
{
    // called for its clauses
    let _list = rows.list();
    rows.len()
}

/// Which rules a whole transfer of these rows may change: all, where there are more rows than `most`, or there were. Its clauses also
/// say that they are rows.
pub(crate) fn changed_by_whole(
    alloc: Global,
    origin: &Name,
    loaded: Option<&Loaded>,
    rows: &Rows,
    most: usize,
) -> Result<Changes, AllocError>
    ensures changes { let held = held_rows (content_of (option_copied loaded.entry)) in
        IfOk result (ListsTriggers (nat_lt most (length rows.now) || nat_lt most (length held))
        (live_triggers origin.now held ++ live_triggers origin.now rows.now)) }
    ensures rows { AllByRecursion IsRow rows.now }
{
    if row_count(rows) > most || held_count(loaded) > most {
        return Ok(Changes::All);
    }
    let mut triggers = held_triggers(alloc, origin, loaded)?;
    push_triggers(alloc, origin, rows.list(), &mut triggers)?;
    Ok(Changes::Triggers(triggers))
}

// How many rows the step names. Its clauses also say that they are rows.
fn step_count(step: &Step) -> usize
    ensures count { result ≤ length step.now.deleted + length step.now.added }
    ensures rows { HasStepRows step.now }
{
    row_count(&step.deleted).saturating_add(row_count(&step.added))
}

// How many rows the steps name; as many as there may be, where they name more. Its clauses also say that they are rows.
fn named_count(steps: &[Step]) -> usize
    ensures count { result ≤ step_rows steps.now }
    ensures rows { AllByRecursion HasStepRows steps.now }
{
    let mut count: usize = 0;
    for step in steps {
        count = count.saturating_add(step_count(step));
    }
    count
}

// The triggers of the rows that the steps take out or put in.
fn named_triggers(alloc: Global, origin: &Name, steps: &[Step]) -> Result<Vec<Trigger>, AllocError>
    ensures { IfOk result (λ triggers. triggers.items ≡ step_triggers origin.now steps.now) }
{
    let mut triggers = Vec::new(alloc);
    for step in steps {
        push_triggers(alloc, origin, step.deleted.list(), &mut triggers)?;
        push_triggers(alloc, origin, step.added.list(), &mut triggers)?;
    }
    Ok(triggers)
}

/// Which rules steps may change: all, where they name more rows than `most`. Its clauses also say that what they name are rows.
pub(crate) fn changed_by_steps(
    alloc: Global,
    origin: &Name,
    steps: &[Step],
    most: usize,
) -> Result<Changes, AllocError>
    ensures changes { IfOk result
        (ListsTriggers (nat_lt most (step_rows steps.now)) (step_triggers origin.now steps.now)) }
    ensures rows { AllByRecursion HasStepRows steps.now }
{
    if named_count(steps) > most {
        return Ok(Changes::All);
    }
    Ok(Changes::Triggers(named_triggers(alloc, origin, steps)?))
}
