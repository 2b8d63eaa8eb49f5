//! The rules of a plain list of rows, worked out from the list alone.

ghost use Rattle.std.specs.Prelude.{◌<◌, length};

use crate::alike::{has_trigger, is_same_trigger};
use crate::tried::after;
use action_codec::{Action, action_of, is_live_type};
use dns_name::Name;
use dns_record::Row;
use std::alloc::{AllocError, Global};
use trigger_codec::{Trigger, TriggerError, trigger_of};
use zone_rows::{Content, PlainZone, Rows, Steps, Transfer};

/// A row that makes a rule, and the trigger that its owner names.
#[derive(Drop)]
pub struct LiveRow {
    trigger: Trigger,
    row: Row,
}

// The trigger that an owner names; `None` where it names none.
fn named_by(alloc: Global, owner: &Name, origin: &Name) -> Result<Option<Trigger>, AllocError> {
    match trigger_of(alloc, owner, origin) {
        Ok(trigger) => Ok(Some(trigger)),
        Err(TriggerError::Inert(_)) => Ok(None),
        Err(TriggerError::OutOfMemory) => Err(AllocError),
    }
}

// The row where it makes a rule.
fn live_row(alloc: Global, row: Row, origin: &Name) -> Result<Option<LiveRow>, AllocError> {
    if !is_live_type(row.rtype()) {
        return Ok(None);
    }
    match named_by(alloc, row.owner(), origin)? {
        Some(trigger) => Ok(Some(LiveRow { trigger, row })),
        None => Ok(None),
    }
}

fn push_live(
    alloc: Global,
    live: &mut Vec<LiveRow>,
    rows: &Rows,
    origin: &Name,
) -> Result<(), AllocError> {
    for place in 0..rows.len() {
        let row = rows.at(place).to_row(alloc)?;
        if let Some(one) = live_row(alloc, row, origin)? {
            live.push(one)?;
        }
    }
    Ok(())
}

fn live_among(alloc: Global, rows: &Rows, origin: &Name) -> Result<Vec<LiveRow>, AllocError> {
    let mut live = Vec::new(alloc);
    let done = push_live(alloc, &mut live, rows, origin);
    after(live, done)
}

/// The rows of a zone that make rules, in the order of its list.
pub fn live_rows(alloc: Global, zone: &PlainZone) -> Result<Vec<LiveRow>, AllocError> {
    match &zone.content {
        Some(Content { soa: _, rows }) => live_among(alloc, rows, &zone.origin),
        None => Ok(Vec::new(alloc)),
    }
}

/// What the rows of a trigger do that are among these; `None` where there are none, or they do nothing.
pub fn plain_action(
    alloc: Global,
    live: &[LiveRow],
    trigger: &Trigger,
) -> Result<Option<Action>, AllocError> {
    let mut rows = Vec::new(alloc);
    for one in live {
        if is_same_trigger(&one.trigger, trigger) {
            rows.push(&one.row)?;
        }
    }
    action_of(alloc, trigger, rows.as_slice())
}

/// Puts in the triggers that are not yet there.
pub fn put_new(triggers: &mut Vec<Trigger>, others: Vec<Trigger>) -> Result<(), AllocError> {
    for trigger in others {
        put(triggers, trigger)?;
    }
    Ok(())
}

// Puts in a trigger that isn't yet there.
fn put(triggers: &mut Vec<Trigger>, trigger: Trigger) -> Result<(), AllocError> {
    if !has_trigger(triggers.as_slice(), &trigger) {
        triggers.push(trigger)?;
    }
    Ok(())
}

// The trigger that the owner of the row at this place names, if it names one.
fn named_at(
    alloc: Global,
    rows: &Rows,
    place: usize,
    origin: &Name,
) -> Result<Option<Trigger>, AllocError>
    requires { place < length rows.now }
{
    let row = rows.at(place).to_row(alloc)?;
    named_by(alloc, row.owner(), origin)
}

// Puts in the triggers that the owners of these rows name, each once.
fn put_named(
    alloc: Global,
    rows: &Rows,
    origin: &Name,
    triggers: &mut Vec<Trigger>,
) -> Result<(), AllocError> {
    for place in 0..rows.len() {
        if let Some(trigger) = named_at(alloc, rows, place, origin)? {
            put(triggers, trigger)?;
        }
    }
    Ok(())
}

fn put_named_in_steps(
    alloc: Global,
    steps: &Steps,
    origin: &Name,
    triggers: &mut Vec<Trigger>,
) -> Result<(), AllocError> {
    for step in steps.as_slice() {
        put_named(alloc, &step.deleted, origin, triggers)?;
        put_named(alloc, &step.added, origin, triggers)?;
    }
    Ok(())
}

fn put_named_in(
    alloc: Global,
    transfer: &Transfer,
    origin: &Name,
    triggers: &mut Vec<Trigger>,
) -> Result<(), AllocError> {
    match transfer {
        Transfer::Steps(steps) => put_named_in_steps(alloc, steps, origin, triggers),
        Transfer::Whole { soa: _, rows } => put_named(alloc, rows, origin, triggers),
    }
}

/// The triggers that the owners of a transfer's rows name, each once.
pub fn named_in(
    alloc: Global,
    transfer: &Transfer,
    origin: &Name,
) -> Result<Vec<Trigger>, AllocError> {
    let mut triggers = Vec::new(alloc);
    let done = put_named_in(alloc, transfer, origin, &mut triggers);
    after(triggers, done)
}
