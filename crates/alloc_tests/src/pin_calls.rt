//! A transfer that is published while a version before it is held.
//!
//! The lines say what the first pin answers, what came of the transfer, what a fresh pin answers, and what the first one answers then.
//! Where the transfer got no memory it is published again, and a last pin answers. A pin that gets no memory, which a line says, is
//! tried again.

use crate::publish_calls::publish;
use crate::samples::{show_policy, steps};
use crate::sheet::Sheet;
use crate::try_error::TryError;
use policy_publish::{PolicyReader, Publisher, StoreName};
use policy_snapshot::Snapshot;
use std::alloc::Global;
use std::sync::{Arc, Wait};

// A version; where there is no memory for it, a line says so, and it is asked for again.
fn pinned<N: StoreName>(
    sheet: &mut Sheet,
    reader: &mut PolicyReader<N>,
) -> Result<Arc<Snapshot, Global>, TryError> {
    match reader.pin() {
        Ok(version) => Ok(version),
        Err(_) => {
            sheet.say("pin out of memory");
            sheet.settle(Ok(()))?;
            Ok(reader.pin()?)
        }
    }
}

// What a version answers, in a line of this name. Where there is no memory to show it, it is shown again.
fn answer(
    alloc: Global,
    sheet: &mut Sheet,
    label: &str,
    version: &Snapshot,
) -> Result<(), TryError> {
    sheet.say(label);
    if show_policy(alloc, sheet, version).is_err() {
        sheet.line.clear();
        sheet.say(label);
        show_policy(alloc, sheet, version)?;
    }
    sheet.settle(Ok(()))
}

// What a fresh pin answers.
fn answer_now<N: StoreName>(
    alloc: Global,
    sheet: &mut Sheet,
    label: &str,
    reader: &mut PolicyReader<N>,
) -> Result<(), TryError> {
    let version = pinned(sheet, reader)?;
    answer(alloc, sheet, label, &version)
}

// Publishes the steps, and says in a line of this name what came of it: whether there was memory.
fn step<N: StoreName, R: Wait>(
    rt: &R,
    alloc: Global,
    sheet: &mut Sheet,
    label: &str,
    publisher: &mut Publisher<N>,
) -> Result<bool, TryError> {
    let transfer = steps(alloc)?;
    sheet.say(label);
    let is_published = match publish(rt, sheet, publisher, Ok(transfer)) {
        Ok(()) => true,
        Err(TryError::OutOfMemory) => {
            sheet.say("out of memory");
            false
        }
        Err(error) => return Err(error),
    };
    sheet.settle(Ok(()))?;
    Ok(is_published)
}

// The transfer under the first pin, and fresh ones.
fn under_first<N: StoreName, R: Wait>(
    rt: &R,
    alloc: Global,
    sheet: &mut Sheet,
    publisher: &mut Publisher<N>,
    reader: &mut PolicyReader<N>,
    first: &Snapshot,
) -> Result<(), TryError> {
    answer(alloc, sheet, "first ", first)?;
    let is_published = step(rt, alloc, sheet, "publish ", publisher)?;
    answer_now(alloc, sheet, "fresh ", reader)?;
    answer(alloc, sheet, "kept ", first)?;
    if !is_published {
        let _again = step(rt, alloc, sheet, "again ", publisher)?;
    }
    answer_now(alloc, sheet, "last ", reader)?;
    answer(alloc, sheet, "kept ", first)
}

/// Publishes steps while the version before them is held, of a zone of the serial 1.
pub fn under_pins<N: StoreName, R: Wait>(
    rt: &R,
    alloc: Global,
    sheet: &mut Sheet,
    publisher: &mut Publisher<N>,
    reader: &mut PolicyReader<N>,
) -> Result<(), TryError> {
    let first = pinned(sheet, reader)?;
    under_first(rt, alloc, sheet, publisher, reader, &first)
}
