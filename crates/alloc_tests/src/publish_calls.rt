//! Calls that publish versions of a policy and take them, and the store behind them.

ghost use Rattle.std.specs.Prelude.{◌≡◌};

use crate::pin_calls::under_pins;
use crate::samples::{DENIED, origin, show_policy, steps, whole};
use crate::sheet::Sheet;
use crate::try_error::TryError;
use crate::worker_calls::work_twice;
use networks::AllowList;
use policy_override::as_given;
use policy_publish::{Parts, PolicyReader, Publisher, StoreName, start_store};
use std::alloc::Global;
use std::marker::Brand;
use std::sync::Wait;
use zone_rows::{ApplyError, Transfer};

/// The names of these calls.
pub const NAMES: &str = "policy_publish::Parts::open\n\
    policy_publish::Publisher::publish::whole\n\
    policy_publish::Publisher::publish::steps\n\
    policy_publish::PolicyReader::pin\n\
    policy_publish::PolicyReader::pin::told\n\
    transfer_under_pins\n";

/// What is done over a store: a call twice, a transfer under pins, or what a worker does. A query is one that a rule denies, or one that
/// the upstream answers.
#[derive(Clone, Copy)]
pub enum Deed {
    Open,
    PublishWhole,
    PublishSteps,
    Pin,
    PinTold,
    UnderPins,
    /// Whose reply is only looked at.
    Answer { is_denied: bool },
    /// Whose reply is sent.
    Send { is_denied: bool },
    /// A connection, with queries of its own.
    Serve,
}

fn deed_of(call: &str) -> Deed {
    match call {
        "policy_publish::Parts::open" => Deed::Open,
        "policy_publish::Publisher::publish::whole" => Deed::PublishWhole,
        "policy_publish::Publisher::publish::steps" => Deed::PublishSteps,
        "policy_publish::PolicyReader::pin" => Deed::Pin,
        "policy_publish::PolicyReader::pin::told" => Deed::PinTold,
        "transfer_under_pins" => Deed::UnderPins,
        "rpz_workers::Worker::answer::rule" => Deed::Answer { is_denied: true },
        "rpz_workers::Worker::answer::upstream" => Deed::Answer { is_denied: false },
        "rpz_workers::Worker::serve_stream" => Deed::Serve,
        "answers_under_refusal::rule" => Deed::Send { is_denied: true },
        _ => Deed::Send { is_denied: false },
    }
}

/// Publishes a transfer of the zone, if it is made, and shows what the zone is then, or the fault for which it is refused.
pub fn publish<N: StoreName, R: Wait>(
    rt: &R,
    sheet: &mut Sheet,
    publisher: &mut Publisher<N>,
    transfer: Result<Transfer, TryError>,
) -> Result<(), TryError> {
    let transfer = transfer?;
    if !publisher.has_zone(1) {
        return Err(TryError::Sample);
    }
    match publisher.publish(rt, 1, transfer) {
        Ok(published) => sheet.show(&published),
        Err(ApplyError::Fault(fault)) => sheet.show(&fault),
        Err(ApplyError::OutOfMemory) => return Err(TryError::OutOfMemory),
    }
    Ok(())
}

// Publishes the zone of one row at the serial 1.
fn load<N: StoreName, R: Wait>(
    rt: &R,
    alloc: Global,
    publisher: &mut Publisher<N>,
) -> Result<(), TryError> {
    if !publisher.has_zone(1) {
        return Err(TryError::Sample);
    }
    let transfer = whole(alloc, 1, &[DENIED])?;
    let _published = publisher.publish(rt, 1, transfer)?;
    Ok(())
}

fn pin<N: StoreName>(
    alloc: Global,
    sheet: &mut Sheet,
    reader: &mut PolicyReader<N>,
) -> Result<(), TryError> {
    let version = reader.pin()?;
    show_policy(alloc, sheet, &version)
}

fn once<N: StoreName, R: Wait>(
    rt: &R,
    alloc: Global,
    sheet: &mut Sheet,
    deed: Deed,
    publisher: &mut Publisher<N>,
    reader: &mut PolicyReader<N>,
) -> Result<(), TryError> {
    match deed {
        Deed::PublishWhole => publish(rt, sheet, publisher, whole(alloc, 1, &[DENIED])),
        Deed::PublishSteps => publish(rt, sheet, publisher, steps(alloc)),
        Deed::PinTold => {
            reader.learn(publisher.tell());
            pin(alloc, sheet, reader)
        }
        Deed::Pin => pin(alloc, sheet, reader),
        _ => Err(TryError::Words),
    }
}

fn of_reader<N: StoreName, R: Wait>(
    rt: &R,
    alloc: Global,
    sheet: &mut Sheet,
    deed: Deed,
    publisher: &mut Publisher<N>,
    reader: &mut PolicyReader<N>,
) -> Result<(), TryError> {
    if !matches!(deed, Deed::PublishWhole) {
        load(rt, alloc, publisher)?;
    }
    if matches!(deed, Deed::UnderPins) {
        return under_pins(rt, alloc, sheet, publisher, reader);
    }
    let first = once(rt, alloc, sheet, deed, publisher, reader);
    sheet.settle(first)?;
    let second = once(rt, alloc, sheet, deed, publisher, reader);
    sheet.settle(second)?;
    sheet.changes()
}

fn of_store<N: StoreName, R: Wait>(
    rt: &R,
    alloc: Global,
    sheet: &mut Sheet,
    deed: Deed,
    publisher: &mut Publisher<N>,
    readers: &mut Vec<PolicyReader<N>>,
) -> Result<(), TryError> {
    match deed {
        Deed::Open => {
            sheet.show(&publisher.zone_count());
            sheet.show(&readers.len());
            Ok(())
        }
        Deed::Answer { .. } | Deed::Send { .. } | Deed::Serve => {
            load(rt, alloc, publisher)?;
            match readers.pop() {
                Some(reader) => work_twice(rt, alloc, sheet, deed, reader),
                None => Err(TryError::Sample),
            }
        }
        _ => match readers.first_mut() {
            Some(reader) => of_reader(rt, alloc, sheet, deed, publisher, reader),
            None => Err(TryError::Sample),
        },
    }
}

fn over_store<N: StoreName, R: Wait>(
    rt: &R,
    alloc: Global,
    sheet: &mut Sheet,
    deed: Deed,
    parts: Parts,
) -> Result<(), TryError>
    requires { parts ≡ N.store }
{
    let (mut publisher, mut readers) = parts.open::<N, R>(rt, alloc)?;
    let done = of_store(rt, alloc, sheet, deed, &mut publisher, &mut readers);
    drop(readers);
    publisher.close(rt);
    done
}

// Does it over a store of the one zone, with one reader.
fn with_store<R: Wait>(
    rt: &R,
    alloc: Global,
    sheet: &mut Sheet,
    deed: Deed,
) -> Result<(), TryError> {
    let origin = origin(alloc)?;
    let origins = vec![in alloc; origin]?;
    let parts = start_store(as_given(alloc, origins)?, AllowList::everyone(alloc), 1);
    over_store::<Brand, R>(rt, alloc, sheet, deed, parts)
}

/// Does the call of this name twice, of a worker also.
pub fn twice<R: Wait>(
    rt: &R,
    alloc: Global,
    sheet: &mut Sheet,
    call: &str,
) -> Result<(), TryError> {
    let deed = deed_of(call);
    if !matches!(deed, Deed::Open) {
        return with_store(rt, alloc, sheet, deed);
    }
    let first = with_store(rt, alloc, sheet, deed);
    sheet.settle(first)?;
    let second = with_store(rt, alloc, sheet, deed);
    sheet.settle(second)
}
