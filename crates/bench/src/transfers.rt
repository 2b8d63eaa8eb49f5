//! `bench transfers`: takes transfers as a server does, without its sockets.
//!
//! It reads transfers of the zone rpz.example from standard input, as the answers to requests of the ID 0: the whole zone, and then,
//! until the input ends, what is newer than the zone is by then. It publishes each, for one reader, and gives up the zone before. It
//! prints the serial of the zone, the number of its rows, and how many microseconds the transfer behind the first took that took
//! longest.

ghost use Rattle.std.specs.Prelude.{◌≡◌};

use crate::bench_error::BenchError;
use axfr_apply::{Taken, TransferError, TransferFault, Wanted};
use dns_name::Name;
use edge_io::Source;
use ixfr_apply::read_transfer;
use networks::AllowList;
use policy_override::as_given;
use policy_publish::{Parts, Publication, Publisher, StoreName, start_store};
use std::alloc::Global;
use std::marker::Brand;
use std::sync::Wait;
use std::time::{Clock, Duration, Instant};
use zone_rows::Transfer;

// What the transfers have come to.
#[derive(Clone, Copy)]
struct Done {
    last: Publication,
    // of a transfer behind the first
    longest: Duration,
}

/// What is asked for of a zone, which has this serial where something is loaded.
pub fn wanted(serial: Option<u32>) -> Wanted {
    match serial {
        None => Wanted::Whole { have: None },
        Some(have) => Wanted::Newer { have },
    }
}

// The next transfer. `None` where the input ends between messages, so that a transfer which is cut there isn't told from the end:
// the serial that is printed tells it.
fn next_transfer<N: StoreName, S: Source>(
    alloc: Global,
    source: &mut S,
    publisher: &Publisher<N>,
) -> Result<Option<Transfer>, BenchError> {
    if !publisher.has_zone(1) {
        return Err(BenchError::Empty);
    }
    match read_transfer(alloc, source, 0, publisher.origin(1), publisher.wanted(1)) {
        Ok(Taken::New(transfer)) => Ok(Some(transfer)),
        Ok(Taken::Current { .. }) => Err(BenchError::Current),
        Err(TransferError::Fault(TransferFault::EndedEarly)) => Ok(None),
        Err(error) => Err(BenchError::Transfer(error)),
    }
}

// Publishes a transfer, and gives up the zone before it.
fn publish<N: StoreName, R: Wait>(
    rt: &R,
    publisher: &mut Publisher<N>,
    transfer: Transfer,
) -> Result<Publication, BenchError> {
    if !publisher.has_zone(1) {
        return Err(BenchError::Empty);
    }
    let published = publisher.publish(rt, 1, transfer)?;
    let _held = publisher.give_up_old();
    Ok(published)
}

// Takes the next transfer, if there is one.
fn take_next<N: StoreName, R: Wait, S: Source>(
    rt: &R,
    alloc: Global,
    source: &mut S,
    publisher: &mut Publisher<N>,
) -> Result<Option<Publication>, BenchError> {
    match next_transfer(alloc, source, publisher)? {
        Some(transfer) => Ok(Some(publish(rt, publisher, transfer)?)),
        None => Ok(None),
    }
}

// With a transfer that took so long.
fn with_next(done: Option<Done>, last: Publication, took: Duration) -> Done {
    match done {
        None => Done {
            last,
            longest: Duration::ZERO,
        },
        Some(done) => Done {
            last,
            longest: done.longest.max(took),
        },
    }
}

// Takes all transfers of the source.
fn take_all<N: StoreName, R: Wait + Clock, S: Source>(
    rt: &R,
    alloc: Global,
    source: &mut S,
    publisher: &mut Publisher<N>,
) -> Result<Done, BenchError> {
    let mut done = None;
    for _turn in 0..u64::MAX {
        let start = Instant::now(rt)?;
        let Some(last) = take_next(rt, alloc, source, publisher)? else {
            break;
        };
        done = Some(with_next(done, last, start.elapsed(rt)?));
    }
    done.ok_or(BenchError::Empty)
}

// Takes all of them over a store of its own.
fn take_over<N: StoreName, R: Wait + Clock, S: Source>(
    rt: &R,
    alloc: Global,
    parts: Parts,
    source: &mut S,
) -> Result<Done, BenchError>
    requires { parts ≡ N.store }
{
    let (mut publisher, _readers) = parts.open::<N, R>(rt, alloc)?;
    let done = take_all(rt, alloc, source, &mut publisher);
    publisher.close(rt);
    done
}

// A store of the one zone, with one reader.
fn store(alloc: Global) -> Result<Parts, BenchError> {
    let origin = Name::from_text(alloc, b"rpz.example")?;
    let origins = vec![in alloc; origin]?;
    Ok(start_store(as_given(alloc, origins)?, AllowList::everyone(alloc), 1))
}

/// Takes the transfers of the input.
pub fn run<R: Wait + Clock + Print, S: Source>(
    rt: &R,
    alloc: Global,
    source: &mut S,
) -> Result<(), BenchError> {
    let parts = store(alloc)?;
    let done = take_over::<Brand, R, S>(rt, alloc, parts, source)?;
    println!(rt;
        "serial {} rows {} longest {}",
        done.last.serial,
        done.last.rows,
        done.longest.as_micros()
    )?;
    Ok(())
}
