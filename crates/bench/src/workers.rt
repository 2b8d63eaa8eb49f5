//! `bench workers`: workers that answer in threads of their own over one store and one cache, while another thread publishes.
//!
//! Its words are three numbers: how many workers, 1 to 16, how many queries each answers, and how many milliseconds lie between two
//! publications. Standard input has a transfer of the zone `rpz.example`, its messages behind their lengths in two bytes and an
//! empty one at the end, and then the messages of clients, each behind its length; each worker takes them in turn, over and over, and
//! begins at another one. Behind them, after an empty one, may stand what the upstream gave, in messages of the ID 0: it is in the
//! cache before the workers start. What isn't there can't be had, since each question to the upstream fails.
//!
//! A second zone, without a rule, is published again and again, so that the version of the policy changes. It says on standard error
//! when the first zone is loaded and when all is answered, and writes how many replies there were, and how many messages got none or
//! SERVFAIL.

use crate::bench_error::BenchError;
use crate::caching::read_cache;
use crate::serving::{Input, serve};
use crate::stream::read_stream;
use crate::tried::{after, beside};
use crate::words::Plan;
use dns_name::{Name, Octets};
use edge_io::{Source, read_frame};
use networks::AllowList;
use policy_override::as_given;
use policy_publish::{Parts, start_store};
use std::alloc::Global;
use std::marker::Brand;
use std::random::RandomSource;
use std::sync::Wait;
use std::thread::Threads;
use std::time::Clock;

fn push_messages<S: Source>(
    alloc: Global,
    messages: &mut Vec<Octets>,
    source: &mut S,
) -> Result<(), BenchError> {
    for _turn in 0..u64::MAX {
        let Some(message) = read_frame(alloc, source)? else {
            break;
        };
        if message.len() == 0 {
            break;
        }
        messages.push(message)?;
    }
    Ok(())
}

// Messages up to an empty one, or to the end of the input.
fn read_messages<S: Source>(alloc: Global, source: &mut S) -> Result<Vec<Octets>, BenchError> {
    let mut messages = Vec::new(alloc);
    let done = push_messages(alloc, &mut messages, source);
    after(messages, done)
}

// The transfer, and the messages of clients.
fn read_input<S: Source>(alloc: Global, source: &mut S) -> Result<Input, BenchError> {
    let stream = read_stream(alloc, source)?;
    let (stream, messages) = beside(stream, read_messages(alloc, source))?;
    Ok(Input { stream, messages })
}

// A store of two zones with so many readers.
fn store(alloc: Global, plan: Plan) -> Result<Parts, BenchError> {
    if plan.workers == 0 || plan.workers > 16 {
        return Err(BenchError::Words);
    }
    let first = Name::from_text(alloc, b"rpz.example")?;
    let (first, second) = beside(first, Name::from_text(alloc, b"two.example"))?;
    let origins = vec![in alloc; first, second]?;
    Ok(start_store(
        as_given(alloc, origins)?,
        AllowList::everyone(alloc),
        plan.workers,
    ))
}

/// Answers the messages of the input by the plan.
pub fn run<
    R: Threads + Wait + Clock + RandomSource + Print + Eprint + Copy + Drop + Send + Sync + 'static,
    S: Source,
>(rt: R, alloc: Global, plan: Plan, source: &mut S) -> Result<(), BenchError> {
    let input = read_input(alloc, source)?;
    let cache = read_cache(&rt, alloc, source)?;
    let parts = store(alloc, plan)?;
    let counts = serve::<Brand, R>(rt, alloc, parts, &cache, input, plan)?;
    println!(rt; "replies {} others {}", counts.replies, counts.others)?;
    Ok(())
}
