//! The words of the command line.

use crate::bench_error::BenchError;
use crate::tried::after;
use dns_name::Name;
use policy_override::{ZoneSets, as_given};
use std::alloc::Global;

/// How many workers answer how many queries each, and how many milliseconds lie between two publications.
#[derive(Clone, Copy)]
pub struct Plan {
    pub workers: usize,
    pub queries: u64,
    pub pause: u64,
}

/// With which key of the hash of names a message is written how many times.
#[derive(Clone, Copy)]
pub struct Writes {
    pub key: u64,
    pub times: u64,
}

/// What is measured: transfers, queries over these zones, workers by a plan, or the writing of a message; or what is compared: edits.
#[derive(Drop)]
pub enum Bench {
    Transfers,
    Edits,
    Queries(ZoneSets),
    Workers(Plan),
    Messages(Writes),
}

fn push_origins(
    alloc: Global,
    origins: &mut Vec<Name>,
    words: &[String],
) -> Result<(), BenchError> {
    for word in words {
        let origin = Name::from_text(alloc, word.as_bytes())?;
        origins.push(origin)?;
    }
    Ok(())
}

// The zones of the origins that the words name.
fn read_zones(alloc: Global, words: &[String]) -> Result<ZoneSets, BenchError> {
    let mut origins = Vec::new(alloc);
    let done = push_origins(alloc, &mut origins, words);
    let origins = after(origins, done)?;
    Ok(as_given(alloc, origins)?)
}

// The number that a word is.
fn number(words: &[String], place: usize) -> Result<u64, BenchError> {
    match words.get(place) {
        Some(word) => word.parse::<u64>().map_err(|_| BenchError::Words),
        None => Err(BenchError::Words),
    }
}

// The plan that the words are.
fn read_plan(words: &[String]) -> Result<Plan, BenchError> {
    let workers = number(words, 0)?;
    if workers > 16 {
        return Err(BenchError::Words);
    }
    Ok(Plan {
        workers: workers as usize,
        queries: number(words, 1)?,
        pause: number(words, 2)?,
    })
}

// How a message is written.
fn read_writes(words: &[String]) -> Result<Writes, BenchError> {
    Ok(Writes {
        key: number(words, 0)?,
        times: number(words, 1)?,
    })
}

/// The bench that the first word names, with what the others say. `Words` comes where there is none of this name, where those of
/// `workers` are no three numbers or those of `messages` no two, and for more than 16 workers.
pub fn read_words(alloc: Global, words: &[String]) -> Result<Bench, BenchError> {
    let Some((name, others)) = words.split_first() else {
        return Err(BenchError::Words);
    };
    match name.as_str() {
        "transfers" => Ok(Bench::Transfers),
        "edits" => Ok(Bench::Edits),
        "queries" => Ok(Bench::Queries(read_zones(alloc, others)?)),
        "workers" => Ok(Bench::Workers(read_plan(others)?)),
        "messages" => Ok(Bench::Messages(read_writes(others)?)),
        _ => Err(BenchError::Words),
    }
}
