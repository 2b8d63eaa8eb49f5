//! Runs with nothing outside but a script and its output.

use edge_io::{ListClock, ListIds, ListLink, ListSink, ListSource, Sink, Source, TaskSpawner};
use rpz_program::run::run;
use rpz_program::status::Status;
use rpz_workers::Report;
use server_io::{ListReplies, ListWires};
use std::alloc::{AllocError, Global};
use std::collections::VecDeque;
use std::hash::RandomState;
use std::io;
use std::random::RandomSource;
use std::sync::Wait;
use std::thread::Threads;
use std::time::Clock;

type NoWires<R> = ListWires<ListSource, ListSink, ListLink, ListReplies<ListSource, ListSink>, R>;

/// The one word `replay`.
pub fn replay_words(alloc: Global) -> Result<Vec<String>, AllocError> {
    let mut words = Vec::new(alloc);
    words.push(String::from_str(alloc, "replay")?)?;
    Ok(words)
}

/// Runs words over a script and an output, without a network.
pub fn run_alone<
    R: Threads + Wait + Clock + RandomSource + Copy + Drop + Send + Sync + 'static,
    S: Source,
    K: Sink,
>(rt: R, alloc: Global, words: &[String], script: &mut S, out: &mut K) -> io::Result<Status> {
    let hashers = RandomState::new(&rt)?;
    let mut wires: NoWires<R> = ListWires::new(
        rt,
        alloc,
        VecDeque::new(alloc),
        VecDeque::new(alloc),
        VecDeque::new(alloc),
        Vec::new(alloc),
        Vec::new(alloc),
    )?;
    let mut spawner: TaskSpawner<Report, R> = TaskSpawner::new(rt, alloc, true, Vec::new(alloc));
    let mut clock = ListClock::new(alloc, VecDeque::new(alloc));
    let mut ids = ListIds::new(alloc, VecDeque::new(alloc));
    Ok(run(
        &rt,
        alloc,
        words,
        script,
        out,
        &mut wires,
        &mut spawner,
        &mut clock,
        &mut ids,
        hashers,
    ))
}
