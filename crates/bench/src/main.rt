//! `bench`: the program that the benches of bench/ run. Its first word names a bench, and the module of that name says what its
//! other words are, and what it reads and writes. It promises nothing.
#![tactic(auto)]

mod alike;
mod bench_error;
mod caching;
mod comparing;
mod difference;
mod edits;
mod messages;
mod plain_rules;
mod queries;
mod serving;
mod sides;
mod stream;
mod transfers;
mod tried;
mod words;
mod workers;

use crate::words::{Bench, read_words};
use edge_io::ReaderSource;
use std::io::BufReader;
use std::process::ExitCode;
use std::{env, io};

fn main(rt: HostRuntime) -> io::Result<ExitCode> {
    let alloc = rt.alloc();
    let words: Vec<String> = env::args(&rt)?.skip(1).collect(alloc)?;
    let mut source = ReaderSource::new(BufReader::new(alloc, rt.reader())?);
    let done = match read_words(alloc, &words) {
        Ok(Bench::Transfers) => transfers::run(&rt, alloc, &mut source),
        Ok(Bench::Edits) => edits::run(&rt, alloc, &mut source),
        Ok(Bench::Queries(zones)) => queries::run(&rt, alloc, &zones, &mut source),
        Ok(Bench::Workers(plan)) => workers::run(rt, alloc, plan, &mut source),
        Ok(Bench::Messages(writes)) => messages::run(&rt, alloc, writes, &mut source),
        Err(refusal) => Err(refusal),
    };
    match done {
        Ok(()) => Ok(ExitCode::SUCCESS),
        Err(refusal) => {
            eprintln!(rt; "{refusal:?}")?;
            Ok(ExitCode::from(1))
        }
    }
}
