//! The calls by their names.

use crate::sheet::Sheet;
use crate::try_error::TryError;
use crate::{
    packed_calls, prefix_calls, publish_calls, serve_calls, shared_calls, trie_calls, worker_calls,
};
use std::alloc::Global;
use std::random::RandomSource;
use std::sync::Wait;
use std::thread::Threads;
use std::time::Clock;

// The names of all calls.
const NAMES: [&str; 7] = [
    shared_calls::NAMES,
    packed_calls::NAMES,
    trie_calls::NAMES,
    prefix_calls::NAMES,
    publish_calls::NAMES,
    worker_calls::NAMES,
    serve_calls::NAMES,
];

// Whether the call is one of these names.
fn is_listed(names: &str, call: &str) -> bool {
    names.split('\n').any(|name| name == call)
}

fn twice<R: Threads + Wait + Clock + RandomSource + Copy + Drop + Send + Sync + 'static>(
    rt: &R,
    alloc: Global,
    sheet: &mut Sheet,
    call: &str,
) -> Result<(), TryError> {
    if is_listed(shared_calls::NAMES, call) {
        shared_calls::twice(alloc, sheet, call)
    } else if is_listed(packed_calls::NAMES, call) {
        packed_calls::twice(alloc, sheet, call)
    } else if is_listed(trie_calls::NAMES, call) {
        trie_calls::twice(alloc, sheet, call)
    } else if is_listed(prefix_calls::NAMES, call) {
        prefix_calls::twice(alloc, sheet, call)
    } else if is_listed(serve_calls::NAMES, call) {
        serve_calls::twice(rt, alloc, sheet)
    } else if is_listed(publish_calls::NAMES, call) || is_listed(worker_calls::NAMES, call) {
        publish_calls::twice(rt, alloc, sheet, call)
    } else {
        Err(TryError::Words)
    }
}

fn say_names(sheet: &mut Sheet) -> Result<(), TryError> {
    for names in NAMES {
        sheet.lines.push_str(names)?;
    }
    Ok(())
}

/// Does the call of this name twice, and prints what came of it; without a name all names.
pub fn run<R: Threads + Wait + Clock + RandomSource + Copy + Drop + Send + Sync + Print + 'static>(
    rt: &R,
    alloc: Global,
    call: Option<&String>,
) -> Result<(), TryError> {
    let mut sheet = Sheet::new(alloc)?;
    match call {
        Some(call) => twice(rt, alloc, &mut sheet, call.as_str())?,
        None => say_names(&mut sheet)?,
    }
    let lines = sheet.lines.as_str();
    print!(rt; "{lines}")?;
    Ok(())
}
