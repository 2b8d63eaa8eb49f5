//! Connections whose reads and writes fail.

use crate::cases::{Case, Input, QUIET, STREAM, Stream};
use crate::messages::{TWO, TWO_REPLIES};
use crate::runs::{load, run_case};
use crate::stores::{Trial, attempt};
use crate::workers::{ListWorker, list_worker};
use policy_publish::{PolicyReader, Publisher, StoreName};
use rpz_workers::NoGate;
use server_io::StreamEnd;
use std::alloc::Global;
use std::process::Abort;
use std::sync::Wait;

// A connection with two messages, a byte a call.
const BYTEWISE: Stream = Stream {
    bytes: TWO,
    most: 1,
    ..STREAM
};

// Each read fails in turn, that at the end too: the messages that were whole by then are answered.
fn fail_reads<N: StoreName, R: Wait + Abort + Copy + Drop>(
    rt: &R,
    alloc: Global,
    publisher: &Publisher<N>,
    worker: &mut ListWorker<N, NoGate>,
) {
    for call in 0..=TWO.len() {
        let items = [Input::Connection(Stream {
            failing_read: call as u64,
            ..BYTEWISE
        })];
        let written = match call {
            0..31 => 0,
            31..62 => 31,
            _ => 100,
        };
        let case = Case {
            name: "a read that fails",
            items: &items,
            closed: 1,
            end: Some(StreamEnd::ReadFault),
            written: &TWO_REPLIES[..written],
            left: TWO.len() - call,
            ..QUIET
        };
        run_case(rt, alloc, publisher, worker, &case);
    }
}

// Each write fails in turn: what was written before it stays.
fn fail_writes<N: StoreName, R: Wait + Abort + Copy + Drop>(
    rt: &R,
    alloc: Global,
    publisher: &Publisher<N>,
    worker: &mut ListWorker<N, NoGate>,
) {
    for call in 0..TWO_REPLIES.len() {
        let items = [Input::Connection(Stream {
            failing_write: call as u64,
            ..BYTEWISE
        })];
        let case = Case {
            name: "a write that fails",
            items: &items,
            closed: 1,
            end: Some(StreamEnd::WriteFault),
            written: &TWO_REPLIES[..call],
            left: if call < 31 { 31 } else { 0 },
            ..QUIET
        };
        run_case(rt, alloc, publisher, worker, &case);
    }
}

#[test]
fn a_connection_fails_at_each_call(rt: HostRuntime) {
    attempt(rt, rt.alloc(), Trial::Faults)
}

/// Each read and each write of a connection fails in turn.
pub fn fail_all<N: StoreName, R: Wait + Abort + Copy + Drop>(
    rt: &R,
    alloc: Global,
    publisher: &mut Publisher<N>,
    readers: &mut Vec<PolicyReader<N>>,
) {
    load(rt, alloc, publisher);
    let mut worker = list_worker(rt, alloc, readers, Vec::new(alloc), NoGate);
    fail_calls(rt, alloc, publisher, &mut worker);
    drop(worker);
}

fn fail_calls<N: StoreName, R: Wait + Abort + Copy + Drop>(
    rt: &R,
    alloc: Global,
    publisher: &Publisher<N>,
    worker: &mut ListWorker<N, NoGate>,
) {
    fail_reads(rt, alloc, publisher, worker);
    fail_writes(rt, alloc, publisher, worker)
}
