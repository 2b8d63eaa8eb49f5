//! A connection of a client, which a worker serves over streams in memory.
//!
//! The line says how it ended, `wrote` and the octets of the replies, each behind its length.

use crate::samples::CLIENT_ADDR;
use crate::sheet::Sheet;
use crate::try_error::TryError;
use crate::worker_calls::ListWorker;
use edge_io::{ListClock, ListSink, ListSource};
use policy_publish::StoreName;
use rpz_workers::NoOnward;
use server_io::{Peer, StreamEnd};
use std::alloc::Global;
use std::collections::VecDeque;

// Two queries, each behind its length: the one that a rule answers, and the one for which the upstream is asked.
const QUERIES: &[u8] = b"\0\x1d\x12\x33\x01\0\0\x01\0\0\0\0\0\0\x03bad\x07example\0\0\x01\0\x01\
    \0\x1b\x12\x35\x01\0\0\x01\0\0\0\0\0\0\x01x\x07example\0\0\x01\0\x01";

// Serves the connection: how it ended, and what was written, five octets a call.
fn served<N: StoreName>(
    alloc: Global,
    worker: &mut ListWorker<N>,
) -> Result<(StreamEnd, Vec<u8>), TryError> {
    let mut source = ListSource::new(QUERIES.to_vec(alloc)?, 8_192, Vec::new(alloc));
    let mut sink = ListSink::new(Vec::new(alloc), 5, Vec::new(alloc));
    let mut clock = ListClock::new(alloc, VecDeque::new(alloc));
    let client = Peer {
        addr: CLIENT_ADDR,
        port: 53_000,
        listener: 0,
    };
    let end = worker.serve_stream(&mut source, &mut sink, client, &mut clock, &mut NoOnward);
    Ok((end, sink.bytes))
}

/// Serves a connection with two queries.
pub fn serve<N: StoreName>(
    alloc: Global,
    sheet: &mut Sheet,
    worker: &mut ListWorker<N>,
) -> Result<(), TryError> {
    let (end, octets) = served(alloc, worker)?;
    sheet.show(&end);
    sheet.show_written(&octets);
    Ok(())
}
