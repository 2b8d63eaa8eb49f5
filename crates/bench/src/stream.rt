//! A transfer in the input, in front of something else.

use crate::bench_error::BenchError;
use crate::tried::after;
use dns_name::Octets;
use edge_io::{Source, read_frame};
use std::alloc::Global;

fn push_frames<S: Source>(
    alloc: Global,
    stream: &mut Octets,
    source: &mut S,
) -> Result<(), BenchError> {
    for _turn in 0..u64::MAX {
        let Some(message) = read_frame(alloc, source)? else {
            break;
        };
        if message.len() == 0 {
            return Ok(());
        }
        stream.append(&(message.len() as u16).to_be_bytes())?;
        stream.append(message.as_slice())?;
    }
    Err(BenchError::Ended)
}

/// The next transfer: its messages, each behind its length, up to an empty one, which is left out.
pub fn read_stream<S: Source>(alloc: Global, source: &mut S) -> Result<Octets, BenchError> {
    let mut stream = Octets::new(alloc);
    let done = push_frames(alloc, &mut stream, source);
    after(stream, done)
}
