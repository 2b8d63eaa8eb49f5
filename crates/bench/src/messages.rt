//! `bench messages KEY TIMES`: writes a message with its names compressed.
//!
//! It reads a message behind its length in two bytes from standard input, and writes it so many times, of at most 65,535 bytes, with the
//! key of the hash of names. It prints how many bytes were read and written, and how many nanoseconds the writing took that took least.

use crate::bench_error::BenchError;
use crate::words::Writes;
use dns_message::{GREATEST_LIMIT, Message, read_message, write_message};
use edge_io::{Source, read_frame};
use std::alloc::Global;
use std::time::{Clock, Duration, Instant};

// How many bytes were written, and how long it took.
#[derive(Clone, Copy)]
struct Written {
    bytes: usize,
    least: Duration,
}

// Writes the message once more.
fn write_once<R: Clock>(
    rt: &R,
    alloc: Global,
    key: u64,
    message: &Message,
) -> Result<Written, BenchError> {
    let start = Instant::now(rt)?;
    let octets = write_message(alloc, key, message, GREATEST_LIMIT)?;
    let least = start.elapsed(rt)?;
    Ok(Written {
        bytes: octets.len(),
        least,
    })
}

// Writes the message so many times.
fn write_times<R: Clock>(
    rt: &R,
    alloc: Global,
    writes: Writes,
    message: &Message,
) -> Result<Written, BenchError> {
    let mut written = Written {
        bytes: 0,
        least: Duration::MAX,
    };
    for _ in 0..writes.times {
        let next = write_once(rt, alloc, writes.key, message)?;
        written = Written {
            bytes: next.bytes,
            least: written.least.min(next.least),
        };
    }
    Ok(written)
}

/// Writes the message of the input.
pub fn run<R: Clock + Print, S: Source>(
    rt: &R,
    alloc: Global,
    writes: Writes,
    source: &mut S,
) -> Result<(), BenchError> {
    let Some(octets) = read_frame(alloc, source)? else {
        return Err(BenchError::Empty);
    };
    let message = read_message(alloc, octets.as_slice())?;
    let written = write_times(rt, alloc, writes, &message)?;
    println!(rt;
        "read {} written {} least {}",
        octets.len(),
        written.bytes,
        written.least.as_nanos()
    )?;
    Ok(())
}
