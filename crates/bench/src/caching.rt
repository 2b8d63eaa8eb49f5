//! The cache that the workers share, with what the upstream gave.

use crate::bench_error::BenchError;
use crate::tried::after;
use answer_cache::SharedCache;
use dns_message::{Question, read_message};
use dns_name::Octets;
use edge_io::{ListLink, Source, read_frame};
use std::alloc::Global;
use std::hash::RandomState;
use std::random::RandomSource;
use std::sync::{Arc, Wait};
use upstream_link::Learned;

// The entries of a shard: those of a server that isn't told how many.
const ENTRIES: usize = 4_096;

/// The cache that the workers share.
pub type BenchCache = Arc<SharedCache<ListLink>, Global>;

// An empty one, with a random seed.
fn open<R: RandomSource>(rt: &R, alloc: Global) -> Result<BenchCache, BenchError> {
    let hashers = RandomState::new(rt)?;
    let cache = SharedCache::open(alloc, ENTRIES, hashers)?;
    Ok(Arc::new(alloc, cache)?)
}

// Keeps what is learned of a message of the ID 0, which came at the second 0, for its question.
fn keep_for<R: Wait>(
    rt: &R,
    alloc: Global,
    cache: &BenchCache,
    question: Option<&Question>,
    bytes: &Octets,
) -> Result<(), BenchError> {
    let Some(question) = question else {
        return Err(BenchError::NoQuestion);
    };
    let learned = Learned::given(alloc, 0, question, bytes, 0)?;
    Ok(cache.keep(rt, alloc, question, learned)?)
}

// The same of the message that these bytes are.
fn keep<R: Wait>(
    rt: &R,
    alloc: Global,
    cache: &BenchCache,
    bytes: &Octets,
) -> Result<(), BenchError> {
    let message = read_message(alloc, bytes.as_slice())?;
    keep_for(rt, alloc, cache, message.question.as_ref(), bytes)
}

// Keeps what is learned of each message up to the end of the input.
fn fill<R: Wait, S: Source>(
    rt: &R,
    alloc: Global,
    cache: &BenchCache,
    source: &mut S,
) -> Result<(), BenchError> {
    for _turn in 0..u64::MAX {
        let Some(message) = read_frame(alloc, source)? else {
            break;
        };
        keep(rt, alloc, cache, &message)?;
    }
    Ok(())
}

/// A cache of what the upstream gave: the messages up to the end of the input, of the ID 0 and at the second 0.
pub fn read_cache<R: RandomSource + Wait, S: Source>(
    rt: &R,
    alloc: Global,
    source: &mut S,
) -> Result<BenchCache, BenchError> {
    let cache = open(rt, alloc)?;
    let done = fill(rt, alloc, &cache, source);
    after(cache, done)
}
