//! The cache of a server.

ghost use Rattle.std.specs.Prelude.{◌≤◌};
ghost use Rattle.rpz_words.specs.declared.settings.TheConstants.{LEAST_CACHE, MOST_CACHE};

use answer_cache::{SHARDS, Shared, SharedCache};
use edge_io::Link;
use std::alloc::{AllocError, Global};
use std::hash::RandomState;
use std::sync::{Arc, Wait};

/// The cache that all workers of a server share.
pub type ServerCache<L> = Arc<SharedCache<L>, Global>;

/// Opens an empty one, for at most so many entries in all: each shard has an equal part of them, without the remainder.
pub(crate) fn open_cache<L: Link>(
    alloc: Global,
    entries: u32,
    hashers: RandomState,
) -> Result<ServerCache<L>, AllocError>
    requires some { LEAST_CACHE ≤ entries }
    requires most { entries ≤ MOST_CACHE }
{
    let cache = SharedCache::open(alloc, (entries / SHARDS) as usize, hashers)?;
    Ok(Arc::new(alloc, cache)?)
}

/// A hold on the cache that all workers share.
pub(crate) fn hold<L: Link, R: Wait + Copy + Drop>(
    rt: &R,
    cache: &ServerCache<L>,
) -> Result<Shared<R, L>, AllocError> {
    Ok(Shared::new(*rt, Arc::try_clone(cache)?))
}
