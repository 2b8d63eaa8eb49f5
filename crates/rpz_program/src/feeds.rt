//! What workers take, and where they pass on what needs the upstream.

use edge_io::Deadline;
use policy_publish::{Latest, StoreName};
use rpz_workers::{RequestItems, RequestList, RequestOnward};
use std::alloc::{AllocError, Global};
use std::hash::{BuildHasher, Hasher, RandomState};
use std::sync::Wait;
use std::time;
use std::time::Instant;

/// How many workers answer the messages of connections, by the rules and the cache: none of them waits for a client or for the upstream.
pub const STREAM_WORKERS: usize = 2;

/// What workers are given when they start: the list of what is passed on, the handle on what is published, and the key of the hash of
/// the names in replies. Workers that ask end once this is dropped and all that pass messages on have ended.
#[derive(Drop)]
pub(crate) struct Feeds<N: StoreName> {
    requests: RequestList<N>,
    latest: Latest<N>,
    key: u64,
}

impl<N: StoreName> Feeds<N> {
    /// Opens the list for what is passed on to so many workers. The key is drawn from the hashers.
    pub(crate) fn open(
        alloc: Global,
        askers: usize,
        hashers: RandomState,
        latest: Latest<N>,
    ) -> Result<Feeds<N>, AllocError> {
        let key = hashers.build_hasher().finish();
        Ok(Feeds {
            requests: RequestList::open(alloc, askers, hashers)?,
            latest,
            key,
        })
    }

    /// The key of the hash of the names in replies: a random number of this run.
    pub(crate) fn key(&self) -> u64 {
        self.key
    }

    /// A handle on what is published.
    pub(crate) fn latest(&self) -> Result<Latest<N>, AllocError> {
        self.latest.again()
    }

    /// What a worker takes that answers what was passed on, and the other handle on when its time is over, for its link.
    pub(crate) fn passed<R: Wait + time::Clock + Copy + Drop>(
        &self,
        rt: &R,
        alloc: Global,
    ) -> Result<(RequestItems<N, R>, Deadline), AllocError> {
        let Ok(now) = Instant::now(rt) else {
            return Err(AllocError);
        };
        let deadline = self.requests.deadline(alloc, now)?;
        let again = deadline.again()?;
        let items = self.requests.items(*rt, self.latest.again()?, again)?;
        Ok((items, deadline))
    }

    /// Where a worker passes on what needs the upstream.
    pub(crate) fn onward<R: Wait + time::Clock + Copy + Drop>(
        &self,
        rt: &R,
        alloc: Global,
    ) -> Result<RequestOnward<N, R>, AllocError> {
        self.requests.onward(*rt, alloc)
    }
}
