//! Counts by hash.

use std::alloc::{AllocError, Global};

// In how many places the counts stand: with 4,096 queries that wait, one in five shares its place with another one.
const PLACES: u64 = 16_384;

/// Counts by hash, each in the place that the remainder of its hash gives. What shares a place is counted together, so that a count is
/// never too low. It takes its memory when it is opened.
#[derive(Drop)]
pub(crate) struct Tally {
    counts: Vec<u16>,
}

// The place of a hash.
fn place_of(hash: u64) -> usize {
    (hash % PLACES) as usize
}

impl Tally {
    /// Nothing is counted yet.
    pub(crate) fn open(alloc: Global) -> Result<Self, AllocError> {
        Ok(Tally {
            counts: vec![in alloc; 0; PLACES as usize]?,
        })
    }

    /// How many there are in the place of this hash.
    pub(crate) fn count(&self, hash: u64) -> usize {
        match self.counts.get(place_of(hash)) {
            Some(count) => usize::from(*count),
            None => 0,
        }
    }

    /// One more.
    pub(crate) fn add(&mut self, hash: u64) {
        if let Some(count) = self.counts.get_mut(place_of(hash)) {
            *count = count.saturating_add(1);
        }
    }

    /// One less.
    pub(crate) fn remove(&mut self, hash: u64) {
        if let Some(count) = self.counts.get_mut(place_of(hash)) {
            *count = count.saturating_sub(1);
        }
    }
}
