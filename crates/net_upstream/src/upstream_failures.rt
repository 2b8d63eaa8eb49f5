//! Questions that the upstream did not answer in time.

use crate::answer_place::AnswerPlace;
use crate::limits::{UPSTREAM_FAILURE_BYTES, UPSTREAM_FAILURE_SECONDS, UPSTREAM_FAILURES};
use std::alloc::Global;
use std::collections::BTreeMap;
use std::sync::Arc;
use std::time::{Duration, Instant};

// One of them: until when it is remembered, and where its answer may still come.
#[derive(Drop)]
struct Failure {
    until: Instant,
    place: Arc<AnswerPlace>,
}

/// Questions that the upstream did not answer in time, each until its answer comes late, and for `UPSTREAM_FAILURE_SECONDS` (RFC 9520, section 3.2).
#[derive(Drop)]
pub(crate) struct UpstreamFailures {
    alloc: Global,
    // By the bytes behind the ID.
    failures: BTreeMap<Vec<u8>, Failure>,
}

// What is remembered of a question: its bytes behind the ID; `None` where it is too long.
fn question_of(message: &[u8]) -> Option<&[u8]> {
    if message.len() > UPSTREAM_FAILURE_BYTES {
        return None;
    }
    message.get(2..)
}

impl UpstreamFailures {
    /// None is known.
    pub(crate) fn new(alloc: Global) -> Self {
        UpstreamFailures {
            alloc,
            failures: BTreeMap::new(alloc),
        }
    }

    /// Whether the question of this message is one of them.
    pub(crate) fn has(&self, message: &[u8], now: Instant) -> bool {
        match question_of(message) {
            Some(question) => match self.failures.get(question) {
                Some(failure) => now < failure.until && !failure.place.came_late(),
                None => false,
            },
            None => false,
        }
    }

    /// The question of this message, whose answer would come to this place, was not answered in time. It isn't remembered where it is too long, or there is no room. Of too
    /// many the oldest is forgotten.
    pub(crate) fn add(&mut self, message: &[u8], place: Arc<AnswerPlace>, now: Instant) {
        let until = now.checked_add(Duration::from_secs(UPSTREAM_FAILURE_SECONDS));
        if let (Some(question), Some(until)) = (question_of(message), until) {
            self.make_room(now);
            if let Ok(question) = Vec::from_slice(self.alloc, question) {
                let _ = self.failures.insert(question, Failure { until, place });
            }
        }
    }

    // Forgets what is over where no more are remembered, and the oldest where none is.
    fn make_room(&mut self, now: Instant) {
        if self.failures.len() < UPSTREAM_FAILURES {
            return;
        }
        self.failures.retain(|_, failure| now < failure.until);
        if self.failures.len() < UPSTREAM_FAILURES {
            return;
        }
        if let Some(oldest) = self.oldest() {
            self.failures.retain(|_, failure| failure.until != oldest);
        }
    }

    fn oldest(&self) -> Option<Instant> {
        let mut oldest: Option<Instant> = None;
        for failure in self.failures.values() {
            if oldest.is_none_or(|least| failure.until < least) {
                oldest = Some(failure.until);
            }
        }
        oldest
    }
}
