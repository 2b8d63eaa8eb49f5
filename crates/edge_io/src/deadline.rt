// Until when the query may take that a worker has in hand, and whether much was asked for it.
use std::alloc::{AllocError, Global};
use std::sync::Arc;
use std::sync::atomic::{AtomicU64, Ordering};
use std::time::{Duration, Instant};

/// A query for which more questions were asked than so many is one for which much was asked.
pub const MUCH_QUESTIONS: u64 = 16;

// No moment is set.
const NO_END: u64 = u64::MAX;

// What all handles of one worker share.
#[derive(Drop)]
struct InHand {
    // So many microseconds behind the start, or `NO_END`.
    end: AtomicU64,
    // How many questions were asked for the query.
    asked: AtomicU64,
}

/// Until when the query may take that a worker has in hand, and how many questions were asked for it. Whoever gives the worker its
/// queries sets the moment, and the worker's link keeps to it and counts its questions: each has a handle.
#[derive(Drop)]
pub struct Deadline {
    start: Instant,
    query: Arc<InHand>,
    // For how many queries much was asked by now, those of other workers with the same count included.
    much: Arc<AtomicU64>,
}

impl Deadline {
    /// No moment is set yet. None that is set later lies before the start.
    pub fn new(alloc: Global, start: Instant) -> Result<Self, AllocError> {
        match Arc::new(alloc, AtomicU64::new(0)) {
            Ok(much) => Deadline::among(alloc, start, much),
            Err(_) => Err(AllocError),
        }
    }

    /// The same for one of many workers, with their count of the queries for which much was asked.
    pub fn among(alloc: Global, start: Instant, much: Arc<AtomicU64>) -> Result<Self, AllocError> {
        let query = InHand {
            end: AtomicU64::new(NO_END),
            asked: AtomicU64::new(0),
        };
        match Arc::new(alloc, query) {
            Ok(query) => Ok(Deadline { start, query, much }),
            Err(_) => Err(AllocError),
        }
    }

    /// One more handle.
    pub fn again(&self) -> Result<Self, AllocError> {
        let query = Arc::try_clone(&self.query)?;
        let much = Arc::try_clone(&self.much)?;
        Ok(Deadline {
            start: self.start,
            query,
            much,
        })
    }

    /// Sets the moment.
    pub fn set(&self, end: Instant) {
        let micros = end.saturating_duration_since(self.start).as_micros();
        let most = u128::from(NO_END - 1);
        self.query
            .end
            .store(micros.min(most) as u64, Ordering::SeqCst);
    }

    /// The moment, where one is set.
    pub fn end(&self) -> Option<Instant> {
        let micros = self.query.end.load(Ordering::SeqCst);
        if micros == NO_END {
            return None;
        }
        self.start.checked_add(Duration::from_micros(micros))
    }

    /// The worker is given another query, for which nothing was asked.
    pub fn forget_questions(&self) {
        self.query.asked.store(0, Ordering::SeqCst);
    }

    /// One more question is asked for the query. Where that makes it one for which much was asked, the count of these rises.
    pub fn count_question(&self) {
        if self.query.asked.fetch_add(1, Ordering::SeqCst) == MUCH_QUESTIONS {
            self.much.fetch_add(1, Ordering::SeqCst);
        }
    }

    /// Whether more than [`MUCH_QUESTIONS`] questions were asked for the query.
    pub fn is_much_asked(&self) -> bool {
        self.query.asked.load(Ordering::SeqCst) > MUCH_QUESTIONS
    }
}
