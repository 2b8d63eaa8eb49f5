//! What all links to an upstream share.

use crate::answer_place::AnswerPlace;
use crate::limits::UPSTREAM_CHANGE_MILLISECONDS;
use crate::upstream_connection::UpstreamConnection;
use crate::upstream_connections::{Asked, Choice, OpeningPlace, UpstreamConnections};
use crate::upstream_failures::UpstreamFailures;
use edge_io::Endpoint;
use net_base::{WakeSignal, time_until};
use std::alloc::{AllocError, Global};
use std::sync::atomic::{AtomicU64, Ordering};
use std::sync::{Arc, Mutex, Wait};
use std::time;
use std::time::{Duration, Instant};

/// What all links to an upstream share: the connections to it, and the questions that it did not answer in time. No lock is held while
/// something waits.
#[derive(Drop)]
pub(crate) struct UpstreamPool {
    /// Where the upstream is.
    pub(crate) upstream: Endpoint,
    connections: Mutex<UpstreamConnections>,
    failures: Mutex<UpstreamFailures>,
    // Raised where there may be room for a question.
    changed: WakeSignal,
    // How many threads wait for that.
    waiting: AtomicU64,
}

impl UpstreamPool {
    /// No connection is open.
    pub(crate) fn new(alloc: Global, upstream: Endpoint) -> Result<Self, AllocError> {
        Ok(UpstreamPool {
            upstream,
            connections: Mutex::new(UpstreamConnections::new(alloc)?),
            failures: Mutex::new(UpstreamFailures::new(alloc)),
            changed: WakeSignal::new(),
            waiting: AtomicU64::new(0),
        })
    }

    /// Whether nothing is asked any more.
    pub(crate) fn is_stopped<R: Wait>(&self, rt: &R) -> bool {
        self.connections.lock(rt).is_stopped()
    }

    /// How often it has changed. Whoever waits for a change takes this number before it chooses.
    pub(crate) fn changes(&self) -> u64 {
        self.changed.count()
    }

    /// Where the question with this ID goes, whose answer comes to this place.
    pub(crate) fn choose<R: Wait>(
        &self,
        rt: &R,
        id: u16,
        place: &Arc<AnswerPlace>,
        now: Instant,
    ) -> Result<Choice, AllocError> {
        let waiting = self.waiting.load(Ordering::SeqCst);
        self.connections
            .lock(rt)
            .choose(rt, waiting, id, place, now)
    }

    /// Waits until it has changed more often than this, or it may be worth another look, at most up to this moment.
    pub(crate) fn wait<R: time::Clock + Wait>(&self, rt: &R, changes: u64, end: Instant) {
        let most = Duration::from_millis(UPSTREAM_CHANGE_MILLISECONDS);
        self.waiting.fetch_add(1, Ordering::SeqCst);
        if let Ok(left) = time_until(rt, end) {
            self.changed.wait(rt, changes, left.min(most));
        }
        self.waiting.fetch_sub(1, Ordering::SeqCst);
    }

    /// There may be room for one more question.
    pub(crate) fn tell_one(&self) {
        if self.waiting.load(Ordering::SeqCst) > 0 {
            self.changed.raise();
        }
    }

    /// A connection was opened in this place, and takes the question with this ID first; `None` where nothing is asked any more.
    pub(crate) fn add<R: Wait>(
        &self,
        rt: &R,
        opened: OpeningPlace,
        connection: Arc<UpstreamConnection>,
        id: u16,
        place: &Arc<AnswerPlace>,
        now: Instant,
    ) -> Result<Option<Asked>, AllocError> {
        let added = self
            .connections
            .lock(rt)
            .add(rt, opened, connection, id, place, now);
        self.changed.raise_all();
        added
    }

    /// A connection could not be opened in this place. Says where the question goes, where another connection takes it.
    pub(crate) fn fail<R: Wait>(
        &self,
        rt: &R,
        failed: OpeningPlace,
        id: u16,
        place: &Arc<AnswerPlace>,
        now: Instant,
    ) -> Result<Choice, AllocError> {
        let choice = self.connections.lock(rt).fail(rt, failed, id, place, now);
        self.changed.raise_all();
        choice
    }

    /// Closes a connection, and forgets it. Whoever waits for an answer on it is told last, so that its next choice knows of this.
    pub(crate) fn close<R: time::Clock + Wait>(&self, rt: &R, connection: &UpstreamConnection) {
        let closing = match Instant::now(rt) {
            Ok(now) => Some((connection.begin_close(rt, now), now)),
            Err(_) => None,
        };
        self.connections.lock(rt).remove(connection.serial, closing);
        connection.close(rt);
        self.tell_one();
    }

    /// Closes all connections. Nothing is asked any more.
    pub(crate) fn stop<R: Wait>(&self, rt: &R) {
        self.connections.lock(rt).stop(rt);
        self.changed.raise_all();
    }

    /// Whether the upstream did not answer the question of this message lately, in time or since.
    pub(crate) fn has_failed<R: Wait>(&self, rt: &R, message: &[u8], now: Instant) -> bool {
        self.failures.lock(rt).has(message, now)
    }

    /// The upstream did not answer the question of this message in time. Its answer would come to this place.
    pub(crate) fn remember<R: Wait>(
        &self,
        rt: &R,
        message: &[u8],
        place: Arc<AnswerPlace>,
        now: Instant,
    ) {
        self.failures.lock(rt).add(message, place, now);
    }
}
