//! The request list: queries that need the upstream, and wait for workers that ask.

use crate::request_list::list_state::{ListState, Turn};
use crate::request_list::request_items::RequestItems;
use crate::request_list::request_onward::RequestOnward;
use crate::request_list::waiting::Waiting;
use crate::request_list::wake_count::WakeCount;
use edge_io::Deadline;
use policy_publish::{Latest, StoreName};
use std::alloc::{AllocError, Global};
use std::hash::RandomState;
use std::sync::atomic::{AtomicU64, Ordering};
use std::sync::{Arc, Mutex, Wait};
use std::time;
use std::time::Instant;

/// What all handles on a request list share.
#[derive(Drop)]
pub(crate) struct SharedList<N: StoreName> {
    state: Mutex<ListState<N>>,
    woken: WakeCount,
    // How many handles may still pass on.
    open: AtomicU64,
    // For how many queries much was asked by now.
    much: Arc<AtomicU64>,
    hashers: RandomState,
}

impl<N: StoreName> SharedList<N> {
    /// What the marks of queries are made with.
    pub(crate) fn hashers(&self) -> &RandomState {
        &self.hashers
    }

    // One more asker with this deadline, and its number.
    fn enter<R: Wait>(&self, rt: &R, deadline: Deadline) -> Result<usize, AllocError> {
        self.state.lock(rt).enter(deadline)
    }

    // The same under the lock as `put`.
    fn put_locked<R: Wait>(&self, rt: &R, query: Waiting<N>) -> Result<bool, Waiting<N>> {
        self.state.lock(rt).put(query)
    }

    /// Puts a query behind those that wait, and wakes an asker for it; an error gives it back, where there is no room.
    pub(crate) fn put<R: Wait>(&self, rt: &R, query: Waiting<N>) -> Result<(), Waiting<N>> {
        if self.put_locked(rt, query)? {
            self.woken.wake_one();
        }
        Ok(())
    }

    // The same under the lock as `turn`.
    fn turn_locked<R: Wait>(
        &self,
        rt: &R,
        asker: usize,
        was_asleep: bool,
        now: Option<Instant>,
    ) -> Turn<N> {
        let much = self.much.load(Ordering::SeqCst);
        self.state.lock(rt).turn(asker, was_asleep, much, now)
    }

    /// The asker of this number is done with what it had, and takes what goes next.
    pub(crate) fn turn<R: Wait>(
        &self,
        rt: &R,
        asker: usize,
        was_asleep: bool,
        now: Option<Instant>,
    ) -> Turn<N> {
        let turn = self.turn_locked(rt, asker, was_asleep, now);
        if turn.calls {
            self.woken.wake_one();
        }
        // those that sleep have found something that waited for its question
        if turn.taken.is_some() && turn.is_empty && self.has_ended() {
            self.woken.wake_all();
        }
        turn
    }

    // The same under the lock as `leave`.
    fn leave_locked<R: Wait>(&self, rt: &R, asker: usize, was_asleep: bool) -> bool {
        self.state.lock(rt).leave(asker, was_asleep)
    }

    /// The asker of this number takes nothing more.
    pub(crate) fn leave<R: Wait>(&self, rt: &R, asker: usize, was_asleep: bool) {
        if self.leave_locked(rt, asker, was_asleep) {
            self.woken.wake_one();
        }
    }

    /// What askers sleep on.
    pub(crate) fn woken(&self) -> &WakeCount {
        &self.woken
    }

    /// Whether nobody passes anything on any more.
    pub(crate) fn has_ended(&self) -> bool {
        self.open.load(Ordering::SeqCst) == 0
    }
}

/// A handle that keeps a request list open while it lives.
pub(crate) struct OpenList<N: StoreName> {
    shared: Arc<SharedList<N>, Global>,
}

impl<N: StoreName> OpenList<N> {
    /// One more handle.
    fn again(&self) -> Result<Self, AllocError> {
        let shared = Arc::try_clone(&self.shared)?;
        shared.open.fetch_add(1, Ordering::SeqCst);
        Ok(OpenList { shared })
    }

    /// What all handles share.
    pub(crate) fn shared(&self) -> &SharedList<N> {
        &self.shared
    }
}

impl<N: StoreName> Drop for OpenList<N> {
    fn drop(self) {
        let OpenList { shared } = self;
        if shared.open.fetch_sub(1, Ordering::SeqCst) == 1 {
            shared.woken.wake_all();
        }
    }
}

/// The queries that workers without a link have passed on, and that wait for workers that ask. At most
/// [`WAITING_QUERIES`](crate::WAITING_QUERIES) wait, whose messages have at most [`WAITING_OCTETS`](crate::WAITING_OCTETS) octets.
///
/// - One question, one asker: a query whose question an asker has in hand waits until that asker is done. Then it goes for itself, and is
///   held back no more: it is answered from the cache, or fails at once where the link remembers failures, or is asked.
/// - Shares: of two that wait the one goes first whose client (an address, of version 6 the /56) and whose domain (the last two labels
///   of the question) have less than half of the askers. A query for which more than [`MUCH_QUESTIONS`](edge_io::MUCH_QUESTIONS)
///   questions were asked counts twice for its client. No asker stands idle for that: where no other may go, a share holds nobody back.
/// - Else the oldest that may go, goes.
/// - Time: a query has [`QUERY_SECONDS`](crate::QUERY_SECONDS) from when it was passed on, and while more than half of the askers are
///   busy, [`JOSTLE_MILLISECONDS`](crate::JOSTLE_MILLISECONDS) from when it is taken, if that is less. One whose time is over goes
///   before all others.
///
/// One lock is held for moments: no memory is taken under it, and nothing is waited for. Nothing grows with what waits where nothing is
/// held back; else a call goes over those that wait a few times at most.
#[derive(Drop)]
pub struct RequestList<N: StoreName> {
    open: OpenList<N>,
}

impl<N: StoreName> RequestList<N> {
    /// An empty list for so many askers, 1 at least. Names and addresses are hashed with these hashers, whose seed is to be drawn at
    /// random.
    pub fn open(alloc: Global, askers: usize, hashers: RandomState) -> Result<Self, AllocError> {
        let state = ListState::open(alloc, askers)?;
        let much = Arc::new(alloc, AtomicU64::new(0))?;
        let shared = SharedList {
            state: Mutex::new(state),
            woken: WakeCount::new(),
            open: AtomicU64::new(1),
            much,
            hashers,
        };
        Ok(RequestList {
            open: OpenList {
                shared: Arc::new(alloc, shared)?,
            },
        })
    }

    /// One more handle that passes queries on.
    pub fn onward<R: Wait + time::Clock + Drop>(
        &self,
        rt: R,
        alloc: Global,
    ) -> Result<RequestOnward<N, R>, AllocError> {
        Ok(RequestOnward::new(rt, alloc, self.open.again()?))
    }

    /// A deadline for one more asker. No moment is set yet, and none that is set later lies before the start.
    pub fn deadline(&self, alloc: Global, start: Instant) -> Result<Deadline, AllocError> {
        Deadline::among(alloc, start, Arc::try_clone(&self.open.shared.much)?)
    }

    /// The items of one more asker, whose deadline is one of this list's. The list that was published last is looked at where nothing
    /// waits, and the end of each query's time is set for the asker's link. It is an error where there are more askers than were told
    /// and memory runs out.
    pub fn items<R: Wait + time::Clock + Copy + Drop>(
        &self,
        rt: R,
        latest: Latest<N>,
        deadline: Deadline,
    ) -> Result<RequestItems<N, R>, AllocError> {
        let shared = Arc::try_clone(&self.open.shared)?;
        let asker = shared.enter(&rt, deadline.again()?)?;
        Ok(RequestItems::new(rt, shared, asker, latest, deadline))
    }
}
