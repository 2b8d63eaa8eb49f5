//! What workers changed about connections of clients.

use mio::Waker;
use std::alloc::Global;
use std::mem;
use std::sync::atomic::{AtomicU64, Ordering};
use std::sync::{Mutex, Wait};

/// Which connection: its place, and how many connections came before it, since later ones may have the same place.
#[derive(Clone, Copy, PartialEq, Eq)]
pub(crate) struct ConnectionPlace {
    pub(crate) index: usize,
    pub(crate) number: u64,
}

/// Which connections of clients changed without the thread that has them, and how many bytes are in the outboxes of all.
#[derive(Drop)]
pub(crate) struct ConnectionChanges {
    // Ends the wait of the thread that has the connections.
    waker: Waker,
    // Each connection at most once. The lock is held to add one or to take all, and for nothing that waits.
    changed: Mutex<Vec<ConnectionPlace>>,
    outbox_bytes: AtomicU64,
}

impl ConnectionChanges {
    /// Nothing has changed.
    pub(crate) fn new(alloc: Global, waker: Waker) -> Self {
        ConnectionChanges {
            waker,
            changed: Mutex::new(Vec::new(alloc)),
            outbox_bytes: AtomicU64::new(0),
        }
    }

    /// Wakes the thread that has the connections. It doesn't wait.
    pub(crate) fn wake(&self) {
        let _ = self.waker.wake();
    }

    /// Tells the thread that a connection has changed. Where there is no memory for that, the thread sees it when it looks at all.
    pub(crate) fn tell<R: Wait>(&self, rt: &R, place: ConnectionPlace) {
        let _ = self.changed.lock(rt).push(place);
        self.wake();
    }

    /// Takes what has changed, in exchange for a list that is empty.
    pub(crate) fn take<R: Wait>(
        &self,
        rt: &R,
        empty: Vec<ConnectionPlace>,
    ) -> Vec<ConnectionPlace> {
        mem::replace(&mut *self.changed.lock(rt), empty)
    }

    /// An outbox had so many bytes before, and has so many now.
    pub(crate) fn count(&self, before: usize, after: usize) {
        if after > before {
            let more = after - before;
            self.outbox_bytes.fetch_add(more as u64, Ordering::SeqCst);
        } else {
            let less = before - after;
            self.outbox_bytes.fetch_sub(less as u64, Ordering::SeqCst);
        }
    }

    /// How many bytes are in all outboxes.
    pub(crate) fn outbox_bytes(&self) -> u64 {
        self.outbox_bytes.load(Ordering::SeqCst)
    }
}
