//! What wakes askers.

use std::sync::Wait;
use std::sync::atomic::{AtomicU64, Ordering};
use std::time::Duration;

/// A count that askers sleep on. An asker takes the count, looks whether there is something for it, and else sleeps with that count, so
/// that it misses nothing that was there before the count was raised.
#[derive(Drop)]
pub(crate) struct WakeCount {
    raised: AtomicU64,
}

impl WakeCount {
    /// It was never raised.
    pub(crate) fn new() -> Self {
        WakeCount {
            raised: AtomicU64::new(0),
        }
    }

    /// The count.
    pub(crate) fn count(&self) -> u64 {
        self.raised.load(Ordering::SeqCst)
    }

    /// Wakes one. It doesn't wait itself.
    pub(crate) fn wake_one(&self) {
        self.raised.fetch_add(1, Ordering::SeqCst);
        self.raised.wake_one();
    }

    /// Wakes all. It doesn't wait itself.
    pub(crate) fn wake_all(&self) {
        self.raised.fetch_add(1, Ordering::SeqCst);
        self.raised.wake_all();
    }

    /// Sleeps until it was raised above this count, so long at most. It may also end before.
    pub(crate) fn sleep<R: Wait>(&self, rt: &R, count: u64, most: Duration) {
        let low = (count % (1 << 32)) as u32;
        self.raised.park_timeout(rt, low, most);
    }
}
