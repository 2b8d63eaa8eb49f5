//! What ends the wait of a thread.

use std::sync::Wait;
use std::sync::atomic::{AtomicU64, Ordering};
use std::time::Duration;

/// What ends the wait of a thread, as of the one that has the wires, raised by others once they have something for it.
///
/// The thread takes the count, looks whether there is something, and else waits with that count, so that it misses nothing that was
/// there before a raise.
#[derive(Drop)]
pub struct WakeSignal {
    raised: AtomicU64,
}

impl WakeSignal {
    /// It was never raised.
    pub fn new() -> Self {
        WakeSignal {
            raised: AtomicU64::new(0),
        }
    }

    /// How often it was raised.
    pub fn count(&self) -> u64 {
        self.raised.load(Ordering::SeqCst)
    }

    /// Ends the wait of one thread. It doesn't wait itself.
    pub fn raise(&self) {
        self.raised.fetch_add(1, Ordering::SeqCst);
        self.raised.wake_one();
    }

    /// Ends the waits of all threads. It doesn't wait itself.
    pub fn raise_all(&self) {
        self.raised.fetch_add(1, Ordering::SeqCst);
        self.raised.wake_all();
    }

    /// Waits until it was raised more often than this, so long at most. It may also end before.
    pub fn wait<R: Wait>(&self, rt: &R, count: u64, most: Duration) {
        let low = (count % (1 << 32)) as u32;
        self.raised.park_timeout(rt, low, most);
    }
}
