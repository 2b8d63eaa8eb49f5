//! What the threads of wires share.

use crate::notifiers::{Notifiers, NotifyOrigin};
use crate::wake_signal::WakeSignal;
use ip_prefix::Addr;
use std::alloc::{AllocError, Global};
use std::sync::atomic::AtomicU64;
use std::sync::{Arc, Mutex, Wait};
use std::time;
use std::time::Instant;

/// What the threads of wires share, whether or not an endpoint is open.
#[derive(Drop)]
pub struct WireState {
    /// Ends the wait of the thread that has the wires.
    pub signal: WakeSignal,
    /// How many transfers are under way.
    pub transfers: AtomicU64,
    // Who may send NOTIFYs. The lock is held for a look at this list, and for nothing that waits.
    notifiers: Mutex<Notifiers>,
}

impl WireState {
    /// Nothing is under way.
    pub fn new(alloc: Global) -> Result<Arc<Self>, AllocError> {
        let state = WireState {
            signal: WakeSignal::new(),
            transfers: AtomicU64::new(0),
            notifiers: Mutex::new(Notifiers::new(alloc)?),
        };
        match Arc::new(alloc, state) {
            Ok(state) => Ok(state),
            Err(_) => Err(AllocError),
        }
    }

    /// This is the address of a primary server, whose NOTIFYs have a queue of their own.
    pub fn add_primary<R: Wait>(&self, rt: &R, addr: Addr) {
        self.notifiers.lock(rt).add_primary(addr);
    }

    // Whether a NOTIFY that comes now from this address is looked at, and of whom it is; `None` if it comes too soon after others.
    pub(crate) fn admit<R: time::Clock + Wait>(&self, rt: &R, addr: Addr) -> Option<NotifyOrigin> {
        let now = Instant::now(rt).ok()?;
        self.notifiers.lock(rt).admit(addr, now)
    }
}
