//! Who sends NOTIFYs, and how often.

use crate::limits::{NOTIFY_ADDRESSES, NOTIFY_SECONDS, PRIMARY_NOTIFIES};
use ip_prefix::Addr;
use std::alloc::{AllocError, Global};
use std::time::{Duration, Instant};

// An address, until when its NOTIFYs are counted, and how many of them were looked at since they are.
#[derive(Clone, Copy)]
struct Notifier {
    addr: Addr,
    until: Option<Instant>,
    count: u32,
}

impl Notifier {
    fn new(addr: Addr) -> Self {
        Notifier {
            addr,
            until: None,
            count: 0,
        }
    }

    // Whether NOTIFYs are counted that came before now.
    fn is_counting(&self, now: Instant) -> bool {
        self.until.is_some_and(|until| now < until)
    }

    // Whether a NOTIFY that comes now is looked at, where so many are in `NOTIFY_SECONDS`.
    fn admit(&mut self, now: Instant, most: u32) -> bool {
        if !self.is_counting(now) {
            self.until = now.checked_add(Duration::from_secs(NOTIFY_SECONDS));
            self.count = 0;
        }
        let is_admitted = self.count < most;
        if is_admitted {
            self.count = self.count.saturating_add(1);
        }
        is_admitted
    }
}

/// Of whom a NOTIFY is.
#[derive(Clone, Copy)]
pub(crate) enum NotifyOrigin {
    /// Of an address of which a transfer was ordered.
    Primary,
    /// Of any other address.
    Stranger,
}

/// The addresses of primary servers, and those of others that sent a NOTIFY (RFC 1996) in the last second.
#[derive(Drop)]
pub(crate) struct Notifiers {
    primaries: Vec<Notifier>,
    strangers: Vec<Notifier>,
}

impl Notifiers {
    /// None is known. Only this call allocates.
    pub(crate) fn new(alloc: Global) -> Result<Self, AllocError> {
        let primaries = Vec::with_capacity(alloc, NOTIFY_ADDRESSES)?;
        Ok(Notifiers {
            primaries,
            strangers: Vec::with_capacity(alloc, NOTIFY_ADDRESSES)?,
        })
    }

    /// This is the address of a primary server. Of more than `NOTIFY_ADDRESSES` the later ones stay strangers.
    pub(crate) fn add_primary(&mut self, addr: Addr) {
        let is_known = self.primaries.iter().any(|known| known.addr == addr);
        if !is_known && self.primaries.len() < NOTIFY_ADDRESSES {
            let _ = self.primaries.push(Notifier::new(addr));
        }
    }

    /// Whether a NOTIFY of this address is looked at, and of whom it is. In `NOTIFY_SECONDS` those are `PRIMARY_NOTIFIES` of a primary
    /// server, one of any other address, and `NOTIFY_ADDRESSES` of all these.
    pub(crate) fn admit(&mut self, addr: Addr, now: Instant) -> Option<NotifyOrigin> {
        for known in self.primaries.iter_mut() {
            if known.addr == addr {
                let is_admitted = known.admit(now, PRIMARY_NOTIFIES);
                return is_admitted.then_some(NotifyOrigin::Primary);
            }
        }
        self.admit_stranger(addr, now)
            .then_some(NotifyOrigin::Stranger)
    }

    // A stranger has its own place, or that of one that isn't counted any more, or a new one.
    fn admit_stranger(&mut self, addr: Addr, now: Instant) -> bool {
        let strangers = &mut self.strangers;
        let own = strangers.iter().position(|known| known.addr == addr);
        let place = own.or_else(|| strangers.iter().position(|known| !known.is_counting(now)));
        let mut next = Notifier::new(addr);
        match place {
            Some(place) if strangers[place].addr == addr => strangers[place].admit(now, 1),
            Some(place) => {
                let is_admitted = next.admit(now, 1);
                strangers[place] = next;
                is_admitted
            }
            None => {
                next.admit(now, 1)
                    && strangers.len() < NOTIFY_ADDRESSES
                    && strangers.push(next).is_ok()
            }
        }
    }
}
