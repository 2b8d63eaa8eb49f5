//! The events of the core, their outputs, and why an event is refused.

ghost use Rattle.std.specs.Prelude.{◌≡◌};
ghost use Rattle.rpz_core.specs.declared.event.CoreError.TheVariants.{OutOfMemory, Fault as AFault};

use dns_name::Octets;
use ip_prefix::{Addr, Transport};
use ixfr_apply::Refusal;
use std::alloc::{AllocError, AllocFailed};

/// What happens to the core.
#[derive(Debug, Drop)]
pub enum Event {
    /// A stream comes as the transfer of the zone of this number: each message behind its length in two bytes.
    Transfer {
        zone: u32,
        stream: Octets,
    },
    /// The zone of this number is to be transferred in full next.
    Full {
        zone: u32,
    },
    /// A message of a client at this address comes to this worker.
    Query {
        worker: u32,
        transport: Transport,
        client: Addr,
        message: Octets,
    },
    /// These bytes come for the question that this worker asked.
    Give {
        worker: u32,
        message: Octets,
    },
    /// Nothing comes for the question that this worker asked.
    Fail {
        worker: u32,
    },
    /// A message of a client at this address comes, which may be a NOTIFY (RFC 1996).
    Notify {
        client: Addr,
        message: Octets,
    },
    /// Which zone is due?
    Due,
    /// It is so many seconds.
    Clock {
        seconds: u32,
    },
}

/// What an event outputs.
#[derive(Debug, Drop)]
pub enum Output {
    /// The zone of this number took a transfer: its serial now, and how many rows it has.
    Taken { zone: u32, serial: u32, rows: usize },
    /// The zone of this number is as new as the transfer.
    Current { zone: u32, serial: u32 },
    /// The zone of this number doesn't take the transfer, and is as before.
    Refused { zone: u32, refusal: Refusal },
    /// What this worker asks the upstream.
    Ask { worker: u32, message: Octets },
    /// The reply to the query of this worker.
    Reply { worker: u32, message: Octets },
    /// The query of this worker gets no reply.
    Silent { worker: u32 },
    /// The reply to what came as a NOTIFY.
    Notified { message: Octets },
    /// What came as a NOTIFY gets no reply.
    Hush,
    /// The first zone that is due, by its number; 0 where none is.
    Due { zone: u32 },
    /// Nothing: the output of Full and Clock.
    None,
}

/// Why the core refuses an event.
#[derive(Clone, Copy, Debug, PartialEq, Eq)]
pub enum CoreFault {
    /// No zone has this number: it is 0, or greater than the number of zones.
    NoZone,
    /// No worker has this number: it is over 15.
    NoWorker,
    /// A query comes to a worker whose query is pending.
    Pending,
    /// An answer comes, or fails, for a worker that has no pending query.
    NotPending,
}

/// Why a step isn't made.
#[derive(Clone, Copy, Debug, PartialEq, Eq)]
pub enum CoreError {
    OutOfMemory,
    Fault(CoreFault),
}

impl From<AllocError> for CoreError {
    ghost from_gives = { λ _ e. e ≡ OutOfMemory };

    fn from(_: AllocError) -> CoreError {
        CoreError::OutOfMemory
    }
}

impl<T: Drop> From<AllocFailed<T>> for CoreError {
    ghost from_gives = { λ _ e. e ≡ OutOfMemory };

    fn from(_: AllocFailed<T>) -> CoreError {
        CoreError::OutOfMemory
    }
}

impl From<CoreFault> for CoreError {
    ghost from_gives = { λ fault e. e ≡ AFault fault };

    fn from(fault: CoreFault) -> CoreError {
        CoreError::Fault(fault)
    }
}
