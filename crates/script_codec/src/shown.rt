//! What a line of the transcript shows.

use crate::zone_fault::ZoneFault;
use dns_name::Octets;

/// What a line of the transcript shows.
#[derive(Debug, Drop)]
pub enum Shown {
    /// The zone of this number took the transfer: its new serial, and how many rows it has.
    Taken { zone: u32, serial: u32, rows: usize },
    /// The zone of this number is as new as the transfer.
    Current { zone: u32, serial: u32 },
    /// The zone of this number doesn't take the transfer, and is as before.
    Refused { zone: u32, why: ZoneFault },
    /// The question that this worker asks the upstream.
    Ask { worker: u32, message: Octets },
    /// The reply to the query of this worker.
    Reply { worker: u32, message: Octets },
    /// The query of this worker gets no reply.
    Silent { worker: u32 },
    /// The reply to a NOTIFY.
    Notified { message: Octets },
    /// What came as a NOTIFY gets no reply.
    Hush,
    /// The first zone that is due, by its number; 0 where none is.
    Due { zone: u32 },
}
