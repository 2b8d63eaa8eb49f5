//! Why a transfer is refused.

ghost use Rattle.std.specs.Prelude.{◌≡◌};
ghost use Rattle.axfr_apply.specs.declared.fault.TransferError.TheVariants.{OutOfMemory, Fault as AFault};
ghost use Rattle.axfr_apply.specs.Becomes.{FrameBecomes, MessageBecomes};

use dns_message::MessageError;
use edge_io::{FrameError, FrameFault};
use std::alloc::{AllocError, AllocFailed};

/// What is wrong with a transfer: the first fault, in the order of its messages and records. The faults
/// of one message or record come in this order, with two exceptions: [`TransferFault::TooManyRecords`]
/// comes before all others, and [`TransferFault::TrailingRecord`] before all others of a record.
#[derive(Clone, Copy, Debug, PartialEq, Eq)]
pub enum TransferFault {
    /// A read has failed.
    ReadFault,
    /// The stream ended inside a frame.
    Cut,
    /// The stream ended between frames, before the zone was whole.
    EndedEarly,
    /// A message can't be read.
    BadMessage,
    /// A message has another ID than the request.
    WrongId,
    /// A message is no response, or its opcode isn't 0.
    NotResponse,
    /// A message is truncated.
    Truncated,
    /// A message has this response code, which isn't 0.
    Rcode(u8),
    /// A message has another question than the request, or the first has none (RFC 5936, section 2.2.2).
    WrongQuestion,
    /// The first record is no SOA.
    NoLeadingSoa,
    /// A record isn't of class IN.
    WrongClass,
    /// A record other than a SOA belongs neither to the zone's name nor to one below it.
    OutOfZone,
    /// A SOA belongs to another name than the zone's.
    WrongSoaOwner,
    /// The SOA that closes the transfer has another serial (`last`) than the first.
    SoaDiffers { first: u32, last: u32 },
    /// A step of an incremental transfer begins at another serial (`found`) than the one that we have, or than the one at which
    /// the step before it ended (`expected`).
    Gap { expected: u32, found: u32 },
    /// A serial (`theirs`) isn't newer than the one before it (`ours`, RFC 1982): that of the zone is neither ours nor newer, or a
    /// step doesn't go forward.
    SerialNotNewer { ours: u32, theirs: u32 },
    /// A record stands behind the SOA that closes the transfer, in the same message, whatever else is wrong with it.
    TrailingRecord,
    /// There are too many messages and records: this is the number of the last, counted together from 1.
    TooManyRecords { at: u32 },
    /// The transfer has ended before: by a fault, out of memory, or as a whole.
    Finished,
}

/// Why a transfer gives nothing: a fault, or no memory.
#[derive(Clone, Copy, Debug, PartialEq, Eq)]
pub enum TransferError {
    OutOfMemory,
    Fault(TransferFault),
}

impl From<AllocError> for TransferError {
    ghost from_gives = { λ _ e. e ≡ OutOfMemory };

    fn from(_e: AllocError) -> TransferError {
        TransferError::OutOfMemory
    }
}

impl<T: Drop> From<AllocFailed<T>> for TransferError {
    ghost from_gives = { λ _ e. e ≡ OutOfMemory };

    fn from(_e: AllocFailed<T>) -> TransferError {
        TransferError::OutOfMemory
    }
}

impl From<TransferFault> for TransferError {
    ghost from_gives = { λ fault e. e ≡ AFault fault };

    fn from(fault: TransferFault) -> TransferError {
        TransferError::Fault(fault)
    }
}

/// A message that can't be read is a bad one, whatever is wrong with it.
impl From<MessageError> for TransferError {
    ghost from_gives = { MessageBecomes };

    fn from(error: MessageError) -> TransferError {
        match error {
            MessageError::OutOfMemory => TransferError::OutOfMemory,
            MessageError::Fault(_) => TransferError::Fault(TransferFault::BadMessage),
        }
    }
}

impl From<FrameError> for TransferError {
    ghost from_gives = { FrameBecomes };

    fn from(error: FrameError) -> TransferError {
        match error {
            FrameError::OutOfMemory => TransferError::OutOfMemory,
            FrameError::Fault(FrameFault::ReadFault) => {
                TransferError::Fault(TransferFault::ReadFault)
            }
            FrameError::Fault(FrameFault::Cut) => TransferError::Fault(TransferFault::Cut),
        }
    }
}
