//! Why a message could not be read.

ghost use Rattle.std.specs.Prelude.{◌≡◌};
ghost use Rattle.dns_message.specs.declared.fault.MessageError.TheVariants.{OutOfMemory, Fault as AFault};
ghost use Rattle.dns_message.specs.Becomes.{BecomesMessageError};

use dns_record::{RecordError, RecordFault};
use std::alloc::{AllocError, AllocFailed};

/// What is wrong with a message: the first of this list that applies, and of the faults of records that of
/// the first record that has one.
#[derive(Clone, Copy, Debug, PartialEq, Eq)]
pub enum MessageFault {
    /// There are under 12 bytes, or the question reaches past the end, or its name is faulty.
    Short,
    /// There is more than one question. The count alone decides it, before anything behind the header is looked at.
    Question,
    /// A record is faulty.
    Record(RecordFault),
    /// Bytes stand behind the last record.
    Trailing,
    /// A second OPT record stands in the additional section (RFC 6891, section 6.1.1).
    TwoOpts,
}

/// Why a message could not be read: a fault of the bytes, or out of memory.
#[derive(Clone, Copy, Debug, PartialEq, Eq)]
pub enum MessageError {
    OutOfMemory,
    Fault(MessageFault),
}

impl From<AllocError> for MessageError {
    ghost from_gives = { λ _ e. e ≡ OutOfMemory };

    fn from(_e: AllocError) -> MessageError {
        MessageError::OutOfMemory
    }
}

impl<T: Drop> From<AllocFailed<T>> for MessageError {
    ghost from_gives = { λ _ e. e ≡ OutOfMemory };

    fn from(_e: AllocFailed<T>) -> MessageError {
        MessageError::OutOfMemory
    }
}

impl From<MessageFault> for MessageError {
    ghost from_gives = { λ fault e. e ≡ AFault fault };

    fn from(fault: MessageFault) -> MessageError {
        MessageError::Fault(fault)
    }
}

impl From<RecordError> for MessageError {
    ghost from_gives = { BecomesMessageError };

    fn from(error: RecordError) -> MessageError {
        match error {
            RecordError::OutOfMemory => MessageError::OutOfMemory,
            RecordError::Fault(fault) => MessageError::Fault(MessageFault::Record(fault)),
        }
    }
}
