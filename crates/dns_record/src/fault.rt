//! Why a record could not be read.

ghost use Rattle.std.specs.Prelude.{◌≡◌};
ghost use Rattle.dns_record.specs.declared.fault.RecordError.TheVariants.{OutOfMemory, Fault as AFault};
ghost use Rattle.dns_record.specs.Becomes.{BecomesRecordError};

use dns_name::{NameError, NameFault};
use std::alloc::{AllocError, AllocFailed};

/// What is wrong with a record in a message.
#[derive(Clone, Copy, Debug, PartialEq, Eq)]
pub enum RecordFault {
    /// The owner is no name.
    Name(NameFault),
    /// The ten bytes behind the owner, or the data, reach past the end of the message.
    Short,
    /// The data is not such as the type and class have, or does not fill its length exactly, or a name in
    /// it is no name.
    Data,
}

/// Why a record could not be read: a fault of the bytes, or out of memory.
#[derive(Clone, Copy, Debug, PartialEq, Eq)]
pub enum RecordError {
    OutOfMemory,
    Fault(RecordFault),
}

impl From<AllocError> for RecordError {
    ghost from_gives = { λ _ e. e ≡ OutOfMemory };

    fn from(_e: AllocError) -> RecordError {
        RecordError::OutOfMemory
    }
}

impl<T: Drop> From<AllocFailed<T>> for RecordError {
    ghost from_gives = { λ _ e. e ≡ OutOfMemory };

    fn from(_e: AllocFailed<T>) -> RecordError {
        RecordError::OutOfMemory
    }
}

impl From<RecordFault> for RecordError {
    ghost from_gives = { λ fault e. e ≡ AFault fault };

    fn from(fault: RecordFault) -> RecordError {
        RecordError::Fault(fault)
    }
}

/// An error of a name is the error of the owner.
impl From<NameError> for RecordError {
    ghost from_gives = { BecomesRecordError };

    fn from(error: NameError) -> RecordError {
        match error {
            NameError::OutOfMemory => RecordError::OutOfMemory,
            NameError::Fault(fault) => RecordError::Fault(RecordFault::Name(fault)),
        }
    }
}
