//! Why a bench ended early.

use crate::difference::Difference;
use axfr_apply::TransferError;
use dns_message::MessageError;
use dns_name::{JoinError, NameError, TextError};
use dns_record::RecordError;
use edge_io::{FrameError, SinkError};
use rpz_core::CoreError;
use script_codec::{LineError, UnnumberedError};
use std::alloc::{AllocError, AllocFailed};
use std::io;
use trigger_codec::TriggerError;
use zone_rows::ApplyError;

/// Why a bench ended early.
#[derive(Debug, Drop)]
pub enum BenchError {
    OutOfMemory,
    /// The words name no bench, or are not those that it takes.
    Words,
    Origin(TextError),
    /// The input ended before a transfer did.
    Ended,
    Frame(FrameError),
    Transfer(TransferError),
    /// A transfer has nothing newer than the zone.
    Current,
    Apply(ApplyError),
    /// A zone differs from the plain list after the transfer of this number, from 1.
    Differs {
        transfer: u64,
        difference: Difference,
    },
    /// There is no transfer.
    Empty,
    /// There are more than 64 zones, or a transfer was not taken.
    NotTaken,
    /// The line is neither `query` nor `give`.
    OtherLine,
    Line(UnnumberedError),
    Core(CoreError),
    /// What the upstream gave can't be read, or has no question.
    Message(MessageError),
    NoQuestion,
    /// A message is too long to be written behind its length.
    Long,
    Write(SinkError),
    Name(NameError),
    Join(JoinError),
    Record(RecordError),
    Trigger(TriggerError),
    Numbered(LineError),
    /// There was no memory to show what a call made of the value that it changes.
    NotShown,
    /// A thread could not be made, a line not be written, or no seed be drawn.
    System,
}

impl From<AllocError> for BenchError {
    fn from(_error: AllocError) -> Self {
        BenchError::OutOfMemory
    }
}

impl<T: Drop> From<AllocFailed<T>> for BenchError {
    fn from(_error: AllocFailed<T>) -> Self {
        BenchError::OutOfMemory
    }
}

impl From<TextError> for BenchError {
    fn from(error: TextError) -> Self {
        BenchError::Origin(error)
    }
}

impl From<FrameError> for BenchError {
    fn from(error: FrameError) -> Self {
        BenchError::Frame(error)
    }
}

impl From<TransferError> for BenchError {
    fn from(error: TransferError) -> Self {
        BenchError::Transfer(error)
    }
}

impl From<ApplyError> for BenchError {
    fn from(error: ApplyError) -> Self {
        BenchError::Apply(error)
    }
}

impl From<UnnumberedError> for BenchError {
    fn from(error: UnnumberedError) -> Self {
        BenchError::Line(error)
    }
}

impl From<CoreError> for BenchError {
    fn from(error: CoreError) -> Self {
        BenchError::Core(error)
    }
}

impl From<MessageError> for BenchError {
    fn from(error: MessageError) -> Self {
        BenchError::Message(error)
    }
}

impl From<SinkError> for BenchError {
    fn from(error: SinkError) -> Self {
        BenchError::Write(error)
    }
}

impl From<io::Error> for BenchError {
    fn from(_error: io::Error) -> Self {
        BenchError::System
    }
}

impl From<NameError> for BenchError {
    fn from(error: NameError) -> Self {
        BenchError::Name(error)
    }
}

impl From<JoinError> for BenchError {
    fn from(error: JoinError) -> Self {
        BenchError::Join(error)
    }
}

impl From<RecordError> for BenchError {
    fn from(error: RecordError) -> Self {
        BenchError::Record(error)
    }
}

impl From<TriggerError> for BenchError {
    fn from(error: TriggerError) -> Self {
        BenchError::Trigger(error)
    }
}

impl From<LineError> for BenchError {
    fn from(error: LineError) -> Self {
        BenchError::Numbered(error)
    }
}

impl BenchError {
    /// Whether an allocation failed.
    pub fn is_out_of_memory(&self) -> bool {
        match self {
            BenchError::OutOfMemory => true,
            BenchError::Origin(error) => *error == TextError::OutOfMemory,
            BenchError::Frame(error) => *error == FrameError::OutOfMemory,
            BenchError::Transfer(error) => *error == TransferError::OutOfMemory,
            BenchError::Apply(error) => *error == ApplyError::OutOfMemory,
            BenchError::Line(error) => *error == UnnumberedError::OutOfMemory,
            BenchError::Core(error) => *error == CoreError::OutOfMemory,
            BenchError::Message(error) => *error == MessageError::OutOfMemory,
            BenchError::Write(error) => *error == SinkError::OutOfMemory,
            BenchError::Name(error) => *error == NameError::OutOfMemory,
            BenchError::Join(error) => *error == JoinError::OutOfMemory,
            BenchError::Record(error) => *error == RecordError::OutOfMemory,
            BenchError::Trigger(error) => *error == TriggerError::OutOfMemory,
            BenchError::Numbered(error) => *error == LineError::OutOfMemory,
            _ => false,
        }
    }
}
