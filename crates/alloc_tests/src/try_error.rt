//! Why a call ended early.

use dns_name::{NameError, TextError};
use dns_record::RecordError;
use std::alloc::{AllocError, AllocFailed};
use std::io;
use trigger_codec::TriggerError;
use zone_rows::ApplyError;

/// Why a call ended early.
#[derive(Debug, Drop)]
pub enum TryError {
    OutOfMemory,
    /// The word names no call.
    Words,
    /// A sample isn't what it is taken for.
    Sample,
    Text(TextError),
    Name(NameError),
    Record(RecordError),
    Trigger(TriggerError),
    Apply(ApplyError),
    /// There was no memory to show what a call made of the value that it changes.
    NotShown,
    /// A line could not be written, or no seed be drawn.
    System,
}

impl From<AllocError> for TryError {
    fn from(_error: AllocError) -> Self {
        TryError::OutOfMemory
    }
}

impl<T: Drop> From<AllocFailed<T>> for TryError {
    fn from(_error: AllocFailed<T>) -> Self {
        TryError::OutOfMemory
    }
}

impl From<TextError> for TryError {
    fn from(error: TextError) -> Self {
        TryError::Text(error)
    }
}

impl From<NameError> for TryError {
    fn from(error: NameError) -> Self {
        TryError::Name(error)
    }
}

impl From<RecordError> for TryError {
    fn from(error: RecordError) -> Self {
        TryError::Record(error)
    }
}

impl From<TriggerError> for TryError {
    fn from(error: TriggerError) -> Self {
        TryError::Trigger(error)
    }
}

impl From<ApplyError> for TryError {
    fn from(error: ApplyError) -> Self {
        TryError::Apply(error)
    }
}

impl From<io::Error> for TryError {
    fn from(_error: io::Error) -> Self {
        TryError::System
    }
}

impl TryError {
    /// Whether an allocation failed.
    pub fn is_out_of_memory(&self) -> bool {
        match self {
            TryError::OutOfMemory => true,
            TryError::Text(error) => *error == TextError::OutOfMemory,
            TryError::Name(error) => *error == NameError::OutOfMemory,
            TryError::Record(error) => *error == RecordError::OutOfMemory,
            TryError::Trigger(error) => *error == TriggerError::OutOfMemory,
            TryError::Apply(error) => *error == ApplyError::OutOfMemory,
            _ => false,
        }
    }
}
