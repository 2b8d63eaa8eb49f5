//! Why a name could not be read, from a message or from text, or made of two others.

ghost use Rattle.std.specs.Prelude.{◌≡◌};
ghost use Rattle.dns_name.specs.declared.fault.NameError.TheVariants.{OutOfMemory, Fault as AFault};
ghost use Rattle.dns_name.specs.declared.fault.TextError.TheVariants.{OutOfMemory as NoMemory, Fault as AText};
ghost use Rattle.dns_name.specs.declared.fault.JoinError.TheVariants.{OutOfMemory as NoRoom, Fault as ALength};

use std::alloc::{AllocError, AllocFailed};

/// What is wrong with a name in a message, by the first byte that shows it. Where one byte shows
/// several faults, it is the first of this list.
#[derive(Clone, Copy, Debug, PartialEq, Eq)]
pub enum NameFault {
    /// A length byte, a label or a pointer reaches past the end of the message.
    Short,
    /// A length byte begins with the bits 01 or 10 (RFC 1035, section 4.1.4).
    LabelType,
    /// A compression pointer does not lead before the place where the labels in front of it began, or,
    /// where there are none, before itself (RFC 1035, section 4.1.4, speaks of a prior occurrence).
    Pointer,
    /// The name would be longer than 255 bytes, its closing zero counted (RFC 1035, section 2.3.4).
    TooLong,
}

/// Why a name could not be read: a fault of the bytes, or out of memory.
#[derive(Clone, Copy, Debug, PartialEq, Eq)]
pub enum NameError {
    OutOfMemory,
    Fault(NameFault),
}

impl From<AllocError> for NameError {
    ghost from_gives = { λ _ e. e ≡ OutOfMemory };

    fn from(_e: AllocError) -> NameError {
        NameError::OutOfMemory
    }
}

impl<T: Drop> From<AllocFailed<T>> for NameError {
    ghost from_gives = { λ _ e. e ≡ OutOfMemory };

    fn from(_e: AllocFailed<T>) -> NameError {
        NameError::OutOfMemory
    }
}

impl From<NameFault> for NameError {
    ghost from_gives = { λ fault e. e ≡ AFault fault };

    fn from(fault: NameFault) -> NameError {
        NameError::Fault(fault)
    }
}

/// What is wrong with a name as text. Where there are several faults, it is the first in the order `Empty`,
/// `Char`, `Label`, `TooLong`.
#[derive(Clone, Copy, Debug, PartialEq, Eq)]
pub enum TextFault {
    /// There is no label: the text is empty, or one dot.
    Empty,
    /// A label is empty, or has more than 63 bytes (RFC 1035, section 2.3.4).
    Label,
    /// A byte is no ASCII letter, no digit and none of `-`, `_`, `*` and the dot.
    Char,
    /// The name would be written in more than 255 bytes (RFC 1035, section 2.3.4).
    TooLong,
}

/// Why a text is no name: a fault of the text, or out of memory.
#[derive(Clone, Copy, Debug, PartialEq, Eq)]
pub enum TextError {
    OutOfMemory,
    Fault(TextFault),
}

impl From<AllocError> for TextError {
    ghost from_gives = { λ _ e. e ≡ NoMemory };

    fn from(_e: AllocError) -> TextError {
        TextError::OutOfMemory
    }
}

impl<T: Drop> From<AllocFailed<T>> for TextError {
    ghost from_gives = { λ _ e. e ≡ NoMemory };

    fn from(_e: AllocFailed<T>) -> TextError {
        TextError::OutOfMemory
    }
}

impl From<TextFault> for TextError {
    ghost from_gives = { λ fault e. e ≡ AText fault };

    fn from(fault: TextFault) -> TextError {
        TextError::Fault(fault)
    }
}

/// The labels of two names would be written in more than 255 bytes (RFC 1035, section 2.3.4).
#[derive(Clone, Copy, Debug, PartialEq, Eq)]
pub struct TooLong;

/// Why two names were not joined: the name would be too long, or out of memory.
#[derive(Clone, Copy, Debug, PartialEq, Eq)]
pub enum JoinError {
    OutOfMemory,
    Fault(TooLong),
}

impl From<AllocError> for JoinError {
    ghost from_gives = { λ _ e. e ≡ NoRoom };

    fn from(_e: AllocError) -> JoinError {
        JoinError::OutOfMemory
    }
}

impl<T: Drop> From<AllocFailed<T>> for JoinError {
    ghost from_gives = { λ _ e. e ≡ NoRoom };

    fn from(_e: AllocFailed<T>) -> JoinError {
        JoinError::OutOfMemory
    }
}

impl From<TooLong> for JoinError {
    ghost from_gives = { λ fault e. e ≡ ALength fault };

    fn from(fault: TooLong) -> JoinError {
        JoinError::Fault(fault)
    }
}
