//! Why a line of a script is refused.

ghost use Rattle.std.specs.Prelude.{◌≡◌, Some};
ghost use Rattle.script_codec.specs.LineFault.{why_text};
ghost use Rattle.script_codec.specs.declared.line_fault.UnnumberedError.TheVariants.{OutOfMemory, Refused};

use std::alloc::AllocError;
use std::fmt;

/// Why a line of a script is refused, in the order in which the reasons are looked for: first what
/// concerns the whole line, then each field from the left, then the state.
#[derive(Clone, Copy, Debug, PartialEq, Eq)]
pub enum LineFault {
    /// The number of the line is over 4,294,967,295.
    Lines,
    /// The line has over 200,000 bytes.
    TooLong,
    /// A byte is outside 32 to 126.
    Char,
    /// The first word is none of a kind of line.
    Word,
    /// The number of fields is not that of the kind of line, or a field is empty.
    Fields,
    /// The field is no name as text.
    Name,
    /// The word behind the name of a zone is no override.
    Override,
    /// A zone is opened or given a primary, or a network is allowed, after a line of another kind than these three.
    Late,
    /// As many zones are open as may be, or as many networks are allowed: 64 of each.
    Many,
    /// The zone is open already, or has a primary already, or the network is allowed already.
    Repeated,
    /// The field is not a number of 1 to 10 decimal digits that is at most 4,294,967,295.
    Number,
    /// There is no zone of this number.
    NoZone,
    /// The number of the worker is over 15.
    NoWorker,
    /// The field is neither `udp` nor `tcp`.
    Transport,
    /// The field is neither four decimals nor 32 hexadecimal digits.
    Address,
    /// The field is no network: an address of four decimals, or of groups of hexadecimal digits with colons, a `/`, and a length in
    /// its bounds, behind which no bit of the address is 1.
    Prefix,
    /// The field is neither `-` nor an even number of hexadecimal digits.
    Hex,
    /// The message has over 65,535 bytes.
    Long,
    /// The worker has a pending query.
    Busy,
    /// The worker has no pending query.
    Idle,
}

impl fmt::Display for LineFault {
    ghost output = { λ why. Some (why_text why) };

    fn fmt<W: fmt::Write>(&self, f: &mut fmt::Formatter<W>) -> fmt::Result {
        let name = match self {
            LineFault::Lines => "Lines",
            LineFault::TooLong => "TooLong",
            LineFault::Char => "Char",
            LineFault::Word => "Word",
            LineFault::Fields => "Fields",
            LineFault::Name => "Name",
            LineFault::Override => "Override",
            LineFault::Late => "Late",
            LineFault::Many => "Many",
            LineFault::Repeated => "Repeated",
            LineFault::Number => "Number",
            LineFault::NoZone => "NoZone",
            LineFault::NoWorker => "NoWorker",
            LineFault::Transport => "Transport",
            LineFault::Address => "Address",
            LineFault::Prefix => "Prefix",
            LineFault::Hex => "Hex",
            LineFault::Long => "Long",
            LineFault::Busy => "Busy",
            LineFault::Idle => "Idle",
        };
        f.write_str(name)
    }
}

/// A line that is refused.
#[derive(Clone, Copy, Debug, PartialEq, Eq)]
pub struct BadLine {
    /// Its number. Line 1 is the first.
    pub line: u64,
    /// The first reason that applies.
    pub why: LineFault,
}

/// Why a line could not be read: it is refused, or there was no memory.
#[derive(Clone, Copy, Debug, PartialEq, Eq)]
pub enum LineError {
    OutOfMemory,
    BadLine(BadLine),
}

/// The same, without the number of the line.
#[derive(Clone, Copy, Debug, PartialEq, Eq)]
pub enum UnnumberedError {
    OutOfMemory,
    Refused(LineFault),
}

impl From<AllocError> for UnnumberedError {
    ghost from_gives = { λ _ e. e ≡ OutOfMemory };

    fn from(_e: AllocError) -> UnnumberedError {
        UnnumberedError::OutOfMemory
    }
}

impl From<LineFault> for UnnumberedError {
    ghost from_gives = { λ why e. e ≡ Refused why };

    fn from(why: LineFault) -> UnnumberedError {
        UnnumberedError::Refused(why)
    }
}
