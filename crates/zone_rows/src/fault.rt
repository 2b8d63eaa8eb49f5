//! Why a transfer could not be applied.

ghost use Rattle.std.specs.Prelude.{◌≡◌};
ghost use Rattle.zone_rows.specs.declared.fault.ApplyError.TheVariants.{OutOfMemory, Fault as AFault};

use std::alloc::{AllocError, AllocFailed};

/// Why a zone can't take a transfer.
#[derive(Clone, Copy, Debug, PartialEq, Eq)]
pub enum ApplyFault {
    /// The zone is loaded, and the serial of the transfer (`theirs`) isn't newer than that of the zone
    /// (`ours`), by RFC 1982.
    SerialNotNewer { ours: u32, theirs: u32 },
    /// An incremental transfer begins at another version (`found`) than that of the zone (`expected`). A zone with nothing
    /// loaded has 0 for its own, and an incremental transfer without a step the zone's own for both.
    Gap { expected: u32, found: u32 },
    /// A step takes out a row that isn't there; steps and rows are numbered from 1 on.
    DeleteAbsent { step: u32, row: u32 },
    /// A step puts in a row that is there already; steps and rows are numbered from 1 on.
    AddPresent { step: u32, row: u32 },
    /// The zone would have so many rows or more, repeats not counted.
    TooManyRows { at: u32 },
}

/// Why a transfer could not be applied: a fault of the transfer, or no memory.
#[derive(Clone, Copy, Debug, PartialEq, Eq)]
pub enum ApplyError {
    OutOfMemory,
    Fault(ApplyFault),
}

impl From<AllocError> for ApplyError {
    ghost from_gives = { λ _ e. e ≡ OutOfMemory };

    fn from(_e: AllocError) -> ApplyError {
        ApplyError::OutOfMemory
    }
}

impl<T: Drop> From<AllocFailed<T>> for ApplyError {
    ghost from_gives = { λ _ e. e ≡ OutOfMemory };

    fn from(_e: AllocFailed<T>) -> ApplyError {
        ApplyError::OutOfMemory
    }
}

impl From<ApplyFault> for ApplyError {
    ghost from_gives = { λ fault e. e ≡ AFault fault };

    fn from(fault: ApplyFault) -> ApplyError {
        ApplyError::Fault(fault)
    }
}
