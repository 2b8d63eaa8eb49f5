//! Why an owner names no trigger.

ghost use Rattle.std.specs.Prelude.{◌≡◌};
ghost use Rattle.trigger_codec.specs.declared.inert.TriggerError.TheVariants.{OutOfMemory, Inert as AnInert};

use std::alloc::{AllocError, AllocFailed};

/// Why the owner of a rule names no trigger, so that the rule does nothing. Where several reasons hold, the
/// first of this list is the one that is given.
#[derive(Clone, Copy, Debug, PartialEq, Eq)]
pub enum Inert {
    /// The owner is not the zone's origin and not below it.
    OutOfZone,
    /// The owner is the zone's origin.
    Apex,
    /// The last label before the origin's begins `rpz-` and names no kind of trigger, or it is `rpz-nsdname`
    /// and nothing stands before it.
    Marker,
    /// The labels before the one that names the kind are no length and address.
    Address,
    /// The length is 0, or above the address's number of bits: 32 in version 4, 128 in version 6.
    Length,
    /// A bit of the address behind the length is 1.
    HostBits,
}

/// Why an owner was not read: it names no trigger, or memory is out.
#[derive(Clone, Copy, Debug, PartialEq, Eq)]
pub enum TriggerError {
    OutOfMemory,
    Inert(Inert),
}

impl From<AllocError> for TriggerError {
    ghost from_gives = { λ _ e. e ≡ OutOfMemory };

    fn from(_e: AllocError) -> TriggerError {
        TriggerError::OutOfMemory
    }
}

impl<T: Drop> From<AllocFailed<T>> for TriggerError {
    ghost from_gives = { λ _ e. e ≡ OutOfMemory };

    fn from(_e: AllocFailed<T>) -> TriggerError {
        TriggerError::OutOfMemory
    }
}

impl From<Inert> for TriggerError {
    ghost from_gives = { λ inert e. e ≡ AnInert inert };

    fn from(inert: Inert) -> TriggerError {
        TriggerError::Inert(inert)
    }
}
