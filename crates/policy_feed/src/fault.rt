//! Why a poll publishes nothing.

ghost use Rattle.std.specs.Prelude.{◌≡◌};
ghost use Rattle.policy_feed.specs.declared.fault.FeedError.TheVariants.{OutOfMemory, Fault as AFault};

use axfr_apply::TransferFault;
use std::alloc::AllocError;
use zone_rows::ApplyFault;

/// Why a poll of a zone publishes nothing, where the zone isn't current.
#[derive(Clone, Copy, Debug, PartialEq, Eq)]
pub enum FeedFault {
    /// The stream has this fault.
    Transfer(TransferFault),
    /// The zone can't take what the stream has.
    Apply(ApplyFault),
}

/// A fault of a poll, or out of memory.
#[derive(Clone, Copy, Debug, PartialEq, Eq)]
pub enum FeedError {
    OutOfMemory,
    Fault(FeedFault),
}

impl From<AllocError> for FeedError {
    ghost from_gives = { λ _ e. e ≡ OutOfMemory };

    fn from(_: AllocError) -> FeedError {
        FeedError::OutOfMemory
    }
}

impl From<FeedFault> for FeedError {
    ghost from_gives = { λ fault e. e ≡ AFault fault };

    fn from(fault: FeedFault) -> FeedError {
        FeedError::Fault(fault)
    }
}
