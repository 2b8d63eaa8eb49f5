//! Why rows can't be edited.

ghost use Rattle.std.specs.Prelude.{◌≡◌};
ghost use Rattle.zone_index.specs.declared.edit_error.EditError.TheVariants.{OutOfMemory as NoMemory};

use std::alloc::AllocError;
use zone_rows::ApplyFault;

/// Why the rows of a zone can't be edited as steps say.
#[derive(Clone, Copy, Drop)]
pub(crate) enum EditError {
    OutOfMemory,
    /// Making the zone anew takes less time.
    TooMuchWork,
    /// The steps have a fault.
    Fault(ApplyFault),
}

impl From<AllocError> for EditError {
    ghost from_gives = { λ _ e. e ≡ NoMemory };

    fn from(_e: AllocError) -> EditError {
        EditError::OutOfMemory
    }
}
