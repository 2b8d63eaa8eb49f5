//! Why a server's run ended early.

ghost use Rattle.std.specs.Prelude.{◌≡◌};
ghost use Rattle.rpz_program.specs.Turning.{error_of};

use server_io::WireError;
use std::alloc::{AllocError, AllocFailed};

/// Why a server's run ended before its last turn.
#[derive(Clone, Copy, Debug, PartialEq, Eq)]
pub enum ServeError {
    /// A write of the output has failed: the sink's count of faults has risen.
    WriteFault,
    /// A call of the wires other than `order` has failed: their count of faults has risen.
    SocketFault,
    /// A worker could not be started: the spawner's count of faults has risen.
    StartFault,
    OutOfMemory,
}

impl ServeError {
    /// Why a run ends in which a call of the wires gave nothing.
    pub(crate) fn of_wires(error: WireError) -> ServeError
        ensures { result ≡ error_of error }
    {
        match error {
            WireError::Failed => ServeError::SocketFault,
            WireError::OutOfMemory => ServeError::OutOfMemory,
        }
    }
}

impl From<AllocError> for ServeError {
    ghost use Rattle.std.specs.Prelude.{◌≡◌};
    ghost use Rattle.rpz_program.specs.declared.serve_error.ServeError.TheVariants.{OutOfMemory};

    ghost from_gives = { λ _ e. e ≡ OutOfMemory };

    fn from(_: AllocError) -> Self {
        ServeError::OutOfMemory
    }
}

impl<T: Drop> From<AllocFailed<T>> for ServeError {
    ghost use Rattle.std.specs.Prelude.{◌≡◌};
    ghost use Rattle.rpz_program.specs.declared.serve_error.ServeError.TheVariants.{OutOfMemory};

    ghost from_gives = { λ _ e. e ≡ OutOfMemory };

    fn from(_: AllocFailed<T>) -> Self {
        ServeError::OutOfMemory
    }
}
