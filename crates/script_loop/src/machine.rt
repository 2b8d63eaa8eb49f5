//! What answers the lines of a script.

ghost use Rattle.std.specs.Prelude.{◌≡◌, ℕ, List, [], Result};
ghost use Rattle.script_loop.specs.declared.machine.AnswerError.TheVariants.{OutOfMemory as NoMemory};
ghost use Rattle.script_loop.specs.Replay.{Steps};

use std::alloc::{AllocError, AllocFailed, Global};

/// Why a line has no answer.
#[derive(Clone, Copy, Debug, PartialEq, Eq)]
pub enum AnswerError<W> {
    /// The machine refuses the line.
    Refused(W),
    /// There is no memory for the answer.
    OutOfMemory,
}

impl<W> From<AllocError> for AnswerError<W> {
    ghost from_gives = { λ _ e. e ≡ NoMemory };

    fn from(_: AllocError) -> Self {
        AnswerError::OutOfMemory
    }
}

impl<W, T: Drop> From<AllocFailed<T>> for AnswerError<W> {
    ghost from_gives = { λ _ e. e ≡ NoMemory };

    fn from(_: AllocFailed<T>) -> Self {
        AnswerError::OutOfMemory
    }
}

/// What answers the lines of a script.
pub trait Machine {
    /// Why a line is refused.
    type Cause: Drop;

    /// The machine after a line and what the line outputs, or why it is refused.
    ghost step: { Self → List ℕ → Result (Self × List ℕ) Self.Cause };

    /// Why a line past the last that a script may have is refused.
    ghost too_many: { Self.Cause };

    /// Why a line that is longer than a line may be is refused.
    ghost too_long: { Self.Cause };

    /// Why a line past line 4,294,967,295 is refused.
    fn too_many() -> Self::Cause
        ensures { result ≡ too_many };

    /// Why a line of more than 200,000 bytes is refused.
    fn too_long() -> Self::Cause
        ensures { result ≡ too_long };

    /// Answers a line, which comes without its line feed. After an error the machine isn't used
    /// again.
    fn answer(
        &mut self,
        alloc: Global,
        line: &[u8],
        reply: &mut Vec<u8>,
    ) -> Result<(), AnswerError<Self::Cause>>
        requires { reply.old.items ≡ [] }
        ensures { Steps (step self.old line.now) result self.new reply.new.items };
}
