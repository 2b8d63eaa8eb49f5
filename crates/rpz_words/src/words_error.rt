//! Why words could not be read.

ghost use Rattle.std.specs.Prelude.{◌≡◌};
ghost use Rattle.rpz_words.specs.declared.words_error.WordsError.TheVariants.{OutOfMemory, Usage};

use crate::usage_cause::UsageCause;
use std::alloc::AllocError;

/// Why words could not be read.
#[derive(Clone, Copy, Debug, PartialEq, Eq)]
pub enum WordsError {
    /// An allocation failed.
    OutOfMemory,
    /// The words are none that the program takes, and why.
    Usage(UsageCause),
}

impl From<AllocError> for WordsError {
    ghost from_gives = { λ _ e. e ≡ OutOfMemory };

    fn from(_e: AllocError) -> WordsError {
        WordsError::OutOfMemory
    }
}

impl From<UsageCause> for WordsError {
    ghost from_gives = { λ cause e. e ≡ Usage cause };

    fn from(cause: UsageCause) -> WordsError {
        WordsError::Usage(cause)
    }
}
