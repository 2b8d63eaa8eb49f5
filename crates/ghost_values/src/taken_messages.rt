//! Messages that contracts alone see.
ghost use Rattle.std.specs.Prelude.{◌≡◌, ◌++◌, ◌∷◌, [], List, ℕ};

use crate::kept::{Kept, Lists};
use std::marker::Model;
use std::mem::size_of;

/// The messages that were taken so far, in order: a list that proofs alone keep. It takes no bytes. So a clause about it says what was
/// told to it, one message after another; what a struct keeps beside it must be tied to it by an invariant.
#[derive(Drop)]
pub struct TakenMessages {
    kept: Kept,
}

impl Model for TakenMessages {
    ghost Value = { List (List ℕ) };

    ghost view = { λ t. t.kept.messages };
}

impl TakenMessages {
    /// No message yet.
    pub fn none() -> TakenMessages
        ensures { result ≡ [] }
    {
        TakenMessages {
            kept: Kept::of::<(), Nothing>(&()),
        }
    }

    /// These, and the message after them.
    pub fn with(&self, message: &[u8]) -> TakenMessages
        ensures { result ≡ self.now ++ message.now ∷ [] }
    {
        let extended = Extended {
            before: self,
            message,
        };
        TakenMessages {
            kept: Kept::of::<Extended<'_>, OneMore>(&extended),
        }
    }
}

struct Nothing;

impl Lists<()> for Nothing {
    ghost messages = { λ _. [] };
}

#[derive(Drop)]
struct Extended<'a> {
    before: &'a TakenMessages,
    message: &'a [u8],
}

struct OneMore;

impl<'a> Lists<Extended<'a>> for OneMore {
    ghost messages = { λ extended. extended.before.now ++ extended.message.now ∷ [] };
}

// It takes no bytes.
const _: () = prove!(size_of::<TakenMessages>() == 0);
