//! The list itself.

ghost use Rattle.std.specs.Borrow.{ftrue};
ghost use Rattle.std.specs.Coded.{coded_list, coded_ℕ};
ghost use Rattle.std.specs.Prelude.{◌≡◌, List, ℕ};

use std::marker::{Model, PhantomData};

/// Which messages a clause reads off an `X`.
pub trait Lists<X> {
    ghost messages: { X → List (List ℕ) };
}

/// Messages, in proofs alone.
#[derive(Drop)]
pub struct Kept {
    marker: PhantomData<()>,
    pub ghost messages: { List (List ℕ) } by { coded_list (coded_list coded_ℕ) },
}

impl Model for Kept {
    ghost also_owns = { λ _. ftrue };
}

// It has no bytes and owns nothing, so that it can be sent and shared.
unsafe impl Send for Kept {}

unsafe impl Sync for Kept {}

impl Kept {
    /// The messages that are read off the value as it is now.
    pub fn of<X, M: Lists<X>>(value: &X) -> Kept
        ensures { result.messages ≡ M.messages value.now }
    {
        let _ = value;
        Kept {
            marker: PhantomData,
        }
    }
}
