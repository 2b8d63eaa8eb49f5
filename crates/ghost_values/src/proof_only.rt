//! A value that contracts alone see.
ghost use Rattle.std.specs.Borrow.{ftrue};
ghost use Rattle.std.specs.Prelude.{◌≡◌};

use std::marker::{Model, PhantomData};

/// A value of an `E` that a contract speaks of and no code needs: it is there in proofs alone, and takes no bytes. So a clause about
/// it says what was true when the token was made; what a struct keeps beside it must be tied to it by an invariant.
#[derive(Drop)]
pub struct ProofOnly<E> {
    of: PhantomData<E>,
    pub ghost value: { E },
}

impl<E> Model for ProofOnly<E> {
    ghost also_owns = { λ _. ftrue };
}

// It has nothing of an `E`, so that it can be sent and shared whatever an `E` is.
unsafe impl<E> Send for ProofOnly<E> {}

unsafe impl<E> Sync for ProofOnly<E> {}

impl<E> ProofOnly<E> {
    /// The value as it is now.
    pub fn of(value: &E) -> ProofOnly<E>
        ensures { result.value ≡ value.now }
    {
        let _ = value;
        ProofOnly { of: PhantomData }
    }

    /// The same value again.
    pub fn again(&self) -> ProofOnly<E>
        ensures { result ≡ self.now }
    {
        ProofOnly { of: PhantomData }
    }
}
