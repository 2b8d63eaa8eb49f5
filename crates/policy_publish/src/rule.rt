//! The rule of the published value, and what a step tells.

use crate::front::StoreName;
use crate::shown::Shown;
use crossbeam_utils::rule::{Outcome, Protocol};
use std::marker::PhantomData;

/// What is shown is of the store that N names.
pub struct OfStore<N: StoreName> {
    of: PhantomData<N>,
}

impl<N: StoreName> Protocol<Shown, ()> for OfStore<N> {
    ghost use Rattle.policy_publish.specs.Shows.{IsOf};

    ghost holds = { λ x _. IsOf N.store x };

    ghost first = { tt };
}

/// A publication, or an entry of a reader.
impl<N: StoreName> Outcome<Shown, ()> for OfStore<N> {
    ghost use Rattle.policy_publish.specs.Shows.{IsOf};

    ghost then = { λ _ _ y _. IsOf N.store y };
}
