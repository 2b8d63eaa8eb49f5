//! A value that several lists hold.

ghost use Rattle.std.specs.Prelude.{◌≡◌, IfOk};

use crate::share::Share;
use std::alloc::{AllocError, Global};
use std::marker::Model;
use std::sync::Arc;

/// A value that several lists hold and that nothing changes any more. Contracts see the value.
#[derive(Drop)]
pub struct Held<T> {
    value: Arc<T>,
}

impl<T> Model for Held<T> {
    ghost Value = { T };

    ghost view = { λ h. h.value.value };
}

impl<T: Drop> Held<T> {
    /// The value, held once.
    pub fn new(alloc: Global, value: T) -> Result<Self, AllocError>
        ensures { IfOk result (λ held. held ≡ value) }
    {
        let value = Arc::new(alloc, value)?;
        Ok(Held { value })
    }

    /// The value.
    pub fn get(&self) -> &T
        ensures { result.now ≡ self.now }
    {
        &self.value
    }
}

impl<T: Drop> Share for Held<T> {
    fn share(&self) -> Result<Self, AllocError> {
        let value = Arc::try_clone(&self.value)?;
        Ok(Held { value })
    }
}
