//! What can be had a second time.

ghost use Rattle.std.specs.Prelude.{◌≡◌, IfOk};

use std::alloc::AllocError;

/// What can be had a second time, in constant time: an equal value, which shares what is behind an `Arc`.
pub trait Share: Drop {
    /// An equal value.
    fn share(&self) -> Result<Self, AllocError>
        ensures { IfOk result (λ other. other ≡ self.now) };
}
