//! What readers take: one version, and the list of transfers that it stands for.

ghost use Rattle.std.specs.Prelude.{◌≡◌, IfOk};
ghost use Rattle.std.specs.Arc.{arc_value};

use crate::front::Line;
use left_right::Absorb;
use policy_snapshot::Snapshot;
use std::alloc::{AllocError, Global};
use std::sync::Arc;

/// A version, and the line of the entries that it stands for. It names no store: `left_right` takes no type that does, beside an
/// `impl` that is generic. That it stands for them is the rule of what is shown.
#[derive(Drop)]
pub struct Shown {
    pub version: Arc<Snapshot, Global>,
    pub line: Line,
}

/// An operation is a whole version, and replaces the one before.
impl Absorb<Shown> for Shown {
    type State = (Snapshot, Line);

    ghost state = { λ s. (arc_value s.version, s.line) };

    ghost applied = { λ _ s. (arc_value s.version, s.line) };

    fn absorb_first(&mut self, operation: &Shown, _other: &Shown) -> Result<(), AllocError> {
        *self = operation.again()?;
        Ok(())
    }
}

impl Shown {
    /// The same version and line. It takes no memory but the count of the version.
    pub fn again(&self) -> Result<Shown, AllocError>
        ensures { IfOk result (λ s. (arc_value s.version ≡ arc_value self.now.version) ×
            (s.line ≡ self.now.line)) }
    {
        Ok(Shown {
            version: Arc::try_clone(&self.version)?,
            line: self.line.again(),
        })
    }
}
