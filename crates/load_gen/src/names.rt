//! Names by their texts.

ghost use Rattle.std.specs.Prelude.{◌≡◌, IfOk};
ghost use Rattle.dns_name.specs.Labels.{IsName};
ghost use Rattle.load_gen.specs.Written as form;

use dns_name::{Name, TextError};
use std::alloc::{AllocError, Global};

/// The name that a text writes; the root where it writes no labels.
pub(crate) fn written_name(alloc: Global, text: &[u8]) -> Result<Name, AllocError>
    ensures { IfOk result (λ name. name ≡ form.written_name text.now) }
{
    match Name::from_text(alloc, text) {
        Ok(name) => Ok(name),
        Err(TextError::Fault(_)) => Name::root(alloc),
        Err(TextError::OutOfMemory) => Err(AllocError),
    }
}
