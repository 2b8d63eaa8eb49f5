//! The lines of a server.

ghost use Rattle.std.specs.Prelude.{◌≡◌, ◌≢◌, ◌≤◌, ◌++◌, true, false, ℕ, List, Option, Err, IfOk, OnErr};
ghost use Rattle.edge_io.specs.Edge.{Rose, WritesPrefix};
ghost use Rattle.rpz_program.specs.Serving.{Wrote};

use crate::serve_error::ServeError;
use edge_io::{Sink, SinkError, write_all};

/// Writes text behind the lines of a server, and says whether a write has failed: nothing is written from then on. `is_cut` says that
/// one has failed before.
pub(crate) fn write_lines<K: Sink>(
    out: &mut K,
    is_cut: bool,
    text: &[u8],
) -> Result<bool, ServeError>
    ensures ok { IfOk result (λ cut. (lines : List ℕ) (before : Option (List ℕ)) →
        Wrote is_cut lines before (K.held out.old) →
        Wrote cut (lines ++ text.now) before (K.held out.new)) }
    ensures err { OnErr result ((lines : List ℕ) (before : Option (List ℕ)) →
        Wrote is_cut lines before (K.held out.old) →
        WritesPrefix (lines ++ text.now) before (K.held out.new)) }
    ensures only { (why : _) → result ≡ Err why → why ≡ ServeError.OutOfMemory }
    ensures count { K.faults out.old ≤ K.faults out.new }
    ensures failed { IfOk result (λ cut. cut ≡ true → is_cut ≡ false →
        Rose (K.faults out.old) (K.faults out.new)) }
    ensures stays { IfOk result (λ cut. is_cut ≡ true → cut ≡ true) }
{
    if is_cut {
        return Ok(true);
    }
    match write_all(out, text) {
        Ok(()) => Ok(false),
        Err(SinkError::WriteFault) => Ok(true),
        Err(SinkError::OutOfMemory) => Err(ServeError::OutOfMemory),
    }
}
