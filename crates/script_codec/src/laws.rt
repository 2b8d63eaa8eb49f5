//! Laws of the lines of a script. Each function is its clauses, and does nothing.

ghost use Rattle.std.specs.Prelude.{◌≡◌, ℕ, List, Ok, Some};
ghost use Rattle.script_codec.specs.Line.{unnumbered_line};
ghost use Rattle.script_codec.specs.State.{PlainState};
ghost use Rattle.script_codec.specs.Within.{IsWithin};
ghost use Rattle.script_codec.specs.declared.line.Line.{Line};

/// What a line says is within the state that it is read by, for every text: a zone that is opened may be, a transfer
/// is of a zone that there is, a query of a worker without a pending one, and an answer for a worker with one.
pub fn a_line_is_within_its_state()
    ensures { (text : List ℕ) (state : PlainState) (line : Line) →
        unnumbered_line text state ≡ Ok (Some line) → IsWithin state line }
{}
