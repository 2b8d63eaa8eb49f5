//! Laws of runs. Each function is its clauses, and does nothing.

ghost use Rattle.std.specs.Prelude.{◌≡◌, ℕ, List, Result};
ghost use Rattle.script_loop.specs.Abstraction.{StepsAlong, run_along, verdict_along};
ghost use Rattle.script_loop.specs.Fold.{run_of, transcript, verdict};

/// Where each step of an abstract machine is that of another, through a view, so is each run of lines: both output the
/// same, refuse the same line for the same reason, and end in states that are one through the view.
pub fn an_abstract_machine_answers_alike<M, N, W>()
    ensures run { (too_many too_long : W) (view : M → N) (step : M → List ℕ → Result (M × List ℕ) W)
        (abstract_step : N → List ℕ → Result (N × List ℕ) W) → StepsAlong view step abstract_step →
        (machine : M) (lines : List (List ℕ)) →
        run_of too_many too_long abstract_step (1, view machine) lines
        ≡ run_along view (run_of too_many too_long step (1, machine) lines) }
    ensures transcript { (too_many too_long : W) (view : M → N)
        (step : M → List ℕ → Result (M × List ℕ) W)
        (abstract_step : N → List ℕ → Result (N × List ℕ) W) → StepsAlong view step abstract_step →
        (machine : M) (script : List ℕ) →
        transcript too_many too_long abstract_step (view machine) script
        ≡ transcript too_many too_long step machine script }
    ensures verdict { (too_many too_long : W) (view : M → N)
        (step : M → List ℕ → Result (M × List ℕ) W)
        (abstract_step : N → List ℕ → Result (N × List ℕ) W) → StepsAlong view step abstract_step →
        (machine : M) (script : List ℕ) →
        verdict too_many too_long abstract_step (view machine) script
        ≡ verdict_along view (verdict too_many too_long step machine script) }
{}
