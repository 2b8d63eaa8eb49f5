//! Laws of the lines of scripts. Each function is its clauses, and does nothing.

ghost use Rattle.std.specs.Prelude.{◌≡◌, ℕ, false, List, Some, Ok, IsOk};
ghost use Rattle.ip_prefix.specs.declared.Addr.{Addr};
ghost use Rattle.ip_prefix.specs.declared.Transport.{Transport};
ghost use Rattle.networks.specs.Allowed.{is_allowed};
ghost use Rattle.script_codec.specs.declared.line.Line.{Line};
ghost use Rattle.script_codec.specs.declared.line.Line.TheVariants.{Query};
ghost use Rattle.script_codec.specs.Line.{unnumbered_line};
ghost use Rattle.rpz_core.specs.History.{Reaches};
ghost use Rattle.rpz_core.specs.declared.event.Event.{Event};
ghost use Rattle.rpz_program.specs.Opened.{OpenZones};
ghost use Rattle.rpz_program.specs.Script.{IsReached, ScriptWorld, answering, line_outside, start, state_in, step, too_long, too_many, world_after_line, world_in};
ghost use Rattle.script_loop.specs.Fold.{run_of};

use rpz_core::laws::a_client_outside_changes_nothing;

/// In every world that a script reaches, each line that the grammar of scripts takes is done: the core refuses no event of it.
pub fn a_line_of_the_grammar_is_done()
    ensures { (lines : List (List ℕ)) (zones : OpenZones) (events : List Event)
        (world : ScriptWorld) (text : List ℕ) (line : Line) → IsReached lines zones events world →
        unnumbered_line text (state_in world) ≡ Ok (Some line) → IsOk (world_after_line world line) }
{}

/// The world after lines that are all taken is one that a script reaches by just these lines, and the events that the lines are lead to
/// it, from the zones that they opened: so what the core's laws say of such a world (`each_reply_is_the_policys_answer`) holds at each
/// line of a script.
pub fn events_lead_to_a_scripts_world()
    ensures reached { (lines : List (List ℕ)) (end : ℕ × ScriptWorld) →
        (run_of too_many too_long step (1, start) lines).1 ≡ Ok end →
        (zones : OpenZones) × (events : List Event) × IsReached lines zones events end.1 }
    ensures events { (lines : List (List ℕ)) (zones : OpenZones) (events : List Event)
        (world : ScriptWorld) → IsReached lines zones events world →
        Reaches zones.settings zones.primaries zones.allowed events (world_in world) }
{}

/// A query of a client that no allow line lets ask changes nothing, in every world that a script with such lines reaches. Its line is
/// done and leaves the world of the core as it is; what it writes is one line, of a REFUSED reply or of silence, which the message
/// alone gives.
pub fn a_client_outside_is_refused()
    ensures { (lines : List (List ℕ)) (zones : OpenZones) (events : List Event)
        (world : ScriptWorld) (text : List ℕ) (worker : ℕ) (transport : Transport)
        (client : Addr) (message : List ℕ) → IsReached lines zones events world →
        unnumbered_line text (state_in world)
        ≡ Ok (Some (Query worker transport client message)) →
        is_allowed zones.allowed client ≡ false →
        step world text ≡ Ok (answering (world_in world), line_outside worker message) }
{
    a_client_outside_changes_nothing();
}
