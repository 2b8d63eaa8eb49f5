//! Laws of the world and its steps. Each function is its clauses, and does nothing.

ghost use Rattle.std.specs.Prelude.{◌≡◌, ◌≢◌, ◌↔◌, ◌-◌, ℕ, false, List, ◌∷◌, Contains, length, slice_get, Option, Some, None, Ok, Err};
ghost use Rattle.answer_cache.specs.Recent.{AreApart, HaveSameEntries, live_entry};
ghost use Rattle.dns_message.specs.declared.question.Question.{Question};
ghost use Rattle.dns_message.specs.declared.request.Incoming.{Incoming};
ghost use Rattle.ip_prefix.specs.declared.Addr.{Addr};
ghost use Rattle.ip_prefix.specs.declared.Transport.{Transport};
ghost use Rattle.ip_prefix.specs.Prefix.{PlainPrefix};
ghost use Rattle.networks.specs.Allowed.{is_allowed};
ghost use Rattle.notify_poll.specs.Notifying.{answer_to, changed_at, is_of_primary};
ghost use Rattle.notify_poll.specs.Timers.{after_poll};
ghost use Rattle.notify_poll.specs.declared.timer.Polling.TheVariants.{Faulty};
ghost use Rattle.policy_override.specs.declared.zone_set.ZoneSet.{ZoneSet};
ghost use Rattle.policy_override.specs.ZoneSet.{origins_in};
ghost use Rattle.policy_snapshot.specs.Policy.{AreAccepted, PlainPolicy};
ghost use Rattle.query_session.specs.Session.{said_outside, turn_by};
ghost use Rattle.reply_build.specs.declared.said.Said.{Said};
ghost use Rattle.reply_build.specs.declared.turn.Turn.TheVariants.{Ask};
ghost use Rattle.rpz_core.specs.Answered.{AreAnswered};
ghost use Rattle.rpz_core.specs.Resolving.{resolve};
ghost use Rattle.upstream_link.specs.Facts.{AreKept, PlainFacts};
ghost use Rattle.upstream_link.specs.Vouched.{PlainLearned};
ghost use Rattle.rpz_core.specs.declared.event.CoreFault.{CoreFault};
ghost use Rattle.rpz_core.specs.declared.event.Event.{Event};
ghost use Rattle.rpz_core.specs.declared.event.Event.TheVariants.{Due, Notify, Query, Transfer};
ghost use Rattle.rpz_core.specs.declared.event.Output.{Output};
ghost use Rattle.rpz_core.specs.declared.event.Output.TheVariants as output;
ghost use Rattle.ixfr_apply.specs.declared.refusal.Refusal.{Refusal};
ghost use Rattle.rpz_core.specs.Faults.{IsQuiet, LeavesTimers, fault_of};
ghost use Rattle.rpz_core.specs.History.{AreObtained, IsAnsweredAs, IsAskedAs, IsLearned, IsPendingAs, IsPendingAt, Reaches};
ghost use Rattle.rpz_core.specs.Sessions.{PendingQuery, said_output};
ghost use Rattle.ixfr_apply.specs.Marks.{mark_at};
ghost use Rattle.rpz_core.specs.State.{CoreState, core_step, as_core_outcome, state_of};
ghost use Rattle.rpz_core.specs.World.{World, with_timers, world_step};

use policy_snapshot::laws::a_policy_takes_transfers_one_by_one;
use query_session::laws::{
    a_client_outside_is_answered_whatever_the_policy, what_is_obtained_is_kept,
};

/// Whatever happens: each reply, or silence, is what the policy answers under which its query came, by the facts that were
/// obtained for it. Each of these facts is of a question that this policy asked, by the facts before it: it is what the bytes say
/// that came for this question, under its ID, or came for it earlier and are live in the cache; or that nothing came. What is asked
/// is what the policy asks. The policy is that after the transfers that were accepted when the query came, each of which its zone
/// took as those before it left the policy.
pub fn each_reply_is_the_policys_answer()
    ensures settings { (settings : List ZoneSet) (primaries : List (Option Addr))
        (allowed : List PlainPrefix) (events : List Event) (world : World) →
        Reaches settings primaries allowed events world → world.settings ≡ settings }
    ensures allowed { (settings : List ZoneSet) (primaries : List (Option Addr))
        (allowed : List PlainPrefix) (events : List Event) (world : World) →
        Reaches settings primaries allowed events world → world.allowed ≡ allowed }
    ensures accepted { (settings : List ZoneSet) (primaries : List (Option Addr))
        (allowed : List PlainPrefix) (events : List Event) (world : World) →
        Reaches settings primaries allowed events world →
        AreAccepted (origins_in world.settings) world.accepted }
    ensures pending { (settings : List ZoneSet) (primaries : List (Option Addr))
        (allowed : List PlainPrefix) (events : List Event) (world : World)
        (worker : ℕ) (pending : PendingQuery) →
        Reaches settings primaries allowed events world → IsPendingAt world worker pending →
        IsPendingAs settings primaries allowed events world worker pending }
    ensures cached { (settings : List ZoneSet) (primaries : List (Option Addr))
        (allowed : List PlainPrefix) (events : List Event) (world : World)
        (entry : PlainLearned) → Reaches settings primaries allowed events world →
        Contains world.sessions.cached entry →
        IsLearned settings primaries allowed events entry }
    ensures apart { (settings : List ZoneSet) (primaries : List (Option Addr))
        (allowed : List PlainPrefix) (events : List Event) (world : World) →
        Reaches settings primaries allowed events world →
        AreApart world.sessions.cached }
    ensures kept { (settings : List ZoneSet) (primaries : List (Option Addr))
        (allowed : List PlainPrefix) (worker : ℕ) (events : List Event)
        (policy : PlainPolicy) (incoming : Incoming) (facts : PlainFacts) →
        AreObtained settings primaries allowed worker events policy incoming facts →
        AreKept facts }
    ensures asks { (settings : List ZoneSet) (primaries : List (Option Addr))
        (allowed : List PlainPrefix) (events : List Event) (event : Event)
        (world next : World) (worker : ℕ) (message : List ℕ) →
        Reaches settings primaries allowed events world →
        world_step world event ≡ Ok (next, output.Ask worker message) →
        IsAskedAs next worker message }
    ensures replies { (settings : List ZoneSet) (primaries : List (Option Addr))
        (allowed : List PlainPrefix) (events : List Event) (event : Event)
        (world next : World) (worker : ℕ) (said : Said) →
        Reaches settings primaries allowed events world →
        world_step world event ≡ Ok (next, said_output worker said) →
        IsAnsweredAs settings primaries allowed (event ∷ events) next worker said }
{
    a_policy_takes_transfers_one_by_one();
    what_is_obtained_is_kept();
}

/// An event is refused exactly where a zone or a worker of its number isn't there, a query comes to a worker whose query is
/// pending, or an answer comes or fails for one that has none.
pub fn an_event_is_refused_by_its_state()
    ensures { (world : World) (event : Event) (fault : CoreFault) →
        (world_step world event ≡ Err fault) ↔ (fault_of world event ≡ Some fault) }
{}

/// An event that isn't refused outputs something, unless it is Full or Clock.
pub fn an_event_has_one_output()
    ensures { (world next : World) (event : Event) (out : Output) →
        world_step world event ≡ Ok (next, out) →
        (out ≡ output.None) ↔ IsQuiet event }
{}

/// The core does in its state what the world does.
pub fn the_core_does_what_the_world_does()
    ensures { (world : World) (event : Event) →
        core_step (state_of world) event ≡ as_core_outcome (world_step world event) }
{}

/// No event opens a zone, changes the override of one or who may ask, or changes the number of marks, of timers or of workers.
pub fn an_event_keeps_the_zones_and_the_workers()
    ensures settings { (world next : World) (event : Event) (out : Output) →
        world_step world event ≡ Ok (next, out) →
        next.settings ≡ world.settings }
    ensures allowed { (world next : World) (event : Event) (out : Output) →
        world_step world event ≡ Ok (next, out) →
        next.allowed ≡ world.allowed }
    ensures marks { (world next : World) (event : Event) (out : Output) →
        world_step world event ≡ Ok (next, out) →
        length next.marks ≡ length world.marks }
    ensures timers { (world next : World) (event : Event) (out : Output) →
        world_step world event ≡ Ok (next, out) →
        length next.timers ≡ length world.timers }
    ensures workers { (world next : World) (event : Event) (out : Output) →
        world_step world event ≡ Ok (next, out) →
        length next.sessions.workers ≡ length world.sessions.workers }
{}

/// A transfer that is refused adds nothing to the accepted ones, and so leaves the policy: it changes nothing but the mark and the
/// zone's timer, by which the zone is polled again after its last retry. No transfer changes the mark or the timer of another zone,
/// or a pending query, which keeps the policy that it came under; nor the zones' origins and overrides, the cache or the clock.
pub fn a_refused_transfer_changes_nothing_but_the_mark()
    ensures accepted { (world next : World) (number zone : ℕ) (stream : List ℕ) (why : Refusal) →
        world_step world (Transfer number stream) ≡ Ok (next, output.Refused zone why) →
        next.accepted ≡ world.accepted }
    ensures retries { (world next : World) (number zone : ℕ) (stream : List ℕ) (why : Refusal) →
        world_step world (Transfer number stream) ≡ Ok (next, output.Refused zone why) →
        next.timers ≡ changed_at (after_poll Faulty world.clock) world.timers (number - 1) }
    ensures timers { (world next : World) (number other : ℕ) (stream : List ℕ) (out : Output) →
        world_step world (Transfer number stream) ≡ Ok (next, out) → other - 1 ≢ number - 1 →
        slice_get next.timers (other - 1) ≡ slice_get world.timers (other - 1) }
    ensures others { (world next : World) (number other : ℕ) (stream : List ℕ) (out : Output) →
        world_step world (Transfer number stream) ≡ Ok (next, out) → other - 1 ≢ number - 1 →
        mark_at next.marks other ≡ mark_at world.marks other }
    ensures pending { (world next : World) (number : ℕ) (stream : List ℕ) (out : Output) →
        world_step world (Transfer number stream) ≡ Ok (next, out) →
        next.sessions ≡ world.sessions }
    ensures settings { (world next : World) (number : ℕ) (stream : List ℕ) (out : Output) →
        world_step world (Transfer number stream) ≡ Ok (next, out) →
        next.settings ≡ world.settings }
    ensures clock { (world next : World) (number : ℕ) (stream : List ℕ) (out : Output) →
        world_step world (Transfer number stream) ≡ Ok (next, out) →
        next.clock ≡ world.clock }
{}

/// Nothing moves a timer but a transfer of its zone, and a NOTIFY that names a zone. A message that comes as a NOTIFY changes nothing
/// else, and the question which zone is due nothing at all.
pub fn only_a_transfer_or_a_notify_moves_a_timer()
    ensures others { (world next : World) (event : Event) (out : Output) →
        world_step world event ≡ Ok (next, out) → LeavesTimers event →
        next.timers ≡ world.timers }
    ensures unnamed { (world next : World) (client : Addr) (message : List ℕ) (out : Output) →
        world_step world (Notify client message) ≡ Ok (next, out) →
        (answer_to (is_allowed world.allowed client) message client
        (origins_in world.settings) world.timers).1 ≡ None →
        next.timers ≡ world.timers }
    ensures notify { (world next : World) (client : Addr) (message : List ℕ) (out : Output) →
        world_step world (Notify client message) ≡ Ok (next, out) →
        next ≡ with_timers world next.timers }
    ensures due { (world next : World) (out : Output) →
        world_step world Due ≡ Ok (next, out) → next ≡ world }
{}

/// The turns of a query at a second, where live entries of the cache answer what it asks: what is done in the end is what is done
/// by what is known then. That is what was known, and behind it only what live entries say about what was asked. What is asked in
/// the end has no live entry. The entries are the same, in whatever order.
pub fn the_cache_answers_before_the_upstream()
    ensures turn { (now : ℕ) (policy : PlainPolicy) (incoming : Incoming)
        (cached : List PlainLearned) (facts : PlainFacts) →
        let r = resolve now policy incoming cached facts in
        r.turn ≡ turn_by policy incoming r.facts }
    ensures known { (now : ℕ) (policy : PlainPolicy) (incoming : Incoming)
        (cached : List PlainLearned) (facts : PlainFacts) →
        AreAnswered now policy incoming cached facts
        (resolve now policy incoming cached facts).facts }
    ensures asked { (now : ℕ) (policy : PlainPolicy) (incoming : Incoming)
        (cached : List PlainLearned) (facts : PlainFacts)
        (question : Question) → let r = resolve now policy incoming cached facts in
        r.turn ≡ Ask question → live_entry question now r.cached ≡ None }
    ensures entries { (now : ℕ) (policy : PlainPolicy) (incoming : Incoming)
        (cached : List PlainLearned) (facts : PlainFacts) →
        HaveSameEntries (resolve now policy incoming cached facts).cached cached }
{}

/// A client that may not ask changes nothing. Its query is refused, or met with silence, as its message alone says: no ID is used, no
/// look-up moves an entry of the cache, and no query is pending afterwards. A NOTIFY from it changes nothing either, unless it is the
/// primary of some zone.
pub fn a_client_outside_changes_nothing()
    ensures query { (world : World) (worker : ℕ) (transport : Transport) (client : Addr)
        (message : List ℕ) → is_allowed world.allowed client ≡ false →
        slice_get world.sessions.workers worker ≡ Some None →
        world_step world (Query worker transport client message)
        ≡ Ok (world, said_output worker (said_outside message)) }
    ensures notify { (world next : World) (client : Addr) (message : List ℕ) (out : Output) →
        is_allowed world.allowed client ≡ false → is_of_primary world.timers client ≡ false →
        world_step world (Notify client message) ≡ Ok (next, out) → next ≡ world }
{
    a_client_outside_is_answered_whatever_the_policy();
}
