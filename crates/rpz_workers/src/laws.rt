//! Laws of workers. Each function is its clauses, and does nothing.

ghost use Rattle.std.specs.Prelude.{◌≡◌, ◌-◌, ℕ, Bool, false, List, [], take, Some};
ghost use Rattle.std.specs.List.{AllByRecursion};
ghost use Rattle.edge_io.specs.Chain.{Chain, Stage};
ghost use Rattle.networks.specs.Allowed.{is_allowed};
ghost use Rattle.dns_message.specs.declared.question.Question.{Question};
ghost use Rattle.dns_message.specs.declared.request.Incoming.{Incoming};
ghost use Rattle.upstream_link.specs.declared.facts.TheConstants.{FACT_LIMIT};
ghost use Rattle.upstream_link.specs.Vouched.{PlainLearned};
ghost use Rattle.answer_cache.specs.Recent.{Recent, live_entry};
ghost use Rattle.policy_publish.specs.Stores.{Store};
ghost use Rattle.policy_snapshot.specs.Policy.{PlainPolicy};
ghost use Rattle.reply_build.specs.declared.said.Said.{Said};
ghost use Rattle.rpz_workers.specs.declared.item.Job.{Job};
ghost use Rattle.rpz_workers.specs.declared.obtained.Obtained.{Obtained};
ghost use Rattle.rpz_workers.specs.Answering.{IsAnswer, NeedsUpstream, PlainWorker};
ghost use Rattle.rpz_workers.specs.Laws.{HitsFor, IsTurnedAway};
ghost use Rattle.rpz_workers.specs.Obtaining.{Inquiry, Obtains};

use edge_io::Link;
use query_session::laws::a_client_outside_is_answered_whatever_the_policy;

/// A live entry that stands among the first of a cache that tells its entries, all but the last
/// [`FACT_LIMIT`](upstream_link::FACT_LIMIT) that there may be, answers each question of a query that is like its own: what the other
/// questions bring doesn't push it out before.
pub fn a_live_entry_answers<L: Link>()
    ensures { (passes_on : Bool) (now : ℕ) (policy : PlainPolicy) (incoming : Incoming)
        (first last : Inquiry) (stages : List (Stage Inquiry (Obtained L)))
        (question : Question) (entry : PlainLearned) (cache : Recent) →
        first.facts ≡ [] → first.cached ≡ Some cache →
        Chain (Obtains L.gave passes_on now policy incoming) first stages last →
        live_entry question now (take (cache.limit - FACT_LIMIT) cache.entries) ≡ Some entry →
        AllByRecursion (HitsFor policy incoming now question entry) stages }
{}

/// Nothing is obtained for a client that may not ask: no entry of the cache is looked up, no ID is used, and no upstream is asked. It
/// is told what its message alone says, by the worker to which the message came.
pub fn nothing_is_obtained_for_a_client_outside<L: Link>()
    ensures answered { (store : Store) (passes_on : Bool) (job : Job) (now : ℕ) (said : Said)
        (old new : PlainWorker L) → is_allowed store.allowed job.peer.addr ≡ false →
        IsAnswer store L.gave passes_on job now said old new →
        IsTurnedAway job.message said old new }
    ensures never_asks { (store : Store) (passes_on : Bool) (job : Job) (now : ℕ)
        (question : Question) (old new : PlainWorker L) →
        is_allowed store.allowed job.peer.addr ≡ false →
        NeedsUpstream store L.gave passes_on job now question old new → ⊥ }
{
    a_client_outside_is_answered_whatever_the_policy();
}
