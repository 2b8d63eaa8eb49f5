//! Laws of sessions. Each function is its clauses, and does nothing.

ghost use Rattle.std.specs.Prelude.{◌≡◌, ◌↔◌, ℕ, ◌≤◌, List, [], length, true, false, IsTrue};
ghost use Rattle.dns_message.specs.declared.question.Question.{Question};
ghost use Rattle.dns_message.specs.declared.request.Incoming.{Incoming};
ghost use Rattle.dns_message.specs.declared.request.Incoming.TheVariants.{Query as Asks};
ghost use Rattle.dns_message.specs.declared.request.Query.{Query};
ghost use Rattle.dns_message.specs.Request.{incoming_of};
ghost use Rattle.ip_prefix.specs.declared.Addr.{Addr};
ghost use Rattle.ip_prefix.specs.declared.Transport.{Transport};
ghost use Rattle.policy_snapshot.specs.Policy.{PlainPolicy};
ghost use Rattle.policy_snapshot.specs.Stands.{HaveRows};
ghost use Rattle.query_session.specs.Laws.{FailsBy, Upstream, facts_after, failure_turn, is_said};
ghost use Rattle.query_session.specs.Session.{said_outside, turn_by};
ghost use Rattle.reply_build.specs.declared.turn.Turn.TheVariants.{Said};
ghost use Rattle.upstream_link.specs.declared.fact.AnswerFault.{AnswerFault};
ghost use Rattle.upstream_link.specs.declared.fact.Fact.TheVariants.{Broken};
ghost use Rattle.upstream_link.specs.declared.facts.TheConstants.{FACT_LIMIT};
ghost use Rattle.upstream_link.specs.Fact.{fact_from};
ghost use Rattle.upstream_link.specs.Life.{with_age};
ghost use Rattle.upstream_link.specs.Facts.{AreKept, Extends, IsKept, PlainFacts};

use policy_snapshot::laws::nothing_unasked_could_matter;
use upstream_link::laws::what_is_known_stays_known;

/// Whatever the policy, the message and the upstream, there is a reply, or silence, after at most
/// [`FACT_LIMIT`](upstream_link::FACT_LIMIT) questions are answered, and no more than these are asked.
pub fn at_most_128_facts_bring_a_reply()
    ensures said { (policy : PlainPolicy) (incoming : Incoming) (upstream : Upstream) →
        let facts = facts_after policy incoming upstream FACT_LIMIT [] in
        is_said (turn_by policy incoming facts) ≡ true }
    ensures few { (policy : PlainPolicy) (incoming : Incoming) (upstream : Upstream) (turns : ℕ) →
        length (facts_after policy incoming upstream turns []) ≤ FACT_LIMIT }
{}

/// A query gets the reply of rcode 2 in exactly these cases: the chain of aliases has too many names; the answer to one more
/// question is needed, and [`FACT_LIMIT`](upstream_link::FACT_LIMIT) facts are known; or something is decided, but the upstream has
/// no answer that could pass, the name that the rule's CNAME record leads to is too long, or the upstream has no answer about that
/// name, where the CNAME record itself isn't asked for. The facts are kept of responses, as those of a session are
/// ([`Session::turn`](crate::Session::turn)).
pub fn a_failure_has_a_cause()
    ensures { (policy : PlainPolicy) (query : Query) (facts : PlainFacts) → AreKept facts →
        (turn_by policy (Asks query) facts ≡ failure_turn query) ↔ FailsBy policy query facts }
{}

/// What bytes say, at whatever age, has rcode 0 or 3, records of class IN and a SOA record at most where it is an answer. So has
/// nothing, where nothing comes.
pub fn what_is_obtained_is_kept()
    ensures bytes { (octets : List ℕ) (id : ℕ) (question : Question) (seconds : ℕ) →
        IsKept (with_age seconds (fact_from octets id question)) }
    ensures broken { (why : AnswerFault) → IsKept (Broken why) }
{}

/// Once there is a reply, or silence, it stays whatever facts come then, of at most [`FACT_LIMIT`](upstream_link::FACT_LIMIT)
/// in all.
pub fn a_reply_stands()
    ensures { (policy : PlainPolicy) (incoming : Incoming) (facts more : PlainFacts) →
        HaveRows policy.zones → Extends facts more → length more ≤ FACT_LIMIT →
        IsTrue (is_said (turn_by policy incoming facts)) →
        turn_by policy incoming more ≡ turn_by policy incoming facts }
{
    nothing_unasked_could_matter();
    what_is_known_stays_known();
}

/// What a client gets that may not ask is determined by its message alone, and comes at once: no policy, no fact and no address
/// changes it, nor the transport.
pub fn a_client_outside_is_answered_whatever_the_policy()
    ensures said { (bytes : List ℕ) (client : Addr) (transport : Transport)
        (policy : PlainPolicy) (facts : PlainFacts) →
        turn_by policy (incoming_of false bytes client transport) facts
        ≡ Said (said_outside bytes) }
    ensures alike { (bytes : List ℕ) (client other : Addr) (transport another : Transport)
        (policy next : PlainPolicy) (facts more : PlainFacts) →
        turn_by policy (incoming_of false bytes client transport) facts
        ≡ turn_by next (incoming_of false bytes other another) more }
{}
