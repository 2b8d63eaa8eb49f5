//! A session: one message of a client, from its arrival to its reply.

ghost use Rattle.std.specs.Prelude.{◌≡◌, ◌≤◌, ◌∷◌, [], true, ◌++◌, length, Some, None, IfOk, IsSome, OnOk, OnErr, option_copied, is_some};
ghost use Rattle.dns_message.specs.declared.question.Question as questions;
ghost use Rattle.dns_message.specs.Request.{incoming_of};
ghost use Rattle.upstream_link.specs.declared.fact.Fact as told;
ghost use Rattle.upstream_link.specs.Facts.{AreKept, PlainFacts};
ghost use Rattle.policy_snapshot.specs.Stands.{policy_in};
ghost use Rattle.reply_build.specs.Short.{SaysShort};
ghost use Rattle.query_session.specs.Session.{AsksAnew, IsPassed, after_fact, after_turn, awaiting, new_session, question_in as asks, turn_of};

use crate::turns::turn_about;
use dns_message::{Incoming, LEAST_LIMIT, Question, classify, write_message};
use ip_prefix::{Addr, Transport};
use policy_snapshot::Snapshot;
use policy_snapshot::laws::nothing_unasked_could_matter;
use reply_build::{Said, Turn};
use std::alloc::{AllocError, Global};
use std::marker::Model;
use std::sync::Arc;
use upstream_link::{Fact, Facts};

/// What is done with one message of a client, under the policy that held when it came. What it has asked for isn't known
/// yet. Contracts see the policy, the query, what is known, and what was asked.
#[derive(Drop)]
pub struct Session {
    alloc: Global,
    key: u64,
    policy: Arc<Snapshot, Global>,
    incoming: Incoming,
    facts: Facts,
    asked: Option<Question>,
    // Whether it is known that the query passes its own name.
    passed: bool,
}

impl Model for Session {
    ghost use Rattle.std.specs.Prelude.{◌≡◌, true};
    ghost use Rattle.policy_snapshot.specs.Stands.{policy_in};
    ghost use Rattle.query_session.specs.Session.{AsksAnew, IsPassed};
    ghost use Rattle.query_session.specs.State.{SessionState};

    ghost Value = { SessionState };

    ghost view = { λ s. record {
      policy = policy_in s.policy.value;
      incoming = s.incoming;
      facts = s.facts;
      asked = s.asked;
    } };

    ghost invariant = { λ s. AsksAnew s.facts s.asked
        × (s.passed ≡ true → IsPassed (policy_in s.policy.value) s.incoming s.facts) };
}

impl Session {
    /// Begins with a message that came from this address, which may ask or may not, over this transport. The session keeps the policy,
    /// whatever comes after it. The key seeds a hash of the names in the reply, and is to be unknown to those who send the names: see
    /// [`reply_build::build`].
    pub fn start(
        alloc: Global,
        key: u64,
        policy: Arc<Snapshot, Global>,
        may_ask: bool,
        message: &[u8],
        client: Addr,
        transport: Transport,
    ) -> Result<Self, AllocError>
        ensures { IfOk result (λ session. session
            ≡ new_session (policy_in policy.value)
            (incoming_of may_ask message.now client transport)) }
    {
        let incoming = classify(alloc, may_ask, message, client, transport)?;
        Ok(Session {
            alloc,
            key,
            policy,
            incoming,
            facts: Facts::new(alloc),
            asked: None,
            passed: false,
        })
    }

    // What is done at this point, and whether the query passes its own name.
    #[inline(always)]
    fn next_turn(&self) -> Result<(Turn, bool), AllocError>
        ensures turn { IfOk result (λ turn. turn.0 ≡ turn_of self.now) }
        ensures passes { IfOk result
            (λ turn. turn.1 ≡ true → IsPassed self.now.policy self.now.incoming self.now.facts) }
        ensures short { IfOk result (λ turn. SaysShort turn.0) }
    {
        match &self.incoming {
            Incoming::Silent => Ok((Turn::Said(Said::Silent), false)),
            Incoming::Refuse(message) => {
                let reply = write_message(self.alloc, self.key, message, LEAST_LIMIT)?;
                Ok((Turn::Said(Said::Reply(reply)), false))
            }
            Incoming::Query(query) => {
                let alloc = self.alloc;
                turn_about(
                    alloc,
                    self.key,
                    &self.policy,
                    query,
                    &self.facts,
                    self.passed,
                )
            }
        }
    }

    /// What is done at this point, which is the same until a fact is given. What it asks isn't known yet, and fewer than
    /// [`FACT_LIMIT`](upstream_link::FACT_LIMIT) facts are. What is known is kept of responses.
    pub fn turn(&mut self) -> Result<Turn, AllocError>
        ensures turn { IfOk result (λ turn. turn ≡ turn_of self.old) }
        ensures ok { OnOk result (self.new ≡ after_turn self.old) }
        ensures anew { IfOk result (λ turn. AsksAnew self.old.facts (asks turn)) }
        ensures short { IfOk result SaysShort }
        ensures kept { AreKept self.old.facts }
        ensures err { OnErr result (self.new ≡ self.old) }
    {
        // called for its clause: what is known is kept of responses
        let _known = self.facts.len();
        let (turn, passed) = self.next_turn()?;
        self.asked = asked_in(&turn)?;
        self.passed = passed;
        Ok(turn)
    }

    /// Gives the fact that the last turn asked for. An `Err` leaves the session as it was.
    pub fn give(&mut self, fact: Fact) -> Result<(), AllocError>
        requires { IsSome self.old.asked }
        ensures ok { OnOk result (self.new ≡ after_fact self.old fact) }
        ensures err { OnErr result (self.new ≡ self.old) }
    {
        // called for their clauses: a name that passes the rules passes whatever facts come, since the rows of the zones are rows
        nothing_unasked_could_matter();
        let _zones = self.policy.zone_count();
        let Some(question) = self.asked.take() else {
            return Ok(());
        };
        match self.facts.push(question, fact) {
            Ok(()) => Ok(()),
            Err(refused) => {
                self.asked = Some(refused.value);
                Err(AllocError)
            }
        }
    }

    /// How many facts are known.
    pub fn known(&self) -> usize
        ensures { result ≡ length self.now.facts }
    {
        self.facts.len()
    }

    /// Takes back all facts but the first `count`, so that the session waits for the answer to the question of the next one
    /// again: what undoes [`give`](Session::give) where what was to follow can't be done. Where no more than these are known,
    /// nothing changes.
    pub fn take_back(&mut self, count: usize)
        ensures taken { (before after : PlainFacts) (question : questions.Question)
            (fact : told.Fact) →
            self.old.facts ≡ before ++ (question, fact) ∷ after → length before ≡ count →
            self.new ≡ awaiting self.old before question }
        ensures few { length self.old.facts ≤ count → self.new ≡ self.old }
    {
        self.passed = false;
        if let Some(question) = take_from(&mut self.facts, count) {
            self.asked = Some(question);
        }
    }

    /// Whether the last turn asked for a fact that wasn't given yet.
    pub fn waits(&self) -> bool
        ensures { result ≡ is_some self.now.asked }
    {
        self.asked.is_some()
    }

    /// What the last turn asked for, until a fact is given.
    pub fn asked(&self) -> Option<&Question>
        ensures { option_copied result ≡ self.now.asked }
    {
        self.asked.as_ref()
    }
}

// Takes all facts out but the first `count`, and gives the question of the first of them.
fn take_from(facts: &mut Facts, count: usize) -> Option<Question>
    ensures taken { (before after : PlainFacts) (question : questions.Question) (fact : told.Fact) →
        facts.old ≡ before ++ (question, fact) ∷ after → length before ≡ count →
        (facts.new ≡ before) × (result ≡ Some question) }
    ensures anew { AsksAnew facts.new result }
    ensures none { result ≡ None → facts.new ≡ facts.old }
    ensures few { length facts.old ≤ count → result ≡ None }
{
    if count >= facts.len() {
        return None;
    }
    facts.truncate(count + 1);
    match facts.pop() {
        Some((question, _fact)) => Some(question),
        None => None,
    }
}

// What a turn asks for.
fn asked_in(turn: &Turn) -> Result<Option<Question>, AllocError>
    ensures { IfOk result (λ question. question ≡ asks turn.now) }
{
    match turn {
        Turn::Ask(question) => Ok(Some(question.clone()?)),
        Turn::Said(_) => Ok(None),
    }
}
