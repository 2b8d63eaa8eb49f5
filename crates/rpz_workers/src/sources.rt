//! A worker's answers, out of a cache or over its link.

ghost use Rattle.std.specs.Prelude.{◌≡◌, ◌≤◌, [], length, None, Some, IfOk, IfSome, IsSome, OnOk};
ghost use Rattle.dns_message.specs.Request.{incoming_of};
ghost use Rattle.policy_snapshot.specs.Stands.{policy_in};
ghost use Rattle.query_session.specs.Session.{after_fact, turn_of};
ghost use Rattle.reply_build.specs.Short.{IsShort};
ghost use Rattle.upstream_link.specs.Vouched.{Tells, Vouched, fact_at};
ghost use Rattle.rpz_workers.specs.Answering.{IsShortAnswer};
ghost use Rattle.rpz_workers.specs.Obtaining.{limit_of};
ghost use Rattle.rpz_workers.specs.Turns.{Asks as asks_form, ComesTo, TakesTurn, TriesFor, inquiry};

use crate::answered::Answered;
use crate::asks::{Asked, Asks};
use crate::item::Job;
use crate::obtained::Obtained;
use answer_cache::Keeps;
use dns_message::Question;
use edge_io::Link;
use policy_snapshot::Snapshot;
use query_session::Session;
use reply_build::{Said, Turn};
use std::alloc::{AllocError, Global};
use std::marker::PhantomData;
use std::sync::Arc;
use upstream_link::{AnswerFault, FACT_LIMIT, Fact, Learned};

/// A cache, and what is asked where no live entry of the cache answers.
#[derive(Drop)]
pub(crate) struct Sources<L: Link + Drop, A: Keeps<L> + Drop, B: Asks<L> + Drop> {
    // The key of the hash of the names in replies.
    pub(crate) key: u64,
    pub(crate) cache: A,
    pub(crate) asks: B,
    pub(crate) of: PhantomData<L>,
}

// Gives a session what was learned for its question, at its age.
fn give<L: Link>(
    alloc: Global,
    session: &mut Session,
    learned: Learned<L>,
    now: u32,
) -> Result<Obtained<L>, AllocError>
    requires asked { IsSome session.old.asked }
    requires tells { Tells now learned }
    ensures same { IfOk result (λ obtained. obtained ≡ Obtained.Learned learned) }
    ensures given { OnOk result (session.new ≡ after_fact session.old (fact_at now learned)) }
    ensures vouched { OnOk result (Vouched L.gave learned.question (fact_at now learned) now) }
    ensures policy { session.new.policy ≡ session.old.policy }
    ensures incoming { session.new.incoming ≡ session.old.incoming }
{
    let fact = learned.fact(alloc, now)?;
    session.give(fact)?;
    Ok(Obtained::Learned(learned))
}

// Tells a session that the link failed at its question.
fn give_failed<L: Link>(
    session: &mut Session,
    question: &Question,
) -> Result<Obtained<L>, AllocError>
    requires { IsSome session.old.asked }
    ensures same { IfOk result (λ obtained. obtained ≡ Obtained.Failed question.now) }
    ensures given { OnOk result
        (session.new ≡ after_fact session.old (Fact.Broken AnswerFault.Failed)) }
    ensures policy { session.new.policy ≡ session.old.policy }
    ensures incoming { session.new.incoming ≡ session.old.incoming }
{
    let copy = question.clone()?;
    session.give(Fact::Broken(AnswerFault::Failed))?;
    Ok(Obtained::Failed(copy))
}

// The reply, or silence, after as many facts as a query may have.
fn last_turn(session: &mut Session) -> Result<Said, AllocError>
    requires { FACT_LIMIT ≤ length session.old.facts }
    ensures says { IfOk result (λ said. turn_of session.old ≡ Turn.Said said) }
    ensures short { IfOk result IsShort }
    ensures facts { session.new.facts ≡ session.old.facts }
{
    let turn = session.turn()?;
    match turn {
        Turn::Said(said) => Ok(said),
        Turn::Ask(_) => unreachable!(),
    }
}

impl<L: Link + Drop, A: Keeps<L> + Drop, B: Asks<L> + Drop> Sources<L, A, B> {
    // Asks for the question, if anybody is asked, and gives the answer to the session; `None` where nobody is asked.
    fn ask_for(
        &mut self,
        alloc: Global,
        session: &mut Session,
        question: &Question,
        now: u32,
    ) -> Result<Option<Obtained<L>>, AllocError>
        requires { session.old.asked ≡ Some question.now }
        ensures obtains { IfOk result (λ obtained. asks_form L.gave B.passes_on now question.now
            (inquiry session.old.facts (A.entries self.old.cache)
            (B.ids self.old.asks) (B.faults self.old.asks))
            obtained
            (inquiry session.new.facts (A.entries self.new.cache)
            (B.ids self.new.asks) (B.faults self.new.asks))) }
        ensures limit { limit_of (A.entries self.new.cache) ≡ limit_of (A.entries self.old.cache) }
        ensures count { B.faults self.old.asks ≤ B.faults self.new.asks }
        ensures policy { session.new.policy ≡ session.old.policy }
        ensures incoming { session.new.incoming ≡ session.old.incoming }
    {
        let asked = self.asks.ask(alloc, question, now)?;
        match asked {
            Asked::Learned(learned) => {
                // an answer that can't be cached, since an allocation failed, is used all the same
                let _kept = self.cache.keep(alloc, question, &learned);
                Ok(Some(give(alloc, session, learned, now)?))
            }
            Asked::Failed => Ok(Some(give_failed(session, question)?)),
            Asked::PassedOn => Ok(None),
        }
    }

    // Obtains an answer to the question that a session asked, and gives it to the session; `None` where it can't be answered here.
    fn obtain(
        &mut self,
        alloc: Global,
        session: &mut Session,
        question: &Question,
        now: u32,
    ) -> Result<Option<Obtained<L>>, AllocError>
        requires { session.old.asked ≡ Some question.now }
        ensures tries { IfOk result (λ obtained. TriesFor L.gave B.passes_on now question.now
            (inquiry session.old.facts (A.entries self.old.cache)
            (B.ids self.old.asks) (B.faults self.old.asks))
            obtained
            (inquiry session.new.facts (A.entries self.new.cache)
            (B.ids self.new.asks) (B.faults self.new.asks))) }
        ensures limit { limit_of (A.entries self.new.cache) ≡ limit_of (A.entries self.old.cache) }
        ensures count { B.faults self.old.asks ≤ B.faults self.new.asks }
        ensures policy { session.new.policy ≡ session.old.policy }
        ensures incoming { session.new.incoming ≡ session.old.incoming }
    {
        let found = self.cache.get(alloc, question, now)?;
        match found {
            Some(learned) => Ok(Some(give(alloc, session, learned, now)?)),
            None => self.ask_for(alloc, session, question, now),
        }
    }

    // One turn of a session: what the query comes to, or one answer more.
    fn take_turn(
        &mut self,
        alloc: Global,
        session: &mut Session,
        now: u32,
        obtained: &mut Vec<Obtained<L>>,
    ) -> Result<Option<Answered>, AllocError>
        ensures takes { IfOk result (λ answered. TakesTurn L.gave B.passes_on now
            session.old.policy session.old.incoming
            (inquiry session.old.facts (A.entries self.old.cache)
            (B.ids self.old.asks) (B.faults self.old.asks))
            answered obtained.old.items obtained.new.items
            (inquiry session.new.facts (A.entries self.new.cache)
            (B.ids self.new.asks) (B.faults self.new.asks))) }
        ensures short { IfOk result (λ answered. IfSome answered IsShortAnswer) }
        ensures limit { limit_of (A.entries self.new.cache) ≡ limit_of (A.entries self.old.cache) }
        ensures count { B.faults self.old.asks ≤ B.faults self.new.asks }
        ensures policy { session.new.policy ≡ session.old.policy }
        ensures incoming { session.new.incoming ≡ session.old.incoming }
    {
        let turn = session.turn()?;
        match turn {
            Turn::Said(said) => Ok(Some(Answered::Said(said))),
            Turn::Ask(question) => match self.obtain(alloc, session, &question, now)? {
                Some(more) => {
                    obtained.push(more)?;
                    Ok(None)
                }
                None => Ok(Some(Answered::Needs(question))),
            },
        }
    }

    // The turns of a session, up to what the query comes to.
    fn take_turns(
        &mut self,
        alloc: Global,
        session: &mut Session,
        now: u32,
        obtained: &mut Vec<Obtained<L>>,
    ) -> Result<Answered, AllocError>
        requires facts { session.old.facts ≡ [] }
        requires none { obtained.old.items ≡ [] }
        ensures comes_to { IfOk result (λ answered. ComesTo L.gave B.passes_on now
            session.old.policy session.old.incoming
            (inquiry [] (A.entries self.old.cache)
            (B.ids self.old.asks) (B.faults self.old.asks))
            answered obtained.new.items (A.entries self.new.cache)
            (B.ids self.new.asks) (B.faults self.new.asks)) }
        ensures short { IfOk result IsShortAnswer }
        ensures limit { limit_of (A.entries self.new.cache) ≡ limit_of (A.entries self.old.cache) }
        ensures count { B.faults self.old.asks ≤ B.faults self.new.asks }
    {
        for _count in 0..FACT_LIMIT {
            if let Some(answered) = self.take_turn(alloc, session, now, obtained)? {
                return Ok(answered);
            }
        }
        Ok(Answered::Said(last_turn(session)?))
    }

    // What a message, whose client may ask or may not, comes to under this version of the policy.
    pub(crate) fn answer_by(
        &mut self,
        alloc: Global,
        policy: Arc<Snapshot, Global>,
        may_ask: bool,
        job: &Job,
        now: u32,
        obtained: &mut Vec<Obtained<L>>,
    ) -> Result<Answered, AllocError>
        requires { obtained.old.items ≡ [] }
        ensures comes_to { IfOk result (λ answered. ComesTo L.gave B.passes_on now
            (policy_in policy.value)
            (incoming_of may_ask job.now.message job.now.peer.addr job.now.transport)
            (inquiry [] (A.entries self.old.cache)
            (B.ids self.old.asks) (B.faults self.old.asks))
            answered obtained.new.items (A.entries self.new.cache)
            (B.ids self.new.asks) (B.faults self.new.asks)) }
        ensures short { IfOk result IsShortAnswer }
        ensures limit { limit_of (A.entries self.new.cache) ≡ limit_of (A.entries self.old.cache) }
        ensures count { B.faults self.old.asks ≤ B.faults self.new.asks }
    {
        let mut session = Session::start(
            alloc,
            self.key,
            policy,
            may_ask,
            job.message.as_slice(),
            job.peer.addr,
            job.transport,
        )?;
        self.take_turns(alloc, &mut session, now, obtained)
    }
}
