//! The workers with their pending queries.

ghost use Rattle.std.specs.Prelude.{◌≡◌, map, true, Some, None, IfOk, OnOk, OnErr, is_some, slice_get, slice_index_or, slice_set};
ghost use Rattle.policy_snapshot.specs.Stands.{policy_in};
ghost use Rattle.rpz_core.specs.declared.event.Output.TheVariants as out;
ghost use Rattle.rpz_core.specs.Sessions.{PendingQuery, answered_step, with_learned, learned_by, next_turn, no_sessions, resumed_step, said_output, take_answer, take_failure, take_query, uncached, with_worker};
ghost use Rattle.rpz_core.specs.State.{StepsBare, TurnsBare, TurnsOrPutsBack};
ghost use Rattle.upstream_link.specs.Vouched.{fact_at};

use crate::event::{CoreError, CoreFault, Output};
use crate::pending::{NextMessage, Pending, Resumed, next_message};
use crate::resolving::Cache;
use answer_cache::AnswerCache;
use dns_message::KNOWN_KEY;
use dns_name::Octets;
use edge_io::{ListLink, WORKER_LIMIT};
use ip_prefix::{Addr, Transport};
use policy_snapshot::Snapshot;
use query_session::Session;
use reply_build::Said;
use std::alloc::{AllocError, Global};
use std::hash::BuildHasherDefault;
use std::marker::Model;
use std::sync::Arc;
use upstream_link::{AnswerFault, Fact, Learned};

/// How many workers a core has; the first is worker 0.
pub const WORKERS: usize = WORKER_LIMIT;

/// How many answers the cache of a core holds at most.
pub const CACHE_LIMIT: usize = 4_096;

/// The workers with their pending queries, and one cache for all of them. Contracts see the pending queries, the ID of the last
/// question, and the entries of the cache.
#[derive(Drop)]
pub(crate) struct Sessions {
    workers: Vec<Option<Pending>>,
    last_id: u16,
    cache: Cache,
}

impl Model for Sessions {
    ghost use Rattle.std.specs.Prelude.{◌≡◌, length};
    ghost use Rattle.rpz_core.specs.declared.sessions.TheConstants.{CACHE_LIMIT, WORKERS};
    ghost use Rattle.rpz_core.specs.Sessions.{SessionsState};

    ghost Value = { SessionsState };

    ghost view = { λ s.
        record { workers = s.workers.items; last_id = s.last_id; cached = s.cache.entries } };

    ghost invariant = { λ s. (length s.workers.items ≡ WORKERS) × (s.cache.limit ≡ CACHE_LIMIT) };
}

impl Sessions {
    /// No query is pending.
    pub(crate) fn new(alloc: Global) -> Result<Self, AllocError>
        ensures { IfOk result (λ sessions. sessions ≡ no_sessions) }
    {
        let mut workers = Vec::with_capacity(alloc, WORKERS)?;
        for worker in 0..WORKERS {
            workers.push(None)?;
        }
        Ok(Sessions {
            workers,
            last_id: 0,
            cache: AnswerCache::open(alloc, CACHE_LIMIT, BuildHasherDefault::new())?,
        })
    }

    /// Which workers have a pending query.
    pub(crate) fn pending(&self) -> [bool; WORKERS]
        ensures { result ≡ map is_some self.now.workers }
    {
        let mut pending = [false; WORKERS];
        for worker in 0..WORKERS {
            pending[worker] = self.workers[worker].is_some();
        }
        pending
    }

    /// Drops all entries of the cache.
    pub(crate) fn empty_cache(&mut self)
        ensures { self.new ≡ uncached self.old }
    {
        self.cache.clear();
    }

    /// A message of a client, which may ask or may not, comes to a worker at a second, under this policy.
    pub(crate) fn take_query(
        &mut self,
        alloc: Global,
        now: u32,
        policy: &Arc<Snapshot, Global>,
        may_ask: bool,
        worker: u32,
        transport: Transport,
        client: Addr,
        message: &[u8],
    ) -> Result<Output, CoreError>
        ensures { StepsBare uncached
            (take_query now self.old (policy_in policy.now.value) may_ask worker transport client
            message.now) result self.old self.new }
    {
        match self.workers.get(worker as usize) {
            None => Err(CoreError::Fault(CoreFault::NoWorker)),
            Some(Some(_)) => Err(CoreError::Fault(CoreFault::Pending)),
            Some(None) => {
                let policy = Arc::try_clone(policy)?;
                let session = Session::start(
                    alloc, KNOWN_KEY, policy, may_ask, message, client, transport,
                )?;
                Ok(self.begin(alloc, now, worker, session)?)
            }
        }
    }

    // The turns of a new session, until it asks what no live entry of the cache answers.
    fn begin(
        &mut self,
        alloc: Global,
        now: u32,
        worker: u32,
        mut session: Session,
    ) -> Result<Output, AllocError>
        ensures { TurnsBare uncached
            (next_turn now self.old worker session.policy session.incoming session.facts) result
            self.old self.new }
    {
        let id = self.last_id.wrapping_add(1);
        match next_message(alloc, &mut self.cache, &mut session, id, now)? {
            NextMessage::Ask { question, message } => {
                let pending = Pending {
                    session,
                    question,
                    id,
                };
                Ok(self.ask(worker, pending, message))
            }
            NextMessage::Said(said) => Ok(self.say(worker, said)),
        }
    }

    // The worker's query is pending from now on, and asks in this message.
    fn ask(&mut self, worker: u32, pending: Pending, message: Octets) -> Output
        ensures output { result ≡ out.Ask worker message }
        ensures sessions { self.new ≡ with_worker self.old worker (Some pending) pending.id }
    {
        self.last_id = pending.id;
        put_slot(&mut self.workers, worker as usize, pending);
        Output::Ask { worker, message }
    }

    // The worker's query is answered.
    fn say(&mut self, worker: u32, said: Said) -> Output
        ensures output { result ≡ said_output worker said }
        ensures sessions { self.new ≡ with_worker self.old worker None self.old.last_id }
    {
        let _answered = take_slot(&mut self.workers, worker as usize);
        match said {
            Said::Reply(message) => Output::Reply { worker, message },
            Said::Silent => Output::Silent { worker },
        }
    }

    /// These bytes come at a second for the question that a worker asked.
    pub(crate) fn take_answer(
        &mut self,
        alloc: Global,
        now: u32,
        worker: u32,
        message: Octets,
    ) -> Result<Output, CoreError>
        ensures { StepsBare uncached (take_answer now self.old worker message) result self.old
            self.new }
    {
        match self.workers.get(worker as usize) {
            None => Err(CoreError::Fault(CoreFault::NoWorker)),
            Some(None) => Err(CoreError::Fault(CoreFault::NotPending)),
            Some(Some(_)) => Ok(self.resume_answered(alloc, now, worker, &message)?),
        }
    }

    // These bytes come at a second for the question of a worker's pending query.
    fn resume_answered(
        &mut self,
        alloc: Global,
        now: u32,
        worker: u32,
        message: &Octets,
    ) -> Result<Output, AllocError>
        requires { (pending : PendingQuery)
            × (slice_get self.old.workers worker ≡ Some (Some pending)) }
        ensures { (pending : PendingQuery) →
            slice_get self.old.workers worker ≡ Some (Some pending) →
            TurnsBare uncached (answered_step now self.old worker message.now pending) result
            self.old self.new }
    {
        let learned = self.learned(alloc, now, worker, message)?;
        self.resume_learned(alloc, now, worker, learned)
    }

    // What is learned by these bytes, which come at a second for the question of a worker's pending query.
    fn learned(
        &self,
        alloc: Global,
        now: u32,
        worker: u32,
        message: &Octets,
    ) -> Result<Learned<ListLink>, AllocError>
        requires { (pending : PendingQuery)
            × (slice_get self.now.workers worker ≡ Some (Some pending)) }
        ensures learned { IfOk result (λ entry. (pending : PendingQuery) →
            slice_get self.now.workers worker ≡ Some (Some pending) →
            entry ≡ learned_by pending message.now now) }
        ensures moment { IfOk result (λ entry. entry.moment ≡ now) }
    {
        match self.workers.get(worker as usize) {
            Some(Some(pending)) => {
                Learned::given(alloc, pending.id, &pending.question, message, now)
            }
            _ => unreachable!(),
        }
    }

    // A worker's pending query gets what was learned for it at this second, which is cached.
    fn resume_learned(
        &mut self,
        alloc: Global,
        now: u32,
        worker: u32,
        learned: Learned<ListLink>,
    ) -> Result<Output, AllocError>
        requires moment { learned.moment ≡ now }
        requires pending { (pending : PendingQuery)
            × (slice_get self.old.workers worker ≡ Some (Some pending))
            × (learned.question ≡ pending.question) }
        ensures { (pending : PendingQuery) →
            slice_get self.old.workers worker ≡ Some (Some pending) →
            TurnsBare uncached
            (resumed_step now (with_learned self.old learned) worker pending (fact_at now learned))
            result self.old self.new }
    {
        let fact = learned.fact(alloc, now)?;
        self.keep(alloc, worker, learned)?;
        self.resume(alloc, now, worker, fact)
    }

    // Caches what was learned for a worker's pending query.
    fn keep(
        &mut self,
        alloc: Global,
        worker: u32,
        learned: Learned<ListLink>,
    ) -> Result<(), AllocError>
        requires pending { (pending : PendingQuery)
            × (slice_get self.old.workers worker ≡ Some (Some pending))
            × (learned.question ≡ pending.question) }
        ensures ok { OnOk result (self.new ≡ with_learned self.old learned) }
        ensures err { OnErr result (self.new ≡ self.old) }
    {
        match self.workers.get(worker as usize) {
            Some(Some(pending)) => self.cache.keep(alloc, &pending.question, learned),
            _ => unreachable!(),
        }
    }

    /// Nothing comes for the question that a worker asked.
    pub(crate) fn take_failure(
        &mut self,
        alloc: Global,
        now: u32,
        worker: u32,
    ) -> Result<Output, CoreError>
        ensures { StepsBare uncached (take_failure now self.old worker) result self.old self.new }
    {
        match self.workers.get(worker as usize) {
            None => Err(CoreError::Fault(CoreFault::NoWorker)),
            Some(None) => Err(CoreError::Fault(CoreFault::NotPending)),
            Some(Some(_)) => Ok(self.resume(
                alloc,
                now,
                worker,
                Fact::Broken(AnswerFault::Failed),
            )?),
        }
    }

    // A worker's pending query gets the fact that it waits for. An `Err` leaves it as it was.
    fn resume(
        &mut self,
        alloc: Global,
        now: u32,
        worker: u32,
        fact: Fact,
    ) -> Result<Output, AllocError>
        requires { (pending : PendingQuery)
            × (slice_get self.old.workers worker ≡ Some (Some pending)) }
        ensures { (pending : PendingQuery) →
            slice_get self.old.workers worker ≡ Some (Some pending) →
            TurnsBare uncached (resumed_step now self.old worker pending fact) result self.old
            self.new }
    {
        match take_slot(&mut self.workers, worker as usize) {
            None => unreachable!(),
            Some(pending) => self.go_on(alloc, now, worker, pending, fact),
        }
    }

    // A pending query that was taken out of the worker's place gets the fact that it waits for. An `Err` puts it back.
    fn go_on(
        &mut self,
        alloc: Global,
        now: u32,
        worker: u32,
        pending: Pending,
        fact: Fact,
    ) -> Result<Output, AllocError>
        ensures { TurnsOrPutsBack worker pending (resumed_step now self.old worker pending fact)
            result self.old self.new }
    {
        let id = self.last_id.wrapping_add(1);
        match pending.resume(alloc, &mut self.cache, fact, id, now) {
            Ok(Resumed::Asks { message, pending }) => Ok(self.ask(worker, pending, message)),
            Ok(Resumed::Said(said)) => Ok(self.say(worker, said)),
            Err(pending) => {
                put_slot(&mut self.workers, worker as usize, pending);
                Err(AllocError)
            }
        }
    }
}

// What stands at a place, which is empty from now on.
fn take_slot(workers: &mut Vec<Option<Pending>>, place: usize) -> Option<Pending>
    ensures pending { result ≡ slice_index_or workers.old.items place None }
    ensures workers { workers.new.items ≡ slice_set workers.old.items place None }
{
    if place < workers.len() {
        workers[place].take()
    } else {
        None
    }
}

// A pending query stands at the place from now on.
fn put_slot(workers: &mut Vec<Option<Pending>>, place: usize, pending: Pending)
    ensures { workers.new.items ≡ slice_set workers.old.items place (Some pending) }
{
    if place < workers.len() {
        workers[place] = Some(pending);
    }
}
