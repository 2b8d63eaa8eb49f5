//! A worker, and its answer to one query.

ghost use Rattle.std.specs.Prelude.{◌≡◌, [], IfOk, Some};
ghost use Rattle.policy_publish.specs.Lists.{KeepsTold, WasTold};
ghost use Rattle.rpz_workers.specs.Answering.{Answers, IsShortAnswer};
ghost use Rattle.rpz_workers.specs.Passing.{IsShortOutcome, PassesOnAs, Settles};

use crate::answered::Answered;
use crate::asker::{Asker, AsksNobody};
use crate::asks::Asks;
use crate::gate::Gate;
use crate::item::Job;
use crate::obtained::Obtained;
use crate::onward::Onward;
use crate::outcome::Outcome;
use crate::sources::Sources;
use answer_cache::Keeps;
use dns_message::Question;
use edge_io::{Ids, Link};
use policy_publish::{PolicyReader, StoreName, Told};
use std::alloc::{AllocError, Global};
use std::marker::{Model, PhantomData};

/// A worker: it answers each query by the version of the policy that is published when the query comes, and by what live entries of
/// its cache and its link give. One that has no link passes on what needs the upstream. The cache is the worker's own, or one that
/// others use as well. Contracts see what its reader saw and was told, the entries of its cache and how many there may be, where it
/// tells them, the IDs that are still to come, how often its link has failed, and what it obtained for its last query.
#[derive(Drop)]
pub struct Worker<N: StoreName, L: Link + Drop, A: Keeps<L> + Drop, B: Asks<L> + Drop> {
    alloc: Global,
    reader: PolicyReader<N>,
    sources: Sources<L, A, B>,
    obtained: Vec<Obtained<L>>,
}

impl<N: StoreName, L: Link + Drop, A: Keeps<L> + Drop, B: Asks<L> + Drop> Model
    for Worker<N, L, A, B> {
    ghost use Rattle.rpz_workers.specs.Answering.{PlainWorker};

    ghost Value = { PlainWorker L };

    ghost view = { λ w. record {
      known = w.reader;
      cached = A.entries w.sources.cache;
      ids = B.ids w.sources.asks;
      link_faults = B.faults w.sources.asks;
      obtained = w.obtained.items;
    } };
}

impl<N: StoreName, L: Link + Drop, A: Keeps<L> + Drop, I: Ids + Drop, G: Gate + Drop> Worker<
    N,
    L,
    A,
    Asker<L, I, G>,
> {
    /// A worker that has answered nothing, and asks over a link, over these parts. The key seeds a hash of the names in replies, and
    /// is to be unknown to clients and to the upstream: see [`query_session::Session::start`].
    pub fn new(
        alloc: Global,
        key: u64,
        reader: PolicyReader<N>,
        cache: A,
        link: L,
        ids: I,
        gate: G,
    ) -> Self
        ensures { result
            ≡ record {
              known = reader;
              cached = A.entries cache;
              ids = I.ids ids;
              link_faults = L.faults link;
              obtained = [];
            } }
    {
        Worker {
            alloc,
            reader,
            sources: Sources {
                key,
                cache,
                asks: Asker { link, ids, gate },
                of: PhantomData,
            },
            obtained: Vec::new(alloc),
        }
    }
}

impl<N: StoreName, L: Link + Drop, A: Keeps<L> + Drop> Worker<N, L, A, AsksNobody> {
    /// A worker that has answered nothing, and passes on what needs the upstream, over these parts. The key is as for
    /// [`Worker::new`].
    pub fn passing_on(alloc: Global, key: u64, reader: PolicyReader<N>, cache: A) -> Self
        ensures { result
            ≡ record {
              known = reader;
              cached = A.entries cache;
              ids = Some [];
              link_faults = 0;
              obtained = [];
            } }
    {
        Worker {
            alloc,
            reader,
            sources: Sources {
                key,
                cache,
                asks: AsksNobody,
                of: PhantomData,
            },
            obtained: Vec::new(alloc),
        }
    }
}

impl<N: StoreName, L: Link + Drop, A: Keeps<L> + Drop, B: Asks<L> + Drop> Worker<N, L, A, B> {
    /// What this worker's memory is taken from.
    pub(crate) fn alloc(&self) -> Global {
        self.alloc
    }

    /// From now on no query is answered by a version before this list of transfers.
    pub fn learn(&mut self, told: Told<N>)
        ensures learnt { WasTold self.new.known told }
        ensures kept { KeepsTold self.old.known self.new.known }
        ensures seen { self.new.known.seen ≡ self.old.known.seen }
        ensures same { self.new ≡ record self.old { known = self.new.known } }
    {
        self.reader.learn(told);
    }

    /// Answers a message that came at this second, in seconds, by the version of the policy that is published now. The one of a
    /// client that may not ask is refused: nothing is looked up or asked for it. A question is asked over the link only where no live
    /// entry of the cache answers it; what can't be cached, since an allocation failed, is used all the same. A worker without a link
    /// gives back the first question that needs the upstream. Over a cache that is shared it takes a lock for a look-up and for a keep,
    /// and for nothing else; over one of its own it takes none. Out of memory a cache of the worker's own is emptied, which gives
    /// memory back; one that is shared stays.
    pub fn answer(&mut self, job: &Job, now: u32) -> Result<Answered, AllocError>
        ensures answers { Answers N.store L.gave B.passes_on job.now now result
            self.old self.new }
        ensures short { IfOk result IsShortAnswer }
    {
        self.obtained.clear();
        let policy = self.reader.pin()?;
        let may_ask = self.reader.may_ask(job.peer.addr);
        let answered = self
            .sources
            .answer_by(self.alloc, policy, may_ask, job, now, &mut self.obtained);
        match answered {
            Ok(answered) => Ok(answered),
            Err(error) => {
                self.sources.cache.drop_own();
                self.obtained.clear();
                Err(error)
            }
        }
    }

    // Passes on a message that needs the upstream.
    fn pass_on<O: Onward<N>>(
        &self,
        job: &Job,
        question: Question,
        now: u32,
        onward: &mut O,
    ) -> Outcome
        ensures { PassesOnAs (O.passed onward.old) job.now question now self.now.known.seen result
            (O.passed onward.new) }
    {
        match onward.pass_on(job, question, now, &self.reader) {
            Ok(()) => Outcome::PassedOn,
            Err(AllocError) => Outcome::NoMemory,
        }
    }

    /// Answers a message that came at this second, in seconds, as [`answer`](Worker::answer) does, or passes it on, with the list
    /// of transfers that was then seen. Where there is no room to pass it on, that counts as memory that ran out.
    pub(crate) fn settle<O: Onward<N>>(&mut self, job: &Job, now: u32, onward: &mut O) -> Outcome
        ensures settles { Settles N.store L.gave B.passes_on job.now now result
            self.old self.new (O.passed onward.old) (O.passed onward.new) }
        ensures short { IsShortOutcome result }
    {
        match self.answer(job, now) {
            Ok(Answered::Said(said)) => Outcome::Said(said),
            Ok(Answered::Needs(question)) => self.pass_on(job, question, now, onward),
            Err(AllocError) => Outcome::NoMemory,
        }
    }
}
