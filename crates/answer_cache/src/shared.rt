//! One cache for all workers.

ghost use Rattle.std.specs.Prelude.{◌≡◌, ◌≢◌, ◌≤◌, None, IfOk, IfSome, length};
ghost use Rattle.answer_cache.specs.Key.{key_of};
ghost use Rattle.answer_cache.specs.Recent.{Serves};
ghost use Rattle.answer_cache.specs.declared.cache.TheConstants.{MOST_ENTRIES};
ghost use Rattle.answer_cache.specs.declared.shard.TheConstants.{SHARDS};
ghost use Rattle.upstream_link.specs.Vouched as vouched;

use crate::keeps::Keeps;
use crate::key::key_octets;
use crate::shard::{SHARDS, Shard, shard_number};
use dns_message::Question;
use edge_io::Link;
use std::alloc::{AllocError, AllocFailed, Global};
use std::hash::RandomState;
use std::sync::{Arc, Mutex, Wait};
use upstream_link::Learned;

/// How many octets the answers of an entry take at most, but for their TTLs: longer ones would make a full cache take gigabytes.
pub const MOST_OCTETS: usize = 2_048;

/// What links of the kind `L` gave for questions, for all workers of a server: [`SHARDS`](crate::SHARDS) shards, each under a lock, which
/// is held for a look-up or for what is put in, and for nothing else. Names can be made that all belong to one shard, so that they
/// share its lock and its entries; whoever makes them pushes out the entries of that shard alone. The maps of the
/// shards hash with a seed that is drawn at random, since strangers pick the questions.
#[derive(Drop)]
pub struct SharedCache<L: Link> {
    // Each at the place of its number.
    shards: Vec<Mutex<Shard<L>>>,
    ghost all: { length shards.items ≡ SHARDS },
}

impl<L: Link> SharedCache<L> {
    /// Opens an empty cache, for at most so many entries in each shard, 1 to [`MOST_ENTRIES`](crate::MOST_ENTRIES). The maps take
    /// their room here.
    pub fn open(alloc: Global, entries: usize, hashers: RandomState) -> Result<Self, AllocError>
        requires some { 1 ≤ entries }
        requires most { entries ≤ MOST_ENTRIES }
    {
        let mut shards = Vec::with_capacity(alloc, SHARDS as usize)?;
        for number in 0..SHARDS {
            shards.push(Mutex::new(Shard::open(alloc, number as u8, entries, hashers)?))?;
        }
        Ok(SharedCache { shards })
    }

    /// What was learned of the question, if it is live: it has come by now, and its life isn't over. `now` is in seconds. What no lock
    /// tells is whether such an entry is there. No record is copied.
    pub fn get<R: Wait>(
        &self,
        rt: &R,
        alloc: Global,
        question: &Question,
        now: u32,
    ) -> Result<Option<Learned<L>>, AllocError>
        ensures { IfOk result (λ entry. IfSome entry (Serves question.now now)) }
    {
        let key = key_octets(alloc, question)?;
        self.look_up(rt, key.as_slice(), question, now)
    }

    // The same by the key of the question, which is made before the lock is taken.
    fn look_up<R: Wait>(
        &self,
        rt: &R,
        key: &[u8],
        question: &Question,
        now: u32,
    ) -> Result<Option<Learned<L>>, AllocError>
        requires { key.now ≡ key_of question.now }
        ensures { IfOk result (λ entry. IfSome entry (Serves question.now now)) }
    {
        let number = shard_number(question);
        self.shards[usize::from(number)]
            .lock(rt)
            .look_up(key, question, now)
    }

    /// Puts what was learned first in its shard, in place of an entry about its question, and drops the last one where there would
    /// be too many. What has a life of 0 isn't kept, nor what has answers of more than [`MOST_OCTETS`] octets.
    pub fn keep<R: Wait>(
        &self,
        rt: &R,
        alloc: Global,
        question: &Question,
        learned: Learned<L>,
    ) -> Result<(), AllocError>
        requires { learned.question ≡ question.now }
    {
        if learned.life() == 0 || learned.answers_len() > MOST_OCTETS {
            return Ok(());
        }
        let key = key_octets(alloc, question)?.into_vec();
        // what was pushed out, or found no room, is dropped behind the unlock
        match self.put(rt, question, key, learned) {
            Ok(_out) => Ok(()),
            Err(_back) => Err(AllocError),
        }
    }

    // Puts what was learned first in its shard, under its key. The lock is left when this returns, and what is given back is dropped
    // by the caller.
    fn put<R: Wait>(
        &self,
        rt: &R,
        question: &Question,
        key: Vec<u8>,
        learned: Learned<L>,
    ) -> Result<Option<(Vec<u8>, Learned<L>)>, AllocFailed<(Vec<u8>, Learned<L>)>>
        requires question { learned.question ≡ question.now }
        requires key { key.items ≡ key_of learned.question }
        requires some { vouched.life learned ≢ 0 }
    {
        let number = shard_number(question);
        self.shards[usize::from(number)]
            .lock(rt)
            .put(number, key, learned)
    }
}

/// A worker's hold on the cache that all workers share.
#[derive(Drop)]
pub struct Shared<R: Wait + Drop, L: Link> {
    rt: R,
    cache: Arc<SharedCache<L>, Global>,
}

impl<R: Wait + Drop, L: Link> Shared<R, L> {
    /// A hold on the cache.
    pub fn new(rt: R, cache: Arc<SharedCache<L>, Global>) -> Self {
        Shared { rt, cache }
    }
}

impl<R: Wait + Drop, L: Link> Keeps<L> for Shared<R, L> {
    ghost entries = { λ _. None };

    fn get(
        &mut self,
        alloc: Global,
        question: &Question,
        now: u32,
    ) -> Result<Option<Learned<L>>, AllocError> {
        self.cache.get(&self.rt, alloc, question, now)
    }

    fn keep(
        &mut self,
        alloc: Global,
        question: &Question,
        learned: &Learned<L>,
    ) -> Result<(), AllocError> {
        self.cache
            .keep(&self.rt, alloc, question, learned.copied()?)
    }

    fn drop_own(&mut self) {}
}
