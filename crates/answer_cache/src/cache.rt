//! The cache.

ghost use Rattle.std.specs.Prelude.{◌≡◌, ◌≢◌, ◌≤◌, [], option_copied, IfOk, IfSome, OnOk, OnErr};
ghost use Rattle.answer_cache.specs.Key.{key_of};
ghost use Rattle.answer_cache.specs.Recent.{AreApart, Serves, live_entry, if_live, after_keep, recent, after_look_up};
ghost use Rattle.upstream_link.specs.Vouched as vouched;

use crate::key::key_octets;
use dns_message::Question;
use edge_io::Link;
use lru::LruCache;
use std::alloc::{AllocError, AllocFailed, Global};
use std::hash::BuildHasher;
use std::marker::Model;
use std::num::NonZeroUsize;
use upstream_link::Learned;

/// How many entries a cache has at most.
pub const MOST_ENTRIES: usize = 65_536;

/// What links of the kind `L` gave for questions, the most recently used first, each for as long as it may be kept. Contracts see
/// the list of its entries, and how many there may be. `S` makes the hashers of its map, which decide on its speed alone: for
/// questions that a stranger picks, one with a random seed.
#[derive(Drop)]
pub struct AnswerCache<L: Link, S: BuildHasher + Drop> {
    entries: LruCache<Vec<u8>, Learned<L>, S>,
}

impl<L: Link, S: BuildHasher + Drop> Model for AnswerCache<L, S> {
    ghost use Rattle.std.specs.Map.{values_of};
    ghost use Rattle.answer_cache.specs.Keyed.{IsKeyed};
    ghost use Rattle.answer_cache.specs.Recent.{Recent, recent};

    ghost Value = { Recent };

    ghost view = { λ c. recent (values_of c.entries.entries) c.entries.cap };

    ghost invariant = { λ c. IsKeyed c.entries.entries };
}

impl<L: Link, S: BuildHasher + Drop> AnswerCache<L, S> {
    /// Opens an empty cache for at most `entries` entries, 1 to [`MOST_ENTRIES`].
    pub fn open(alloc: Global, entries: usize, hashers: S) -> Result<Self, AllocError>
        requires some { 1 ≤ entries }
        requires most { entries ≤ MOST_ENTRIES }
        ensures { IfOk result (λ cache. cache ≡ recent [] entries) }
    {
        let Some(limit) = NonZeroUsize::new(entries) else {
            unreachable!();
        };
        Ok(AnswerCache {
            entries: LruCache::with_hasher(alloc, limit, hashers)?,
        })
    }

    /// What was learned of the question, if it is live: it has come by now, and its life isn't over. `now` is in seconds. An entry
    /// about the question goes first, live or not; there is one at most, since no two entries of a cache are about one question. No
    /// record is copied. An `Err` leaves the cache as it was.
    pub fn get(
        &mut self,
        alloc: Global,
        question: &Question,
        now: u32,
    ) -> Result<Option<Learned<L>>, AllocError>
        ensures found { IfOk result
            (λ entry. entry ≡ live_entry question.now now self.old.entries) }
        ensures serves { IfOk result (λ entry. IfSome entry (Serves question.now now)) }
        ensures apart { AreApart self.old.entries }
        ensures ok { OnOk result
            (self.new ≡ recent (after_look_up question.now self.old.entries) self.old.limit) }
        ensures err { OnErr result (self.new ≡ self.old) }
    {
        // called for its clause: the keys of a map are distinct
        let _count = self.entries.len();
        let key = key_octets(alloc, question)?;
        self.look_up(key.as_slice(), question, now)
    }

    // The same by the key of the question, which is made before a lock is taken, and no entry moves. It takes no memory.
    pub(crate) fn look_at(
        &self,
        key: &[u8],
        question: &Question,
        now: u32,
    ) -> Result<Option<Learned<L>>, AllocError>
        requires { key.now ≡ key_of question.now }
        ensures found { IfOk result
            (λ entry. entry ≡ live_entry question.now now self.now.entries) }
        ensures serves { IfOk result (λ entry. IfSome entry (Serves question.now now)) }
    {
        let _ = question;
        copied_if_live(self.entries.peek(key), now)
    }

    // The same, and an entry about the question goes first, live or not.
    pub(crate) fn look_up(
        &mut self,
        key: &[u8],
        question: &Question,
        now: u32,
    ) -> Result<Option<Learned<L>>, AllocError>
        requires { key.now ≡ key_of question.now }
        ensures found { IfOk result
            (λ entry. entry ≡ live_entry question.now now self.old.entries) }
        ensures serves { IfOk result (λ entry. IfSome entry (Serves question.now now)) }
        ensures ok { OnOk result
            (self.new ≡ recent (after_look_up question.now self.old.entries) self.old.limit) }
        ensures err { OnErr result (self.new ≡ self.old) }
    {
        let entry = self.look_at(key, question, now)?;
        self.entries.promote(key);
        Ok(entry)
    }

    /// Puts what was learned first, in place of an entry about its question, and drops the last one exactly where there would be
    /// too many. What has a life of 0 isn't kept. An `Err` leaves the cache as it was.
    pub fn keep(
        &mut self,
        alloc: Global,
        question: &Question,
        learned: Learned<L>,
    ) -> Result<(), AllocError>
        requires { learned.question ≡ question.now }
        ensures ok { OnOk result (self.new
            ≡ recent (after_keep self.old.limit learned self.old.entries) self.old.limit) }
        ensures err { OnErr result (self.new ≡ self.old) }
    {
        if learned.life() == 0 {
            return Ok(());
        }
        let key = key_octets(alloc, question)?.into_vec();
        match self.put(key, learned) {
            Ok(_out) => Ok(()),
            Err(_back) => Err(AllocError),
        }
    }

    // Puts what was learned first, under its key, which is made before a lock is taken. What it takes the place of, or pushes out, is
    // given back, so that it is dropped behind the unlock; and so is what finds no room.
    pub(crate) fn put(
        &mut self,
        key: Vec<u8>,
        learned: Learned<L>,
    ) -> Result<Option<(Vec<u8>, Learned<L>)>, AllocFailed<(Vec<u8>, Learned<L>)>>
        requires key { key.items ≡ key_of learned.question }
        requires some { vouched.life learned ≢ 0 }
        ensures ok { OnOk result (self.new
            ≡ recent (after_keep self.old.limit learned self.old.entries) self.old.limit) }
        ensures err { OnErr result (self.new ≡ self.old) }
    {
        // called for its clause: there are no more entries than there may be
        let _within = self.entries.len();
        self.entries.push(key, learned)
    }

    /// Drops all entries.
    pub fn clear(&mut self)
        ensures { self.new ≡ recent [] self.old.limit }
    {
        self.entries.clear();
    }
}

// The same by another handle, if it is live.
fn copied_if_live<L: Link>(
    found: Option<&Learned<L>>,
    now: u32,
) -> Result<Option<Learned<L>>, AllocError>
    ensures { IfOk result (λ copy. copy ≡ if_live now (option_copied found.entry)) }
{
    match found {
        Some(learned) if learned.is_live(now) => Ok(Some(learned.copied()?)),
        _ => Ok(None),
    }
}
