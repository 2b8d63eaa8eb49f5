//! What a worker needs of a cache.

ghost use Rattle.std.specs.Prelude.{◌≡◌, Option, Some, IfOk, IfSome, OnOk, OnErr};
ghost use Rattle.answer_cache.specs.Keeps.{IsFound, emptied, kept, looked_up};
ghost use Rattle.answer_cache.specs.Recent.{Recent, Serves};

use crate::cache::AnswerCache;
use dns_message::Question;
use edge_io::Link;
use std::alloc::{AllocError, Global};
use std::hash::BuildHasher;
use upstream_link::Learned;

/// A cache of what links of the kind `L` gave: a worker's own, whose entries contracts see, or one that others use as well.
pub trait Keeps<L: Link> {
    /// Its entries, where it tells them.
    ghost entries: { Self → Option Recent };

    /// What was learned of the question, if it is live. `now` is in seconds. An `Err` leaves the cache as it was.
    fn get(
        &mut self,
        alloc: Global,
        question: &Question,
        now: u32,
    ) -> Result<Option<Learned<L>>, AllocError>
        ensures serves { IfOk result (λ entry. IfSome entry (Serves question.now now)) }
        ensures found { IfOk result (λ entry. IsFound question.now now entry (entries self.old)) }
        ensures ok { OnOk result (entries self.new ≡ looked_up question.now (entries self.old)) }
        ensures err { OnErr result (entries self.new ≡ entries self.old) };

    /// Keeps what was learned of the question, by another handle. An `Err` leaves the cache as it was.
    fn keep(
        &mut self,
        alloc: Global,
        question: &Question,
        learned: &Learned<L>,
    ) -> Result<(), AllocError>
        requires { learned.now.question ≡ question.now }
        ensures ok { OnOk result (entries self.new ≡ kept learned.now (entries self.old)) }
        ensures err { OnErr result (entries self.new ≡ entries self.old) };

    /// Drops the entries that nobody else uses, which gives memory back: all of a cache of one's own, none of one that is shared.
    fn drop_own(&mut self)
        ensures { entries self.new ≡ emptied (entries self.old) };
}

impl<L: Link, S: BuildHasher + Drop> Keeps<L> for AnswerCache<L, S> {
    ghost entries = { λ cache. Some cache };

    fn get(
        &mut self,
        alloc: Global,
        question: &Question,
        now: u32,
    ) -> Result<Option<Learned<L>>, AllocError> {
        AnswerCache::get(self, alloc, question, now)
    }

    fn keep(
        &mut self,
        alloc: Global,
        question: &Question,
        learned: &Learned<L>,
    ) -> Result<(), AllocError> {
        AnswerCache::keep(self, alloc, question, learned.copied()?)
    }

    fn drop_own(&mut self) {
        self.clear();
    }
}
