//! One shard of a cache that workers share.

ghost use Rattle.std.specs.Prelude.{◌≡◌, ◌≢◌, ◌≤◌, ◌+◌, ◌%◌, ◌*◌, [], length, map, IfOk, IfSome, OnOk, OnErr};
ghost use Rattle.std.specs.Char.{to_ascii_lowercase};
ghost use Rattle.std.specs.List.{sum};
ghost use Rattle.answer_cache.specs.Key.{key_of};
ghost use Rattle.answer_cache.specs.Recent.{Serves, recent};
ghost use Rattle.answer_cache.specs.Shards.{shard_of};
ghost use Rattle.answer_cache.specs.declared.cache.TheConstants.{MOST_ENTRIES};
ghost use Rattle.upstream_link.specs.Vouched as vouched;

use crate::cache::AnswerCache;
use dns_message::Question;
use edge_io::Link;
use std::alloc::{AllocError, AllocFailed, Global};
use std::hash::RandomState;
use std::marker::Model;
use upstream_link::Learned;

/// How many shards a shared cache has.
pub const SHARDS: u32 = 16;

/// To which shard a question belongs: the octets of its name as it is written, in lower case, are added, and its type; of that the
/// remainder by [`SHARDS`].
pub fn shard_number(question: &Question) -> u8
    ensures { result ≡ shard_of question.now }
{
    remainder(octet_sum(question.name.octets()), question.qtype)
}

// What is left of a sum of octets and a type. The type is given by value, so that its range is known.
fn remainder(total: u32, qtype: u16) -> u8
    requires { total ≤ 255 * 255 }
    ensures { result ≡ (total + qtype) % SHARDS }
{
    ((total + u32::from(qtype)) % SHARDS) as u8
}

// The octets in lower case, added.
fn octet_sum(octets: &[u8]) -> u32
    requires { length octets.now ≤ 255 }
    ensures sum { result ≡ sum (map to_ascii_lowercase octets.now) }
    ensures bound { result ≤ 255 * 255 }
{
    let mut total: u32 = 0;
    for octet in octets {
        total += u32::from(octet.to_ascii_lowercase());
    }
    total
}

// An entry that is looked up goes first at every eighth look-up of its shard alone. To move an entry writes to three others, which
// other threads then have to fetch anew; one that is asked for often goes first all the same.
const MOVES_EVERY: u8 = 8;

/// A shard: what was learned of questions that belong to its number. Contracts see a cache.
#[derive(Drop)]
pub(crate) struct Shard<L: Link> {
    number: u8,
    cache: AnswerCache<L, RandomState>,
    // How many look-ups there were; it wraps.
    look_ups: u8,
}

impl<L: Link> Model for Shard<L> {
    ghost use Rattle.answer_cache.specs.Recent.{Recent};
    ghost use Rattle.answer_cache.specs.Shards.{Belong};

    ghost Value = { Recent };

    ghost view = { λ s. s.cache };

    ghost invariant = { λ s. Belong s.number s.cache.entries };
}

impl<L: Link> Shard<L> {
    /// An empty shard of this number, for at most so many entries.
    pub(crate) fn open(
        alloc: Global,
        number: u8,
        entries: usize,
        hashers: RandomState,
    ) -> Result<Self, AllocError>
        requires some { 1 ≤ entries }
        requires most { entries ≤ MOST_ENTRIES }
        ensures { IfOk result (λ shard. shard ≡ recent [] entries) }
    {
        Ok(Shard {
            number,
            cache: AnswerCache::open(alloc, entries, hashers)?,
            look_ups: 0,
        })
    }

    /// What was learned of the question of this key, if it is live. It takes no memory.
    pub(crate) fn look_up(
        &mut self,
        key: &[u8],
        question: &Question,
        now: u32,
    ) -> Result<Option<Learned<L>>, AllocError>
        requires { key.now ≡ key_of question.now }
        ensures serves { IfOk result (λ entry. IfSome entry (Serves question.now now)) }
    {
        self.look_ups = self.look_ups.wrapping_add(1);
        if self.look_ups % MOVES_EVERY == 0 {
            self.cache.look_up(key, question, now)
        } else {
            self.cache.look_at(key, question, now)
        }
    }

    /// Puts what was learned first, under its key, where this is the shard of its number; else it is given back.
    pub(crate) fn put(
        &mut self,
        number: u8,
        key: Vec<u8>,
        learned: Learned<L>,
    ) -> Result<Option<(Vec<u8>, Learned<L>)>, AllocFailed<(Vec<u8>, Learned<L>)>>
        requires number { number ≡ shard_of learned.question }
        requires key { key.items ≡ key_of learned.question }
        requires some { vouched.life learned ≢ 0 }
    {
        if self.number != number {
            return Ok(Some((key, learned)));
        }
        self.cache.put(key, learned)
    }
}
