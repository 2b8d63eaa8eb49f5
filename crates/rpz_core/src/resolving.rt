//! The turns of a query, where live entries of the cache answer what it asks.

ghost use Rattle.std.specs.Prelude.{◌≡◌};
ghost use Rattle.rpz_core.specs.Pending.{Resolves, ResolvesOnce};

use answer_cache::AnswerCache;
use edge_io::ListLink;
use query_session::Session;
use reply_build::Turn;
use std::alloc::{AllocError, Global};
use std::hash::{BuildHasherDefault, FoldHasher};
use upstream_link::FACT_LIMIT;

/// The cache of a core, which what events bring fills: a [`ListLink`] says nothing of what it gave.
pub(crate) type Cache = AnswerCache<ListLink, BuildHasherDefault<FoldHasher>>;

/// The turns of a session at a second: what it asks is answered by live entries of the cache, until a question has none, or it is
/// done. An `Err` leaves what the session knew, and maybe more.
pub(crate) fn resolve(
    alloc: Global,
    cache: &mut Cache,
    session: &mut Session,
    now: u32,
) -> Result<Turn, AllocError>
    ensures turns { Resolves now result cache.old cache.new session.old session.new }
    ensures limit { cache.new.limit ≡ cache.old.limit }
{
    for count in 0..FACT_LIMIT {
        if let Some(turn) = resolve_once(alloc, cache, session, now)? {
            return Ok(turn);
        }
    }
    session.turn()
}

// One turn; `None` where a live entry answered what it asked.
fn resolve_once(
    alloc: Global,
    cache: &mut Cache,
    session: &mut Session,
    now: u32,
) -> Result<Option<Turn>, AllocError>
    ensures turn { ResolvesOnce now result cache.old cache.new session.old session.new }
    ensures limit { cache.new.limit ≡ cache.old.limit }
{
    match session.turn()? {
        Turn::Said(said) => Ok(Some(Turn::Said(said))),
        Turn::Ask(question) => match cache.get(alloc, &question, now)? {
            None => Ok(Some(Turn::Ask(question))),
            Some(learned) => match session.give(learned.fact(alloc, now)?) {
                Ok(()) => Ok(None),
                Err(error) => Err(error),
            },
        },
    }
}
