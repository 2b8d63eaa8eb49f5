//! The answer to one query, and to some that stand one after another.

ghost use Rattle.std.specs.Prelude.{◌≡◌, map, IfOk};
ghost use Rattle.std.specs.Arc.{arc_value};
ghost use Rattle.policy_snapshot.specs.Stands.{policy_in};
ghost use Rattle.upstream_link.specs.declared.facts.TheConstants.{FACT_LIMIT};
ghost use Rattle.load_gen.specs.Summed.{turn_for};
ghost use Rattle.load_gen.specs.Summed as form;
ghost use Rattle.load_gen.specs.Tallied.{tally_of};
ghost use Rattle.load_gen.specs.Turns.{SaysLast, TurnsOnce};

use crate::load::LoadQuery;
use crate::tally::Tally;
use crate::upstream::fact_for;
use dns_message::KNOWN_KEY;
use ip_prefix::Transport;
use policy_snapshot::Snapshot;
use query_session::Session;
use reply_build::Turn;
use std::alloc::{AllocError, Global};
use std::sync::Arc;
use upstream_link::FACT_LIMIT;

// One turn; `None` where the upstream answered what it asked.
fn turn_once(alloc: Global, session: &mut Session) -> Result<Option<Turn>, AllocError>
    ensures { TurnsOnce result session.old session.new }
{
    match session.turn()? {
        Turn::Said(said) => Ok(Some(Turn::Said(said))),
        Turn::Ask(question) => match session.give(fact_for(alloc, &question)?) {
            Ok(()) => Ok(None),
            Err(error) => Err(error),
        },
    }
}

// What is said once all that a session asks is answered.
fn last_turn(alloc: Global, session: &mut Session) -> Result<Turn, AllocError>
    ensures { IfOk result (SaysLast session.old) }
{
    for _count in 0..FACT_LIMIT {
        if let Some(turn) = turn_once(alloc, session)? {
            return Ok(turn);
        }
    }
    session.turn()
}

// What is said to a query.
fn turn_for(
    alloc: Global,
    policy: &Arc<Snapshot, Global>,
    query: &LoadQuery,
) -> Result<Turn, AllocError>
    ensures { IfOk result (λ turn. turn ≡ form.turn_for (policy_in (arc_value policy.now)) query.now) }
{
    let policy = Arc::try_clone(policy)?;
    let message = query.message.as_slice();
    let udp = Transport::Udp;
    let mut session = Session::start(alloc, KNOWN_KEY, policy, true, message, query.client, udp)?;
    last_turn(alloc, &mut session)
}

/// What queries that stand one after another come to under a policy.
pub(crate) fn tally_under(
    alloc: Global,
    policy: &Snapshot,
    queries: &[LoadQuery],
) -> Result<Tally, AllocError>
    ensures { IfOk result
        (λ tally. tally ≡ tally_of (map (turn_for (policy_in policy.now)) queries.now)) }
{
    let own = Arc::new(alloc, policy.again(alloc)?)?;
    let mut tally = Tally::none();
    for query in queries {
        let turn = turn_for(alloc, &own, query)?;
        tally.add(&turn);
    }
    Ok(tally)
}
