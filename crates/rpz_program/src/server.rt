//! The command `serve`.

ghost use Rattle.std.specs.Prelude.{◌≡◌, ◌≢◌, ◌<◌, ◌≤◌, ◌+◌, Err, IfOk, OnErr, OnOk};
ghost use Rattle.edge_io.specs.Edge.{Rose};
ghost use Rattle.rpz_program.specs.Serving.{ServesWhole, StopsServing, plan_of as plan_form, server_start, worker_count};
ghost use Rattle.policy_publish.specs.declared.store.TheConstants.{READER_LIMIT};
ghost use Rattle.rpz_words.specs.Limits.{IsServable};

use crate::feeds::STREAM_WORKERS;
use crate::holding::open_at_start;
use crate::plan::{Plan, PlannedZones, ServerPlan};
use crate::serve_error::ServeError;
use crate::server_cache::open_cache;
use crate::serving::serve_over;
use edge_io::{Clock, Ids, LISTEN_LIMIT, Sink, Spawner};
use policy_override::origins_of;
use policy_publish::{READER_LIMIT, start_store};
use rpz_words::{ASKER_LIMIT, Settings, WORKER_LIMIT};
use rpz_workers::Report;
use server_io::Wires;
use std::alloc::{AllocError, Global};
use std::hash::RandomState;
use std::marker::Brand;
use std::sync::Wait;
use std::thread::Threads;
use std::time;

// each thread that answers has a reader of the store
const _: () = prove!(
    ASKER_LIMIT as usize + WORKER_LIMIT * LISTEN_LIMIT + STREAM_WORKERS <= READER_LIMIT
);

// What a server of these settings does.
fn plan_of(alloc: Global, settings: &Settings) -> Result<ServerPlan, AllocError>
    ensures { IfOk result (λ plan. plan ≡ plan_form settings.now) }
{
    Ok(ServerPlan {
        listen: settings.listen.again(alloc)?,
        admitted: settings.connections,
        turns: settings.turns,
        upstream: settings.upstream,
        askers: settings.askers,
        workers: settings.workers,
        hold: settings.hold,
    })
}

// How many workers read the store: those that ask, those for the datagrams of each endpoint, and those for connections.
fn reader_count(settings: &Settings) -> usize
    requires { IsServable settings.now }
    ensures count { result ≡ worker_count settings.now }
    ensures some { 0 < result }
    ensures few { result ≤ READER_LIMIT }
{
    settings.askers + (settings.workers * settings.listen.len() + STREAM_WORKERS)
}

/// Serves as the settings say: opens the cache that the workers share, opens the endpoints, at once or once the zones were loaded, orders
/// all zones, starts the workers, takes one wake after another, and writes the line that sums up what became of the arrivals. Where the
/// cache finds no memory, nothing was bound yet. A client outside the list of who may ask gets REFUSED, and is looked up nowhere. However
/// it ends, the workers that were started are stopped and gathered first. `hashers` makes the hash of the cache: where strangers pick the
/// questions, one with a random seed.
pub fn serve<
    W: Wires,
    P: Spawner<Report>,
    C: Clock + Drop + Send + 'static,
    I: Ids + Drop + Send + 'static,
    K: Sink,
    R: Threads + Wait + time::Clock + Copy + Drop + Send + Sync + 'static,
>(
    rt: &R,
    alloc: Global,
    settings: &Settings,
    wires: &mut W,
    spawner: &mut P,
    clock: &mut C,
    ids: &mut I,
    out: &mut K,
    hashers: RandomState,
) -> Result<(), ServeError>
    requires { IsServable settings.now }
    ensures ok { OnOk result (ServesWhole
        (server_start settings.now (W.told wires.old) (W.order_faults wires.old) (I.ids ids.old)
        (C.moments clock.old))
        settings.now.turns
        (record {
          waiting = P.waiting spawner.old + worker_count settings.now;
          before = P.gathered spawner.old;
          after = P.gathered spawner.new;
        })
        (K.held out.old) (K.held out.new) (W.told wires.new)) }
    ensures err { OnErr result (StopsServing
        (server_start settings.now (W.told wires.old) (W.order_faults wires.old) (I.ids ids.old)
        (C.moments clock.old))
        settings.now.turns
        (record {
          waiting = P.waiting spawner.old + worker_count settings.now;
          before = P.gathered spawner.old;
          after = P.gathered spawner.new;
        })
        (K.held out.old) (K.held out.new)) }
    ensures waiting { P.waiting spawner.new ≤ P.waiting spawner.old }
    ensures socket { result ≡ Err ServeError.SocketFault →
        Rose (W.faults wires.old) (W.faults wires.new) }
    ensures start { result ≡ Err ServeError.StartFault →
        Rose (P.faults spawner.old) (P.faults spawner.new) }
    ensures failed { result ≡ Err ServeError.WriteFault →
        Rose (K.faults out.old) (K.faults out.new) }
{
    let sets = settings.zones.sets(alloc)?;
    let zones = PlannedZones {
        origins: origins_of(alloc, sets.as_slice())?,
        primaries: settings.zones.primaries(alloc)?,
    };
    let plan = Plan {
        server: plan_of(alloc, settings)?,
        cache: open_cache(alloc, settings.cache, hashers)?,
    };
    if let Err(error) = open_at_start(wires, &plan.server) {
        return Err(error);
    }
    let allowed = settings.allowed.again(alloc)?;
    let parts = start_store(sets, allowed, reader_count(settings));
    serve_over::<Brand, W, P, C, I, K, R>(
        rt, alloc, parts, &plan, hashers, zones, wires, spawner, clock, ids, out,
    )
}
