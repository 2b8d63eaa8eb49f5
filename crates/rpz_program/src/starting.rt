//! How the workers of a server are started.

ghost use Rattle.std.specs.Prelude.{◌≡◌, ◌≢◌, ◌≤◌, ◌+◌, ◌*◌, length, Err, OnOk};
ghost use Rattle.edge_io.specs.Edge.{Rose};
ghost use Rattle.rpz_program.specs.Turns.{inlets_told, linked_told};
ghost use Rattle.rpz_program.specs.declared.feeds.TheConstants.{STREAM_WORKERS};

use crate::answerers::start_listeners;
use crate::askers::start_askers;
use crate::feeds::{Feeds, STREAM_WORKERS};
use crate::plan::Plan;
use crate::serve_error::ServeError;
use crate::streamers::start_streamers;
use edge_io::{Clock, Ids, Spawner};
use policy_publish::{Latest, PolicyReader, StoreName};
use rpz_workers::Report;
use server_io::Wires;
use std::alloc::Global;
use std::hash::RandomState;
use std::sync::Wait;
use std::thread::Threads;
use std::time;

/// Starts the workers that ask, and then those that answer the messages of connections, and the datagrams of each endpoint, one for each
/// reader, over the cache. They find at the handle what is published. The hashers make the hashes of the list of what is passed on.
pub(crate) fn start_all<
    N: StoreName + Send + Sync + 'static,
    W: Wires,
    P: Spawner<Report>,
    C: Clock + Drop + Send + 'static,
    I: Ids + Drop + Send + 'static,
    R: Threads + Wait + time::Clock + Copy + Drop + Send + Sync + 'static,
>(
    rt: &R,
    alloc: Global,
    plan: &Plan<W::Up>,
    hashers: RandomState,
    readers: &mut Vec<PolicyReader<N>>,
    latest: Latest<N>,
    wires: &mut W,
    spawner: &mut P,
    clock: &mut C,
    ids: &mut I,
) -> Result<(), ServeError>
    ensures told { OnOk result (W.told wires.new
        ≡ inlets_told plan.now.server.workers (length plan.now.server.listen)
        (linked_told plan.now.server.upstream plan.now.server.askers (W.told wires.old))) }
    ensures waiting { OnOk result (P.waiting spawner.new
        ≡ P.waiting spawner.old + (plan.now.server.askers
        + (plan.now.server.workers * length plan.now.server.listen
        + STREAM_WORKERS))) }
    ensures orders { W.order_faults wires.new ≡ W.order_faults wires.old }
    ensures ids { I.ids ids.new ≡ I.ids ids.old }
    ensures moments { C.moments clock.new ≡ C.moments clock.old }
    ensures gathered { P.gathered spawner.new ≡ P.gathered spawner.old }
    ensures wire_count { W.faults wires.old ≤ W.faults wires.new }
    ensures start_count { P.faults spawner.old ≤ P.faults spawner.new }
    ensures socket { result ≡ Err ServeError.SocketFault →
        Rose (W.faults wires.old) (W.faults wires.new) }
    ensures start { result ≡ Err ServeError.StartFault →
        Rose (P.faults spawner.old) (P.faults spawner.new) }
    ensures not_write { result ≢ Err ServeError.WriteFault }
{
    let server = &plan.server;
    let feeds = Feeds::open(alloc, server.askers, hashers, latest)?;
    start_askers::<N, W, P, C, I, R>(
        rt,
        alloc,
        server.upstream,
        &plan.cache,
        readers,
        server.askers,
        wires,
        spawner,
        clock,
        ids,
        &feeds,
    )?;
    start_streamers::<N, W, P, C, R>(
        rt,
        alloc,
        &plan.cache,
        readers,
        STREAM_WORKERS,
        wires,
        spawner,
        clock,
        &feeds,
    )?;
    start_listeners::<N, W, P, C, R>(
        rt,
        alloc,
        &plan.cache,
        readers,
        server.listen.len(),
        server.workers,
        wires,
        spawner,
        clock,
        &feeds,
    )
}
