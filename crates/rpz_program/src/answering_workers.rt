//! How a worker that answers from the rules and the cache is started, whatever it takes messages from.

ghost use Rattle.std.specs.Prelude.{◌≡◌, ◌≢◌, ◌+◌, Err, OnErr, OnOk};
ghost use Rattle.rpz_program.specs.Starting.{UsesSpawner};

use crate::feeds::Feeds;
use crate::serve_error::ServeError;
use crate::server_cache::{ServerCache, hold};
use crate::tasks::start_task;
use answer_cache::Shared;
use edge_io::{Clock, Link, Spawner};
use policy_publish::{Latest, PolicyReader, StoreName};
use rpz_workers::{AsksNobody, InletItems, Report, RequestOnward, ServeTask, Worker};
use server_io::{Inlet, Wires};
use std::alloc::{AllocError, Global};
use std::sync::Wait;
use std::thread::Threads;
use std::time;

// What a worker that answers is given: a hold on the cache, the handle on what is published, and where it passes on what needs the
// upstream.
fn answering_parts<N: StoreName, L: Link, R: Wait + time::Clock + Copy + Drop>(
    rt: &R,
    alloc: Global,
    cache: &ServerCache<L>,
    feeds: &Feeds<N>,
) -> Result<(Shared<R, L>, Latest<N>, RequestOnward<N, R>), AllocError> {
    let shared = hold(rt, cache)?;
    let latest = feeds.latest()?;
    let onward = feeds.onward(rt, alloc)?;
    Ok((shared, latest, onward))
}

/// Starts a worker that answers from the rules and the cache, and passes on what needs the upstream.
pub(crate) fn start_answering<
    N: StoreName + Send + Sync + 'static,
    W: Wires,
    Q: Inlet<W::In, W::Out> + Drop + Send + 'static,
    P: Spawner<Report>,
    C: Clock + Drop + Send + 'static,
    R: Threads + Wait + time::Clock + Copy + Drop + Send + Sync + 'static,
>(
    rt: &R,
    alloc: Global,
    cache: &ServerCache<W::Up>,
    reader: PolicyReader<N>,
    inlet: Q,
    replies: W::Back,
    spawner: &mut P,
    clock: C,
    feeds: &Feeds<N>,
) -> Result<(), ServeError>
    ensures ok { OnOk result (P.waiting spawner.new ≡ P.waiting spawner.old + 1) }
    ensures err { OnErr result (P.waiting spawner.new ≡ P.waiting spawner.old) }
    ensures uses_spawner { UsesSpawner (result ≡ Err ServeError.StartFault)
        (P.gathered spawner.old) (P.faults spawner.old)
        (P.gathered spawner.new) (P.faults spawner.new) }
    ensures not_socket { result ≢ Err ServeError.SocketFault }
    ensures not_write { result ≢ Err ServeError.WriteFault }
{
    let (shared, latest, onward) = answering_parts(rt, alloc, cache, feeds)?;
    let items = InletItems::new(*rt, inlet, latest);
    let worker: Worker<N, W::Up, Shared<R, W::Up>, AsksNobody> = Worker::passing_on(
        alloc,
        feeds.key(),
        reader,
        shared,
    );
    start_task(
        rt,
        spawner,
        ServeTask::new(*rt, worker, items, replies, clock, onward),
    )
}
