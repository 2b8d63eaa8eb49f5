//! How workers that ask the upstream are started.

ghost use Rattle.std.specs.Prelude.{◌≡◌, ◌≢◌, ◌+◌, Err, OnErr, OnOk};
ghost use Rattle.std.specs.Option.{option_map};
ghost use Rattle.server_io.specs.Wired.{with_linked};
ghost use Rattle.rpz_program.specs.Starting.{UsesSpawner, UsesWires};
ghost use Rattle.rpz_program.specs.Turns.{linked_told};

use crate::feeds::Feeds;
use crate::serve_error::ServeError;
use crate::server_cache::{ServerCache, hold};
use crate::tasks::start_task;
use answer_cache::Shared;
use edge_io::{Clock, Deadline, Endpoint, Ids, Link, Spawner};
use policy_publish::{PolicyReader, StoreName};
use rpz_workers::{NoGate, NoOnward, Report, RequestItems, ServeTask, Worker};
use server_io::Wires;
use std::alloc::{AllocError, Global};
use std::sync::Wait;
use std::thread::Threads;
use std::time;

// A link to the upstream that keeps to this deadline, and a place for replies.
fn wire_asker<W: Wires>(
    wires: &mut W,
    upstream: Endpoint,
    deadline: Deadline,
) -> Result<(W::Up, W::Back), ServeError>
    ensures told { OnOk result
        (W.told wires.new ≡ option_map (with_linked upstream) (W.told wires.old)) }
    ensures uses_wires { UsesWires (result ≡ Err ServeError.SocketFault)
        (W.order_faults wires.old) (W.faults wires.old)
        (W.order_faults wires.new) (W.faults wires.new) }
    ensures not_start { result ≢ Err ServeError.StartFault }
    ensures not_write { result ≢ Err ServeError.WriteFault }
{
    let mut link = match wires.link(upstream) {
        Ok(link) => link,
        Err(error) => return Err(ServeError::of_wires(error)),
    };
    link.keep_to(deadline);
    match wires.replies() {
        Ok(replies) => Ok((link, replies)),
        Err(error) => Err(ServeError::of_wires(error)),
    }
}

// What a worker that asks is given: a hold on the cache, what it takes, and the handle on when its time is over, for its link.
fn asking_parts<N: StoreName, L: Link, R: Wait + time::Clock + Copy + Drop>(
    rt: &R,
    alloc: Global,
    cache: &ServerCache<L>,
    feeds: &Feeds<N>,
) -> Result<(Shared<R, L>, RequestItems<N, R>, Deadline), AllocError> {
    let shared = hold(rt, cache)?;
    let (items, deadline) = feeds.passed(rt, alloc)?;
    Ok((shared, items, deadline))
}

// Starts a worker that asks over the link, over the cache that all workers share.
fn start_asking<
    N: StoreName + Send + Sync + 'static,
    W: Wires,
    P: Spawner<Report>,
    C: Clock + Drop + Send + 'static,
    I: Ids + Drop + Send + 'static,
    R: Threads + Wait + time::Clock + Copy + Drop + Send + Sync + 'static,
>(
    rt: &R,
    alloc: Global,
    key: u64,
    shared: Shared<R, W::Up>,
    reader: PolicyReader<N>,
    items: RequestItems<N, R>,
    link: W::Up,
    replies: W::Back,
    spawner: &mut P,
    clock: C,
    ids: I,
) -> Result<(), ServeError>
    ensures ok { OnOk result (P.waiting spawner.new ≡ P.waiting spawner.old + 1) }
    ensures err { OnErr result (P.waiting spawner.new ≡ P.waiting spawner.old) }
    ensures uses_spawner { UsesSpawner (result ≡ Err ServeError.StartFault)
        (P.gathered spawner.old) (P.faults spawner.old)
        (P.gathered spawner.new) (P.faults spawner.new) }
    ensures not_socket { result ≢ Err ServeError.SocketFault }
    ensures not_write { result ≢ Err ServeError.WriteFault }
{
    let worker = Worker::new(alloc, key, reader, shared, link, ids, NoGate);
    start_task(
        rt,
        spawner,
        ServeTask::new(*rt, worker, items, replies, clock, NoOnward),
    )
}

// Starts a worker that asks, with a clock and IDs of its own.
fn start_asker<
    N: StoreName + Send + Sync + 'static,
    W: Wires,
    P: Spawner<Report>,
    C: Clock + Drop + Send + 'static,
    I: Ids + Drop + Send + 'static,
    R: Threads + Wait + time::Clock + Copy + Drop + Send + Sync + 'static,
>(
    rt: &R,
    alloc: Global,
    upstream: Endpoint,
    cache: &ServerCache<W::Up>,
    reader: PolicyReader<N>,
    wires: &mut W,
    spawner: &mut P,
    clock: &mut C,
    ids: &mut I,
    feeds: &Feeds<N>,
) -> Result<(), ServeError>
    ensures told { OnOk result
        (W.told wires.new ≡ option_map (with_linked upstream) (W.told wires.old)) }
    ensures waiting { OnOk result (P.waiting spawner.new ≡ P.waiting spawner.old + 1) }
    ensures ids { I.ids ids.new ≡ I.ids ids.old }
    ensures moments { C.moments clock.new ≡ C.moments clock.old }
    ensures uses_wires { UsesWires (result ≡ Err ServeError.SocketFault)
        (W.order_faults wires.old) (W.faults wires.old)
        (W.order_faults wires.new) (W.faults wires.new) }
    ensures uses_spawner { UsesSpawner (result ≡ Err ServeError.StartFault)
        (P.gathered spawner.old) (P.faults spawner.old)
        (P.gathered spawner.new) (P.faults spawner.new) }
    ensures not_write { result ≢ Err ServeError.WriteFault }
{
    let (shared, items, deadline) = asking_parts(rt, alloc, cache, feeds)?;
    let (link, replies) = wire_asker(wires, upstream, deadline)?;
    let (own_clock, own_ids) = (clock.another(), ids.another());
    start_asking::<N, W, P, C, I, R>(
        rt,
        alloc,
        feeds.key(),
        shared,
        reader,
        items,
        link,
        replies,
        spawner,
        own_clock,
        own_ids,
    )
}

/// Starts so many workers that ask.
pub(crate) fn start_askers<
    N: StoreName + Send + Sync + 'static,
    W: Wires,
    P: Spawner<Report>,
    C: Clock + Drop + Send + 'static,
    I: Ids + Drop + Send + 'static,
    R: Threads + Wait + time::Clock + Copy + Drop + Send + Sync + 'static,
>(
    rt: &R,
    alloc: Global,
    upstream: Endpoint,
    cache: &ServerCache<W::Up>,
    readers: &mut Vec<PolicyReader<N>>,
    count: usize,
    wires: &mut W,
    spawner: &mut P,
    clock: &mut C,
    ids: &mut I,
    feeds: &Feeds<N>,
) -> Result<(), ServeError>
    ensures told { OnOk result
        (W.told wires.new ≡ linked_told upstream count (W.told wires.old)) }
    ensures waiting { OnOk result (P.waiting spawner.new ≡ P.waiting spawner.old + count) }
    ensures ids { I.ids ids.new ≡ I.ids ids.old }
    ensures moments { C.moments clock.new ≡ C.moments clock.old }
    ensures uses_wires { UsesWires (result ≡ Err ServeError.SocketFault)
        (W.order_faults wires.old) (W.faults wires.old)
        (W.order_faults wires.new) (W.faults wires.new) }
    ensures uses_spawner { UsesSpawner (result ≡ Err ServeError.StartFault)
        (P.gathered spawner.old) (P.faults spawner.old)
        (P.gathered spawner.new) (P.faults spawner.new) }
    ensures not_write { result ≢ Err ServeError.WriteFault }
{
    for _ in 0..count {
        let Some(reader) = readers.pop() else {
            return Err(ServeError::OutOfMemory);
        };
        start_asker::<N, W, P, C, I, R>(
            rt, alloc, upstream, cache, reader, wires, spawner, clock, ids, feeds,
        )?;
    }
    Ok(())
}
