//! How workers that answer the messages of connections are started.

ghost use Rattle.std.specs.Prelude.{◌≡◌, ◌≢◌, ◌+◌, Err, OnOk};
ghost use Rattle.rpz_program.specs.Starting.{UsesSpawner, UsesWires};

use crate::answering_workers::start_answering;
use crate::feeds::Feeds;
use crate::serve_error::ServeError;
use crate::server_cache::ServerCache;
use edge_io::{Clock, Spawner};
use policy_publish::{PolicyReader, StoreName};
use rpz_workers::Report;
use server_io::Wires;
use std::alloc::Global;
use std::sync::Wait;
use std::thread::Threads;
use std::time;

// An inlet for connections, and a place for replies.
fn wire_streamer<W: Wires>(wires: &mut W) -> Result<(W::Connections, W::Back), ServeError>
    ensures told { W.told wires.new ≡ W.told wires.old }
    ensures uses_wires { UsesWires (result ≡ Err ServeError.SocketFault)
        (W.order_faults wires.old) (W.faults wires.old)
        (W.order_faults wires.new) (W.faults wires.new) }
    ensures not_start { result ≢ Err ServeError.StartFault }
    ensures not_write { result ≢ Err ServeError.WriteFault }
{
    let inlet = match wires.connections() {
        Ok(inlet) => inlet,
        Err(error) => return Err(ServeError::of_wires(error)),
    };
    match wires.replies() {
        Ok(replies) => Ok((inlet, replies)),
        Err(error) => Err(ServeError::of_wires(error)),
    }
}

// Starts a worker that answers the messages of connections, with a clock of its own.
fn start_streamer<
    N: StoreName + Send + Sync + 'static,
    W: Wires,
    P: Spawner<Report>,
    C: Clock + Drop + Send + 'static,
    R: Threads + Wait + time::Clock + Copy + Drop + Send + Sync + 'static,
>(
    rt: &R,
    alloc: Global,
    cache: &ServerCache<W::Up>,
    reader: PolicyReader<N>,
    wires: &mut W,
    spawner: &mut P,
    clock: &mut C,
    feeds: &Feeds<N>,
) -> Result<(), ServeError>
    ensures told { W.told wires.new ≡ W.told wires.old }
    ensures waiting { OnOk result (P.waiting spawner.new ≡ P.waiting spawner.old + 1) }
    ensures moments { C.moments clock.new ≡ C.moments clock.old }
    ensures uses_wires { UsesWires (result ≡ Err ServeError.SocketFault)
        (W.order_faults wires.old) (W.faults wires.old)
        (W.order_faults wires.new) (W.faults wires.new) }
    ensures uses_spawner { UsesSpawner (result ≡ Err ServeError.StartFault)
        (P.gathered spawner.old) (P.faults spawner.old)
        (P.gathered spawner.new) (P.faults spawner.new) }
    ensures not_write { result ≢ Err ServeError.WriteFault }
{
    let (inlet, replies) = wire_streamer(wires)?;
    let own_clock = clock.another();
    start_answering::<N, W, W::Connections, P, C, R>(
        rt, alloc, cache, reader, inlet, replies, spawner, own_clock, feeds,
    )
}

/// Starts so many workers that answer the messages of connections.
pub(crate) fn start_streamers<
    N: StoreName + Send + Sync + 'static,
    W: Wires,
    P: Spawner<Report>,
    C: Clock + Drop + Send + 'static,
    R: Threads + Wait + time::Clock + Copy + Drop + Send + Sync + 'static,
>(
    rt: &R,
    alloc: Global,
    cache: &ServerCache<W::Up>,
    readers: &mut Vec<PolicyReader<N>>,
    count: usize,
    wires: &mut W,
    spawner: &mut P,
    clock: &mut C,
    feeds: &Feeds<N>,
) -> Result<(), ServeError>
    ensures told { W.told wires.new ≡ W.told wires.old }
    ensures waiting { OnOk result (P.waiting spawner.new ≡ P.waiting spawner.old + count) }
    ensures moments { C.moments clock.new ≡ C.moments clock.old }
    ensures uses_wires { UsesWires (result ≡ Err ServeError.SocketFault)
        (W.order_faults wires.old) (W.faults wires.old)
        (W.order_faults wires.new) (W.faults wires.new) }
    ensures uses_spawner { UsesSpawner (result ≡ Err ServeError.StartFault)
        (P.gathered spawner.old) (P.faults spawner.old)
        (P.gathered spawner.new) (P.faults spawner.new) }
    ensures not_write { result ≢ Err ServeError.WriteFault }
{
    for _ in 0..count {
        let Some(reader) = readers.pop() else {
            return Err(ServeError::OutOfMemory);
        };
        start_streamer::<N, W, P, C, R>(rt, alloc, cache, reader, wires, spawner, clock, feeds)?;
    }
    Ok(())
}
