//! How workers that answer the datagrams of listeners are started.

ghost use Rattle.std.specs.Prelude.{◌≡◌, ◌≢◌, ◌+◌, ◌*◌, Err, OnOk};
ghost use Rattle.std.specs.Option.{option_map};
ghost use Rattle.server_io.specs.Wired.{with_inlet};
ghost use Rattle.rpz_program.specs.Starting.{UsesSpawner, UsesWires};
ghost use Rattle.rpz_program.specs.Turns.{inlet_told, inlets_told};

use crate::answering_workers::start_answering;
use crate::feeds::Feeds;
use crate::serve_error::ServeError;
use crate::server_cache::ServerCache;
use edge_io::{Clock, Spawner};
use policy_publish::{PolicyReader, StoreName};
use rpz_workers::Report;
use server_io::Wires;
use std::alloc::Global;
use std::sync::Wait;
use std::thread::Threads;
use std::time;

// An inlet for the datagrams of a listener, and a place for replies.
fn wire_answerer<W: Wires>(
    wires: &mut W,
    listener: usize,
) -> Result<(W::Datagrams, W::Back), ServeError>
    ensures told { OnOk result
        (W.told wires.new ≡ option_map (with_inlet listener) (W.told wires.old)) }
    ensures uses_wires { UsesWires (result ≡ Err ServeError.SocketFault)
        (W.order_faults wires.old) (W.faults wires.old)
        (W.order_faults wires.new) (W.faults wires.new) }
    ensures not_start { result ≢ Err ServeError.StartFault }
    ensures not_write { result ≢ Err ServeError.WriteFault }
{
    let inlet = match wires.datagrams(listener) {
        Ok(inlet) => inlet,
        Err(error) => return Err(ServeError::of_wires(error)),
    };
    match wires.replies() {
        Ok(replies) => Ok((inlet, replies)),
        Err(error) => Err(ServeError::of_wires(error)),
    }
}

// Starts a worker that answers the datagrams of a listener, with a clock of its own.
fn start_answerer<
    N: StoreName + Send + Sync + 'static,
    W: Wires,
    P: Spawner<Report>,
    C: Clock + Drop + Send + 'static,
    R: Threads + Wait + time::Clock + Copy + Drop + Send + Sync + 'static,
>(
    rt: &R,
    alloc: Global,
    cache: &ServerCache<W::Up>,
    reader: PolicyReader<N>,
    listener: usize,
    wires: &mut W,
    spawner: &mut P,
    clock: &mut C,
    feeds: &Feeds<N>,
) -> Result<(), ServeError>
    ensures told { OnOk result
        (W.told wires.new ≡ option_map (with_inlet listener) (W.told wires.old)) }
    ensures waiting { OnOk result (P.waiting spawner.new ≡ P.waiting spawner.old + 1) }
    ensures moments { C.moments clock.new ≡ C.moments clock.old }
    ensures uses_wires { UsesWires (result ≡ Err ServeError.SocketFault)
        (W.order_faults wires.old) (W.faults wires.old)
        (W.order_faults wires.new) (W.faults wires.new) }
    ensures uses_spawner { UsesSpawner (result ≡ Err ServeError.StartFault)
        (P.gathered spawner.old) (P.faults spawner.old)
        (P.gathered spawner.new) (P.faults spawner.new) }
    ensures not_write { result ≢ Err ServeError.WriteFault }
{
    let (inlet, replies) = wire_answerer(wires, listener)?;
    let own_clock = clock.another();
    start_answering::<N, W, W::Datagrams, P, C, R>(
        rt, alloc, cache, reader, inlet, replies, spawner, own_clock, feeds,
    )
}

// Starts so many workers that answer the datagrams of a listener.
fn start_answerers<
    N: StoreName + Send + Sync + 'static,
    W: Wires,
    P: Spawner<Report>,
    C: Clock + Drop + Send + 'static,
    R: Threads + Wait + time::Clock + Copy + Drop + Send + Sync + 'static,
>(
    rt: &R,
    alloc: Global,
    cache: &ServerCache<W::Up>,
    readers: &mut Vec<PolicyReader<N>>,
    listener: usize,
    count: usize,
    wires: &mut W,
    spawner: &mut P,
    clock: &mut C,
    feeds: &Feeds<N>,
) -> Result<(), ServeError>
    ensures told { OnOk result
        (W.told wires.new ≡ inlet_told listener count (W.told wires.old)) }
    ensures waiting { OnOk result (P.waiting spawner.new ≡ P.waiting spawner.old + count) }
    ensures moments { C.moments clock.new ≡ C.moments clock.old }
    ensures uses_wires { UsesWires (result ≡ Err ServeError.SocketFault)
        (W.order_faults wires.old) (W.faults wires.old)
        (W.order_faults wires.new) (W.faults wires.new) }
    ensures uses_spawner { UsesSpawner (result ≡ Err ServeError.StartFault)
        (P.gathered spawner.old) (P.faults spawner.old)
        (P.gathered spawner.new) (P.faults spawner.new) }
    ensures not_write { result ≢ Err ServeError.WriteFault }
{
    for _ in 0..count {
        let Some(reader) = readers.pop() else {
            return Err(ServeError::OutOfMemory);
        };
        start_answerer::<N, W, P, C, R>(
            rt, alloc, cache, reader, listener, wires, spawner, clock, feeds,
        )?;
    }
    Ok(())
}

/// Starts so many workers that answer datagrams for each of so many listeners.
pub(crate) fn start_listeners<
    N: StoreName + Send + Sync + 'static,
    W: Wires,
    P: Spawner<Report>,
    C: Clock + Drop + Send + 'static,
    R: Threads + Wait + time::Clock + Copy + Drop + Send + Sync + 'static,
>(
    rt: &R,
    alloc: Global,
    cache: &ServerCache<W::Up>,
    readers: &mut Vec<PolicyReader<N>>,
    listeners: usize,
    workers: usize,
    wires: &mut W,
    spawner: &mut P,
    clock: &mut C,
    feeds: &Feeds<N>,
) -> Result<(), ServeError>
    ensures told { OnOk result
        (W.told wires.new ≡ inlets_told workers listeners (W.told wires.old)) }
    ensures waiting { OnOk result
        (P.waiting spawner.new ≡ P.waiting spawner.old + workers * listeners) }
    ensures moments { C.moments clock.new ≡ C.moments clock.old }
    ensures uses_wires { UsesWires (result ≡ Err ServeError.SocketFault)
        (W.order_faults wires.old) (W.faults wires.old)
        (W.order_faults wires.new) (W.faults wires.new) }
    ensures uses_spawner { UsesSpawner (result ≡ Err ServeError.StartFault)
        (P.gathered spawner.old) (P.faults spawner.old)
        (P.gathered spawner.new) (P.faults spawner.new) }
    ensures not_write { result ≢ Err ServeError.WriteFault }
{
    for listener in 0..listeners {
        start_answerers::<N, W, P, C, R>(
            rt, alloc, cache, readers, listener, workers, wires, spawner, clock, feeds,
        )?;
    }
    Ok(())
}
