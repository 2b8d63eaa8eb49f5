//! A run of a server.

ghost use Rattle.std.specs.Prelude.{◌≡◌, ◌≢◌, ◌≤◌, ◌+◌, ◌*◌, ◌⊎◌, Err, IfErr, IfOk, OnErr, OnOk, true, false, length};
ghost use Rattle.edge_io.specs.Edge.{Rose, WritesPrefix, appended};
ghost use Rattle.rpz_program.specs.Serving.{ServesBy, ServesWhole, StopsIn, StopsServing, sums_line};
ghost use Rattle.rpz_program.specs.Turning.{IsOfLines, IsOfTurns, OrdersFirst, RunsAll, StopsFirst, StopsRunning};
ghost use Rattle.rpz_program.specs.Turns.{RunsOn, opens_at_once, server_state};
ghost use Rattle.rpz_program.specs.declared.feeds.TheConstants.{STREAM_WORKERS};
ghost use Rattle.policy_feed.specs.Feed.{feed_of};
ghost use Rattle.policy_override.specs.ZoneSet.{origins_in};

use crate::holding::come_to_open;
use crate::output::write_lines;
use crate::plan::{Plan, PlannedZones};
use crate::progress::Progress;
use crate::serve_error::ServeError;
use crate::served_line::served_text;
use crate::starting::start_all;
use crate::sums::{Sums, gather_all};
use crate::turning::take_turns;
use edge_io::{Clock, Ids, Sink, SinkError, Spawner, write_all};
use policy_feed::Feeder;
use policy_publish::{Parts, PolicyReader, StoreName};
use rpz_workers::Report;
use server_io::Wires;
use std::alloc::Global;
use std::hash::RandomState;
use std::sync::Wait;
use std::thread::Threads;
use std::time;

// Writes the line that ends a run.
fn write_served<K: Sink>(
    alloc: Global,
    turns: Option<u32>,
    sums: Sums,
    notices: Sums,
    dropped: u64,
    out: &mut K,
) -> Result<(), ServeError>
    ensures ok { OnOk result
        (K.held out.new ≡ appended (K.held out.old) (sums_line turns sums notices dropped)) }
    ensures err { OnErr result
        (WritesPrefix (sums_line turns sums notices dropped) (K.held out.old) (K.held out.new)) }
    ensures only { IfErr result IsOfLines }
    ensures count { K.faults out.old ≤ K.faults out.new }
    ensures failed { result ≡ Err ServeError.WriteFault →
        Rose (K.faults out.old) (K.faults out.new) }
{
    let text = served_text(
        alloc,
        turns,
        sums.replies.saturating_add(notices.replies),
        sums.silent.saturating_add(notices.silent),
        sums.memory
            .saturating_add(notices.memory)
            .saturating_add(dropped),
        sums.failed.saturating_add(notices.failed),
    )?;
    match write_all(out, text.as_bytes()) {
        Ok(()) => Ok(()),
        Err(SinkError::WriteFault) => Err(ServeError::WriteFault),
        Err(SinkError::OutOfMemory) => Err(ServeError::OutOfMemory),
    }
}

// Orders what is due at the start, and writes the lines of what could not be begun.
fn order_first<N: StoreName, W: Wires, I: Ids, K: Sink, R: Wait>(
    rt: &R,
    alloc: Global,
    feeder: &mut Feeder<N>,
    wires: &mut W,
    ids: &mut I,
    out: &mut K,
    now: u32,
) -> Result<Progress, ServeError>
    ensures ok { IfOk result (λ to. OrdersFirst now
        (feed_of feeder.old (W.told wires.old) (W.order_faults wires.old) (I.ids ids.old))
        (K.held out.old)
        (feed_of feeder.new (W.told wires.new) (W.order_faults wires.new) (I.ids ids.new))
        to (K.held out.new)) }
    ensures err { OnErr result (StopsFirst now
        (feed_of feeder.old (W.told wires.old) (W.order_faults wires.old) (I.ids ids.old))
        (K.held out.old) (K.held out.new)) }
    ensures only { IfErr result IsOfTurns }
    ensures wire_count { W.faults wires.new ≡ W.faults wires.old }
    ensures not_socket { result ≢ Err ServeError.SocketFault }
    ensures count { K.faults out.old ≤ K.faults out.new }
    ensures failed { IfOk result (λ to. to.is_cut ≡ true →
        Rose (K.faults out.old) (K.faults out.new)) }
{
    let mut text = Vec::new(alloc);
    feeder.order_due(rt, wires, ids, now, &mut text)?;
    let is_cut = write_lines(out, false, &text)?;
    Ok(Progress {
        is_cut,
        ..Progress::new(now)
    })
}

// Orders what is due, opens an endpoint that was held back, starts the workers once the first transfers have ended or it takes long, and
// takes the turns of the server. Says how far its lines have come, and how many datagrams were dropped.
fn run_turns<
    N: StoreName + Send + Sync + 'static,
    W: Wires,
    P: Spawner<Report>,
    C: Clock + Drop + Send + 'static,
    I: Ids + Drop + Send + 'static,
    K: Sink,
    R: Threads + Wait + time::Clock + Copy + Drop + Send + Sync + 'static,
>(
    rt: &R,
    alloc: Global,
    plan: &Plan<W::Up>,
    hashers: RandomState,
    feeder: &mut Feeder<N>,
    readers: &mut Vec<PolicyReader<N>>,
    wires: &mut W,
    spawner: &mut P,
    clock: &mut C,
    ids: &mut I,
    out: &mut K,
    now: u32,
) -> Result<(Progress, u64), ServeError>
    ensures ok { IfOk result (λ done. RunsAll plan.now.server now
        (server_state feeder.old (W.told wires.old) (W.order_faults wires.old) (I.ids ids.old)
        (C.moments clock.old) now (opens_at_once plan.now.server))
        (K.held out.old)
        (server_state feeder.new (W.told wires.new) (W.order_faults wires.new) (I.ids ids.new)
        (C.moments clock.new) done.0.second true)
        done.0 done.1 (K.held out.new)) }
    ensures err { OnErr result (StopsRunning plan.now.server now
        (server_state feeder.old (W.told wires.old) (W.order_faults wires.old) (I.ids ids.old)
        (C.moments clock.old) now (opens_at_once plan.now.server))
        (K.held out.old) (K.held out.new)) }
    ensures waiting { OnOk result (P.waiting spawner.new
        ≡ P.waiting spawner.old + (plan.now.server.askers
        + (plan.now.server.workers * length plan.now.server.listen
        + STREAM_WORKERS))) }
    ensures gathered { P.gathered spawner.new ≡ P.gathered spawner.old }
    ensures wire_count { W.faults wires.old ≤ W.faults wires.new }
    ensures start_count { P.faults spawner.old ≤ P.faults spawner.new }
    ensures count { K.faults out.old ≤ K.faults out.new }
    ensures socket { result ≡ Err ServeError.SocketFault →
        Rose (W.faults wires.old) (W.faults wires.new) }
    ensures start { result ≡ Err ServeError.StartFault →
        Rose (P.faults spawner.old) (P.faults spawner.new) }
    ensures not_write { result ≢ Err ServeError.WriteFault }
    ensures failed { IfOk result (λ done. done.0.is_cut ≡ true →
        Rose (K.faults out.old) (K.faults out.new)) }
{
    let first = order_first(rt, alloc, feeder, wires, ids, out, now)?;
    let server = &plan.server;
    let passed = come_to_open(
        rt, alloc, server, feeder, wires, clock, ids, out, first, now,
    )?;
    start_all(
        rt,
        alloc,
        plan,
        hashers,
        readers,
        feeder.latest()?,
        wires,
        spawner,
        clock,
        ids,
    )?;
    take_turns(rt, alloc, feeder, wires, clock, ids, out, passed)
}

// Writes the line that ends a run whose turns were all taken, unless a write has failed before.
fn finish<K: Sink>(
    alloc: Global,
    turns: Option<u32>,
    sums: Sums,
    progress: Progress,
    dropped: u64,
    out: &mut K,
) -> Result<(), ServeError>
    ensures ok { OnOk result ((progress.is_cut ≡ false) × (K.held out.new
        ≡ appended (K.held out.old) (sums_line turns sums progress.notices dropped))) }
    ensures err { OnErr result (((progress.is_cut ≡ true) × (K.held out.new ≡ K.held out.old))
        ⊎ ((progress.is_cut ≡ false)
        × WritesPrefix (sums_line turns sums progress.notices dropped) (K.held out.old)
        (K.held out.new))) }
    ensures only { IfErr result IsOfLines }
    ensures failed { result ≡ Err ServeError.WriteFault →
        (progress.is_cut ≡ true) ⊎ Rose (K.faults out.old) (K.faults out.new) }
    ensures count { K.faults out.old ≤ K.faults out.new }
{
    if progress.is_cut {
        return Err(ServeError::WriteFault);
    }
    write_served(alloc, turns, sums, progress.notices, dropped, out)
}

// Serves to its end; then the workers end and are gathered, however it ended.
fn serve_open<
    N: StoreName + Send + Sync + 'static,
    W: Wires,
    P: Spawner<Report>,
    C: Clock + Drop + Send + 'static,
    I: Ids + Drop + Send + 'static,
    K: Sink,
    R: Threads + Wait + time::Clock + Copy + Drop + Send + Sync + 'static,
>(
    rt: &R,
    alloc: Global,
    plan: &Plan<W::Up>,
    hashers: RandomState,
    feeder: &mut Feeder<N>,
    readers: &mut Vec<PolicyReader<N>>,
    wires: &mut W,
    spawner: &mut P,
    clock: &mut C,
    ids: &mut I,
    out: &mut K,
    now: u32,
) -> Result<(), ServeError>
    ensures ok { OnOk result (ServesBy
        (RunsOn plan.now.server now
        (server_state feeder.old (W.told wires.old) (W.order_faults wires.old) (I.ids ids.old)
        (C.moments clock.old) now (opens_at_once plan.now.server)))
        plan.now.server.turns
        (record {
          waiting = P.waiting spawner.old + (plan.now.server.askers
              + (plan.now.server.workers * length plan.now.server.listen
              + STREAM_WORKERS));
          before = P.gathered spawner.old;
          after = P.gathered spawner.new;
        })
        (K.held out.old) (K.held out.new) (W.told wires.new)) }
    ensures err { OnErr result (StopsIn
        (RunsOn plan.now.server now
        (server_state feeder.old (W.told wires.old) (W.order_faults wires.old) (I.ids ids.old)
        (C.moments clock.old) now (opens_at_once plan.now.server)))
        plan.now.server.turns
        (record {
          waiting = P.waiting spawner.old + (plan.now.server.askers
              + (plan.now.server.workers * length plan.now.server.listen
              + STREAM_WORKERS));
          before = P.gathered spawner.old;
          after = P.gathered spawner.new;
        })
        (K.held out.old) (K.held out.new)) }
    ensures waiting { P.waiting spawner.new ≡ 0 }
    ensures wire_count { W.faults wires.old ≤ W.faults wires.new }
    ensures socket { result ≡ Err ServeError.SocketFault →
        Rose (W.faults wires.old) (W.faults wires.new) }
    ensures start { result ≡ Err ServeError.StartFault →
        Rose (P.faults spawner.old) (P.faults spawner.new) }
    ensures failed { result ≡ Err ServeError.WriteFault →
        Rose (K.faults out.old) (K.faults out.new) }
{
    let ran = run_turns(
        rt, alloc, plan, hashers, feeder, readers, wires, spawner, clock, ids, out, now,
    );
    // workers end once no arrival can come any more
    wires.stop();
    let sums = gather_all(spawner);
    match ran {
        Ok((progress, dropped)) => finish(alloc, plan.server.turns, sums, progress, dropped, out),
        Err(error) => Err(error),
    }
}

/// Serves by a store of its own, whose zones are these, and whose list says who may ask.
pub(crate) fn serve_over<
    N: StoreName + Send + Sync + 'static,
    W: Wires,
    P: Spawner<Report>,
    C: Clock + Drop + Send + 'static,
    I: Ids + Drop + Send + 'static,
    K: Sink,
    R: Threads + Wait + time::Clock + Copy + Drop + Send + Sync + 'static,
>(
    rt: &R,
    alloc: Global,
    parts: Parts,
    plan: &Plan<W::Up>,
    hashers: RandomState,
    zones: PlannedZones,
    wires: &mut W,
    spawner: &mut P,
    clock: &mut C,
    ids: &mut I,
    out: &mut K,
) -> Result<(), ServeError>
    requires store { parts ≡ N.store }
    requires origins { zones.origins.items ≡ origins_in parts.settings }
    requires primaries { length zones.primaries.items ≡ length parts.settings }
    ensures ok { OnOk result (ServesWhole
        (record {
          zones = parts.settings;
          primaries = zones.primaries.items;
          allowed = parts.allowed;
          plan = plan.now.server;
          told = W.told wires.old;
          faults = W.order_faults wires.old;
          ids = I.ids ids.old;
          moments = C.moments clock.old;
        })
        plan.now.server.turns
        (record {
          waiting = P.waiting spawner.old + (plan.now.server.askers
              + (plan.now.server.workers * length plan.now.server.listen
              + STREAM_WORKERS));
          before = P.gathered spawner.old;
          after = P.gathered spawner.new;
        })
        (K.held out.old) (K.held out.new) (W.told wires.new)) }
    ensures err { OnErr result (StopsServing
        (record {
          zones = parts.settings;
          primaries = zones.primaries.items;
          allowed = parts.allowed;
          plan = plan.now.server;
          told = W.told wires.old;
          faults = W.order_faults wires.old;
          ids = I.ids ids.old;
          moments = C.moments clock.old;
        })
        plan.now.server.turns
        (record {
          waiting = P.waiting spawner.old + (plan.now.server.askers
              + (plan.now.server.workers * length plan.now.server.listen
              + STREAM_WORKERS));
          before = P.gathered spawner.old;
          after = P.gathered spawner.new;
        })
        (K.held out.old) (K.held out.new)) }
    ensures waiting { P.waiting spawner.new ≤ P.waiting spawner.old }
    ensures wire_count { W.faults wires.old ≤ W.faults wires.new }
    ensures socket { result ≡ Err ServeError.SocketFault →
        Rose (W.faults wires.old) (W.faults wires.new) }
    ensures start { result ≡ Err ServeError.StartFault →
        Rose (P.faults spawner.old) (P.faults spawner.new) }
    ensures failed { result ≡ Err ServeError.WriteFault →
        Rose (K.faults out.old) (K.faults out.new) }
{
    let (publisher, mut readers) = parts.open::<N, R>(rt, alloc)?;
    let now = clock.now();
    let PlannedZones { origins, primaries } = zones;
    let mut feeder = Feeder::start(rt, alloc, publisher, origins, primaries, now)?;
    let served = serve_open(
        rt,
        alloc,
        plan,
        hashers,
        &mut feeder,
        &mut readers,
        wires,
        spawner,
        clock,
        ids,
        out,
        now,
    );
    feeder.close(rt);
    served
}
