//! The turns of a server: one wake after another.

ghost use Rattle.std.specs.Prelude.{◌≡◌, ◌≤◌, Bool, Err, Some, None, true, false, is_some, IfErr, IfOk, OnErr};
ghost use Rattle.edge_io.specs.Edge.{Rose};
ghost use Rattle.rpz_program.specs.Turning.{Advances, IsOfTurns, StopsAdvancing, WakesUp, ended_by};
ghost use Rattle.rpz_program.specs.Turns.{server_state};

use crate::output::write_lines;
use crate::progress::{Progress, count_notice};
use crate::serve_error::ServeError;
use edge_io::{Clock, Ids, Sink};
use policy_feed::Feeder;
use policy_publish::StoreName;
use server_io::{Wake, WireError, Wires};
use std::alloc::Global;
use std::sync::Wait;

/// For how many seconds the workers are started no later than the first transfers end: a query that comes meanwhile waits in the
/// socket's buffer, and is answered by the rules.
pub const FIRST_PASS_SECONDS: u32 = 2;

// What a turn came to.
#[derive(Clone, Copy)]
pub(crate) struct Turned {
    pub(crate) progress: Progress,
    /// Polls were tried anew.
    pub(crate) is_anew: bool,
    /// How many datagrams were dropped, where all inlets have ended.
    pub(crate) ended: Option<u64>,
}

// How many datagrams were dropped, where the wake says that all inlets have ended.
fn end_in(wake: &Wake) -> Option<u64>
    ensures { result ≡ ended_by wake.now }
{
    match wake {
        Wake::Ended { dropped } => Some(*dropped),
        _ => None,
    }
}

// Whether polls are to be tried anew at this second, where that is to be from another one on.
fn is_time(next_try: Option<u32>, second: u32) -> bool
    ensures { result ≡ true → is_some next_try ≡ true }
{
    match next_try {
        Some(next) => next <= second,
        None => false,
    }
}

// Waits for the next wake.
fn next_wake<W: Wires>(wires: &mut W) -> Result<Wake, ServeError>
    ensures wakes { IfOk result (λ wake. WakesUp wake (W.told wires.old) (W.told wires.new)
        (W.order_faults wires.old) (W.order_faults wires.new)) }
    ensures only { IfErr result IsOfTurns }
    ensures wire_count { W.faults wires.old ≤ W.faults wires.new }
    ensures socket { result ≡ Err ServeError.SocketFault →
        Rose (W.faults wires.old) (W.faults wires.new) }
{
    match wires.wait() {
        Ok(wake) => Ok(wake),
        Err(WireError::Failed) => Err(ServeError::SocketFault),
        Err(WireError::OutOfMemory) => Err(ServeError::OutOfMemory),
    }
}

/// Waits for the next wake, does what it does, and writes the lines. From the second of the next try on, where there is one, polls are
/// tried anew of zones of which nothing was loaded.
pub(crate) fn take_turn<N: StoreName, W: Wires, C: Clock, I: Ids, K: Sink, R: Wait>(
    rt: &R,
    alloc: Global,
    feeder: &mut Feeder<N>,
    wires: &mut W,
    clock: &mut C,
    ids: &mut I,
    out: &mut K,
    progress: Progress,
    next_try: Option<u32>,
) -> Result<Turned, ServeError>
    ensures ok { IfOk result (λ turned. (is_open : Bool) → Advances (is_some next_try)
        (server_state feeder.old (W.told wires.old) (W.order_faults wires.old) (I.ids ids.old)
        (C.moments clock.old) progress.second is_open)
        progress (K.held out.old) turned.ended
        (server_state feeder.new (W.told wires.new) (W.order_faults wires.new) (I.ids ids.new)
        (C.moments clock.new) turned.progress.second is_open)
        turned.progress (K.held out.new)) }
    ensures err { OnErr result ((is_open : Bool) → StopsAdvancing (is_some next_try)
        (server_state feeder.old (W.told wires.old) (W.order_faults wires.old) (I.ids ids.old)
        (C.moments clock.old) progress.second is_open)
        progress (K.held out.old) (K.held out.new)) }
    ensures only { IfErr result IsOfTurns }
    ensures wire_count { W.faults wires.old ≤ W.faults wires.new }
    ensures socket { result ≡ Err ServeError.SocketFault →
        Rose (W.faults wires.old) (W.faults wires.new) }
    ensures count { K.faults out.old ≤ K.faults out.new }
    ensures failed { IfOk result (λ turned. turned.progress.is_cut ≡ true →
        progress.is_cut ≡ false → Rose (K.faults out.old) (K.faults out.new)) }
{
    let wake = next_wake(wires)?;
    let ended = end_in(&wake);
    let second = clock.now();
    let is_anew = is_time(next_try, second);
    let mut text = Vec::new(alloc);
    let what = feeder.turn(rt, wires, ids, second, wake, is_anew, &mut text)?;
    let is_cut = write_lines(out, progress.is_cut, &text)?;
    Ok(Turned {
        progress: Progress {
            is_cut,
            notices: count_notice(progress.notices, what),
            second,
        },
        is_anew,
        ended,
    })
}

/// Takes turns until no transfer is under way, or for [`FIRST_PASS_SECONDS`].
pub(crate) fn take_first_pass<N: StoreName, W: Wires, C: Clock, I: Ids, K: Sink, R: Wait>(
    rt: &R,
    alloc: Global,
    feeder: &mut Feeder<N>,
    wires: &mut W,
    clock: &mut C,
    ids: &mut I,
    out: &mut K,
    progress: Progress,
    began: u32,
) -> Result<Progress, ServeError>
    ensures ok { IfOk result (λ to. (is_open : Bool) → Advances false
        (server_state feeder.old (W.told wires.old) (W.order_faults wires.old) (I.ids ids.old)
        (C.moments clock.old) progress.second is_open)
        progress (K.held out.old) None
        (server_state feeder.new (W.told wires.new) (W.order_faults wires.new) (I.ids ids.new)
        (C.moments clock.new) to.second is_open)
        to (K.held out.new)) }
    ensures err { OnErr result ((is_open : Bool) → StopsAdvancing false
        (server_state feeder.old (W.told wires.old) (W.order_faults wires.old) (I.ids ids.old)
        (C.moments clock.old) progress.second is_open)
        progress (K.held out.old) (K.held out.new)) }
    ensures only { IfErr result IsOfTurns }
    ensures wire_count { W.faults wires.old ≤ W.faults wires.new }
    ensures socket { result ≡ Err ServeError.SocketFault →
        Rose (W.faults wires.old) (W.faults wires.new) }
    ensures count { K.faults out.old ≤ K.faults out.new }
    ensures failed { IfOk result (λ to. to.is_cut ≡ true → progress.is_cut ≡ false →
        Rose (K.faults out.old) (K.faults out.new)) }
{
    let mut progress = progress;
    for _ in rt.forever() {
        if !feeder.is_polling() {
            return Ok(progress);
        }
        let turned = take_turn(rt, alloc, feeder, wires, clock, ids, out, progress, None)?;
        progress = turned.progress;
        let waited = progress.second.saturating_sub(began);
        if turned.ended.is_some() || waited >= FIRST_PASS_SECONDS {
            return Ok(progress);
        }
    }
    unreachable!()
}

/// Takes turns until all inlets have ended, and says how many datagrams were dropped.
pub(crate) fn take_turns<N: StoreName, W: Wires, C: Clock, I: Ids, K: Sink, R: Wait>(
    rt: &R,
    alloc: Global,
    feeder: &mut Feeder<N>,
    wires: &mut W,
    clock: &mut C,
    ids: &mut I,
    out: &mut K,
    progress: Progress,
) -> Result<(Progress, u64), ServeError>
    ensures ok { IfOk result (λ done. (is_open : Bool) → Advances false
        (server_state feeder.old (W.told wires.old) (W.order_faults wires.old) (I.ids ids.old)
        (C.moments clock.old) progress.second is_open)
        progress (K.held out.old) (Some done.1)
        (server_state feeder.new (W.told wires.new) (W.order_faults wires.new) (I.ids ids.new)
        (C.moments clock.new) done.0.second is_open)
        done.0 (K.held out.new)) }
    ensures err { OnErr result ((is_open : Bool) → StopsAdvancing false
        (server_state feeder.old (W.told wires.old) (W.order_faults wires.old) (I.ids ids.old)
        (C.moments clock.old) progress.second is_open)
        progress (K.held out.old) (K.held out.new)) }
    ensures only { IfErr result IsOfTurns }
    ensures wire_count { W.faults wires.old ≤ W.faults wires.new }
    ensures socket { result ≡ Err ServeError.SocketFault →
        Rose (W.faults wires.old) (W.faults wires.new) }
    ensures count { K.faults out.old ≤ K.faults out.new }
    ensures failed { IfOk result (λ done. done.0.is_cut ≡ true → progress.is_cut ≡ false →
        Rose (K.faults out.old) (K.faults out.new)) }
{
    let mut progress = progress;
    for _ in rt.forever() {
        let turned = take_turn(rt, alloc, feeder, wires, clock, ids, out, progress, None)?;
        progress = turned.progress;
        if let Some(dropped) = turned.ended {
            return Ok((progress, dropped));
        }
    }
    unreachable!()
}
