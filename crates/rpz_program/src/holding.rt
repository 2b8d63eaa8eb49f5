//! Endpoints that are held back until each zone was loaded once.

ghost use Rattle.std.specs.Prelude.{◌≡◌, ◌≢◌, ◌≤◌, ◌⊎◌, Bool, Err, None, true, false, IfErr, IfOk, OnErr, OnOk};
ghost use Rattle.edge_io.specs.Edge.{Rose};
ghost use Rattle.policy_feed.specs.Hastening.{IsLoaded};
ghost use Rattle.rpz_program.specs.Turning.{Advances, IsOfTurns, Reaches, StopsAdvancing, StopsReaching};
ghost use Rattle.rpz_program.specs.Turns.{IsOver, limited_told, opened_told, opens_at_once, server_state, told_at_start};

use crate::plan::ServerPlan;
use crate::progress::Progress;
use crate::serve_error::ServeError;
use crate::turning::{take_first_pass, take_turn};
use edge_io::{Clock, Ids, Sink};
use policy_feed::Feeder;
use policy_publish::StoreName;
use server_io::Wires;
use std::alloc::Global;
use std::sync::Wait;

/// After how many seconds polls are tried anew for the first time while the endpoint is held back. Each pause is twice as long as the
/// one before.
pub const FIRST_TRY_SECONDS: u32 = 2;

/// The longest such pause, in seconds.
pub const LAST_TRY_SECONDS: u32 = 30;

// Lets the inlets give so many arrivals, where there is such a limit.
fn limit_wires<W: Wires>(wires: &mut W, turns: Option<u32>)
    ensures told { W.told wires.new ≡ limited_told turns (W.told wires.old) }
    ensures orders { W.order_faults wires.new ≡ W.order_faults wires.old }
    ensures count { W.faults wires.new ≡ W.faults wires.old }
{
    match turns {
        Some(turns) => wires.limit(turns),
        None => (),
    }
}

// Opens the endpoints, for so many connections and arrivals.
fn open_wires<W: Wires>(wires: &mut W, plan: &ServerPlan) -> Result<(), ServeError>
    ensures told { OnOk result (W.told wires.new ≡ opened_told plan.now (W.told wires.old)) }
    ensures orders { W.order_faults wires.new ≡ W.order_faults wires.old }
    ensures count { W.faults wires.old ≤ W.faults wires.new }
    ensures socket { result ≡ Err ServeError.SocketFault →
        Rose (W.faults wires.old) (W.faults wires.new) }
    ensures only { IfErr result IsOfTurns }
{
    wires.admit(plan.admitted);
    match wires.bind(plan.listen.as_slice()) {
        Ok(()) => {
            limit_wires(wires, plan.turns);
            Ok(())
        }
        Err(error) => Err(ServeError::of_wires(error)),
    }
}

/// Opens the endpoints, unless they are to be held back.
pub(crate) fn open_at_start<W: Wires>(wires: &mut W, plan: &ServerPlan) -> Result<(), ServeError>
    ensures told { OnOk result (W.told wires.new
        ≡ told_at_start (opens_at_once plan.now) plan.now (W.told wires.old)) }
    ensures orders { W.order_faults wires.new ≡ W.order_faults wires.old }
    ensures count { W.faults wires.old ≤ W.faults wires.new }
    ensures socket { result ≡ Err ServeError.SocketFault →
        Rose (W.faults wires.old) (W.faults wires.new) }
    ensures only { IfErr result IsOfTurns }
{
    match plan.hold {
        None => open_wires(wires, plan),
        Some(_) => Ok(()),
    }
}

// Whether the seconds are over for which the endpoint is held back at the most.
fn is_over(hold: Option<u32>, began: u32, second: u32) -> bool
    ensures { result ≡ true → IsOver hold began second }
{
    match hold {
        None | Some(0) => false,
        Some(seconds) => u64::from(began) + u64::from(seconds) <= u64::from(second),
    }
}

// Takes turns until each zone was loaded once, or the time is over. Zones of which nothing was loaded are polled again and again.
fn wait_for_zones<N: StoreName, W: Wires, C: Clock, I: Ids, K: Sink, R: Wait>(
    rt: &R,
    alloc: Global,
    hold: Option<u32>,
    feeder: &mut Feeder<N>,
    wires: &mut W,
    clock: &mut C,
    ids: &mut I,
    out: &mut K,
    progress: Progress,
    began: u32,
) -> Result<Progress, ServeError>
    ensures ok { IfOk result (λ to. (is_open : Bool) → Advances true
        (server_state feeder.old (W.told wires.old) (W.order_faults wires.old) (I.ids ids.old)
        (C.moments clock.old) progress.second is_open)
        progress (K.held out.old) None
        (server_state feeder.new (W.told wires.new) (W.order_faults wires.new) (I.ids ids.new)
        (C.moments clock.new) to.second is_open)
        to (K.held out.new)) }
    ensures may_open { IfOk result (λ to. IsLoaded feeder.new ⊎ IsOver hold began to.second) }
    ensures err { OnErr result ((is_open : Bool) → StopsAdvancing true
        (server_state feeder.old (W.told wires.old) (W.order_faults wires.old) (I.ids ids.old)
        (C.moments clock.old) progress.second is_open)
        progress (K.held out.old) (K.held out.new)) }
    ensures only { IfErr result IsOfTurns }
    ensures wire_count { W.faults wires.old ≤ W.faults wires.new }
    ensures socket { result ≡ Err ServeError.SocketFault →
        Rose (W.faults wires.old) (W.faults wires.new) }
    ensures count { K.faults out.old ≤ K.faults out.new }
    ensures failed { IfOk result (λ to. to.is_cut ≡ true → progress.is_cut ≡ false →
        Rose (K.faults out.old) (K.faults out.new)) }
{
    let mut progress = progress;
    let mut pause = FIRST_TRY_SECONDS;
    let mut next_try = began.saturating_add(pause);
    for _ in rt.forever() {
        if feeder.is_loaded() {
            return Ok(progress);
        }
        if is_over(hold, began, progress.second) {
            return Ok(progress);
        }
        let turned = take_turn(
            rt,
            alloc,
            feeder,
            wires,
            clock,
            ids,
            out,
            progress,
            Some(next_try),
        )?;
        progress = turned.progress;
        if turned.is_anew {
            pause = pause.saturating_mul(2).min(LAST_TRY_SECONDS);
            next_try = progress.second.saturating_add(pause);
        }
    }
    unreachable!()
}

// Whether the endpoint is not held back.
fn is_open_at_once(plan: &ServerPlan) -> bool
    ensures { result ≡ opens_at_once plan.now }
{
    plan.hold.is_none()
}

// Opens an endpoint that was held back, once each zone was loaded or the time is over.
fn hold_back<N: StoreName, W: Wires, C: Clock, I: Ids, K: Sink, R: Wait>(
    rt: &R,
    alloc: Global,
    plan: &ServerPlan,
    feeder: &mut Feeder<N>,
    wires: &mut W,
    clock: &mut C,
    ids: &mut I,
    out: &mut K,
    progress: Progress,
    began: u32,
) -> Result<Progress, ServeError>
    ensures ok { IfOk result (λ to. Reaches plan.now began
        (server_state feeder.old (W.told wires.old) (W.order_faults wires.old) (I.ids ids.old)
        (C.moments clock.old) progress.second (opens_at_once plan.now))
        progress (K.held out.old)
        (server_state feeder.new (W.told wires.new) (W.order_faults wires.new) (I.ids ids.new)
        (C.moments clock.new) to.second true)
        to (K.held out.new)) }
    ensures err { OnErr result (StopsReaching plan.now began
        (server_state feeder.old (W.told wires.old) (W.order_faults wires.old) (I.ids ids.old)
        (C.moments clock.old) progress.second (opens_at_once plan.now))
        progress (K.held out.old) (K.held out.new)) }
    ensures only { IfErr result IsOfTurns }
    ensures wire_count { W.faults wires.old ≤ W.faults wires.new }
    ensures socket { result ≡ Err ServeError.SocketFault →
        Rose (W.faults wires.old) (W.faults wires.new) }
    ensures count { K.faults out.old ≤ K.faults out.new }
    ensures failed { IfOk result (λ to. to.is_cut ≡ true → progress.is_cut ≡ false →
        Rose (K.faults out.old) (K.faults out.new)) }
{
    if is_open_at_once(plan) {
        return Ok(progress);
    }
    let waited = wait_for_zones(
        rt, alloc, plan.hold, feeder, wires, clock, ids, out, progress, began,
    )?;
    open_wires(wires, plan)?;
    Ok(waited)
}

/// Opens an endpoint that was held back, once each zone was loaded or the time is over, and then takes turns until no transfer is under
/// way, or for [`FIRST_PASS_SECONDS`](crate::FIRST_PASS_SECONDS) from the start on.
pub(crate) fn come_to_open<N: StoreName, W: Wires, C: Clock, I: Ids, K: Sink, R: Wait>(
    rt: &R,
    alloc: Global,
    plan: &ServerPlan,
    feeder: &mut Feeder<N>,
    wires: &mut W,
    clock: &mut C,
    ids: &mut I,
    out: &mut K,
    progress: Progress,
    began: u32,
) -> Result<Progress, ServeError>
    ensures ok { IfOk result (λ to. Reaches plan.now began
        (server_state feeder.old (W.told wires.old) (W.order_faults wires.old) (I.ids ids.old)
        (C.moments clock.old) progress.second (opens_at_once plan.now))
        progress (K.held out.old)
        (server_state feeder.new (W.told wires.new) (W.order_faults wires.new) (I.ids ids.new)
        (C.moments clock.new) to.second true)
        to (K.held out.new)) }
    ensures err { OnErr result (StopsReaching plan.now began
        (server_state feeder.old (W.told wires.old) (W.order_faults wires.old) (I.ids ids.old)
        (C.moments clock.old) progress.second (opens_at_once plan.now))
        progress (K.held out.old) (K.held out.new)) }
    ensures only { IfErr result IsOfTurns }
    ensures wire_count { W.faults wires.old ≤ W.faults wires.new }
    ensures socket { result ≡ Err ServeError.SocketFault →
        Rose (W.faults wires.old) (W.faults wires.new) }
    ensures count { K.faults out.old ≤ K.faults out.new }
    ensures failed { IfOk result (λ to. to.is_cut ≡ true → progress.is_cut ≡ false →
        Rose (K.faults out.old) (K.faults out.new)) }
{
    let opened = hold_back(
        rt, alloc, plan, feeder, wires, clock, ids, out, progress, began,
    )?;
    take_first_pass(rt, alloc, feeder, wires, clock, ids, out, opened, began)
}
