//! What the thread waits for that has the wires.

use crate::orders::Orders;
use net_base::limits::WAKE_SECONDS;
use net_base::{WireState, moment_after, time_until};
use net_clients::Service;
use server_io::Wake;
use std::sync::Wait;
use std::time;
use std::time::Duration;

/// Waits for the next wake, `WAKE_SECONDS` at most: a NOTIFY or the end of all inlets, if there is a service, and what comes of orders.
/// `None` says that the service has failed, or that the clock can't be read.
pub(crate) fn next_wake<R: time::Clock + Wait + Copy + Drop>(
    rt: &R,
    wires: &WireState,
    service: &mut Option<Service<R>>,
    orders: &mut Orders,
) -> Option<Wake> {
    let end = moment_after(rt, Duration::from_secs(WAKE_SECONDS)).ok()?;
    for _ in 0..u64::MAX {
        let count = wires.signal.count();
        if let Some(service) = service {
            if service.has_failed() {
                return None;
            }
            if let Some(wake) = service.look(rt) {
                return Some(wake);
            }
        }
        if let Some(wake) = orders.take(rt) {
            return Some(wake);
        }
        match time_until(rt, end) {
            Ok(left) => wires.signal.wait(rt, count, left),
            Err(_) => return Some(Wake::Due),
        }
    }
    Some(Wake::Due)
}
