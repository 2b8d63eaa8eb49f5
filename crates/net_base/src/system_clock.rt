//! The system's clock.

ghost use Rattle.std.specs.Prelude.{None};

use edge_io::Clock;
use std::time;
use std::time::{Duration, Instant};

/// The system's clock: the seconds since 1970, modulo 2^32, as they were at its start, and those that went by since, however the system's
/// time is set meanwhile. Where it can't be read, its last reading is given again, and 0 before the first.
#[derive(Drop)]
pub struct SystemClock<R: time::Clock + Copy + Drop> {
    rt: R,
    start: Option<Start>,
    last: u32,
}

// One moment by both clocks.
#[derive(Clone, Copy)]
struct Start {
    since_1970: Duration,
    moment: Instant,
}

impl Start {
    fn read<R: time::Clock>(rt: &R) -> Option<Start> {
        let since_1970 = rt.since_1970().ok()?;
        let moment = Instant::now(rt).ok()?;
        Some(Start { since_1970, moment })
    }
}

impl<R: time::Clock + Copy + Drop> SystemClock<R> {
    /// It starts now.
    pub fn new(rt: R) -> Self {
        SystemClock {
            rt,
            start: Start::read(&rt),
            last: 0,
        }
    }
}

impl<R: time::Clock + Copy + Drop> Clock for SystemClock<R> {
    ghost moments = { λ _. None };

    fn now(&mut self) -> u32 {
        if let Some(start) = self.start
            && let Ok(moment) = Instant::now(&self.rt)
        {
            let since = moment.saturating_duration_since(start.moment);
            let seconds = start.since_1970.saturating_add(since).as_secs();
            self.last = (seconds % (1 << 32)) as u32;
        }
        self.last
    }

    fn another(&mut self) -> Self {
        SystemClock {
            rt: self.rt,
            start: self.start,
            last: self.last,
        }
    }
}
