//! How long the calls on a connection may wait.

use std::time::{Duration, Instant};
use std::{io, time};

// The time that a socket may wait beyond what is left, as a part of the limit, before it is told less. Telling it costs a system
// call.
const SLACK: u32 = 8;

/// The limit of one direction of a connection: for each call by itself, and for all together. And how long its socket waits at present.
#[derive(Drop)]
pub struct TimeLimit {
    // Until when all calls have to end.
    end: Instant,
    limit: Duration,
    // How long a call of the socket waits.
    wait: Duration,
}

impl TimeLimit {
    /// A socket whose calls wait for the whole limit, and end at this moment at the latest.
    pub fn new(end: Instant, limit: Duration) -> Self {
        TimeLimit {
            end,
            limit,
            wait: limit,
        }
    }

    /// How long the socket has to be told to wait from now on; `None` where what it was told last will do. `TimedOut` comes where no
    /// time is left, and any error where the clock can't be read.
    pub fn next_wait<R: time::Clock>(&mut self, rt: &R) -> io::Result<Option<Duration>> {
        let left = self.left(rt)?;
        if self.wait >= left && self.wait <= left.saturating_add(self.limit / SLACK) {
            return Ok(None);
        }
        self.wait = left;
        Ok(Some(left))
    }

    // What is left for the next call.
    fn left<R: time::Clock>(&self, rt: &R) -> io::Result<Duration> {
        Ok(self.limit.min(time_until(rt, self.end)?))
    }
}

/// The moment that comes after so long.
pub fn moment_after<R: time::Clock>(rt: &R, after: Duration) -> io::Result<Instant> {
    match Instant::now(rt)?.checked_add(after) {
        Some(moment) => Ok(moment),
        None => Err(io::Error::from(io::ErrorKind::TimedOut)),
    }
}

/// How long it is until a moment. `TimedOut` comes where it is over.
pub fn time_until<R: time::Clock>(rt: &R, end: Instant) -> io::Result<Duration> {
    let left = end.saturating_duration_since(Instant::now(rt)?);
    if left.is_zero() {
        return Err(io::Error::from(io::ErrorKind::TimedOut));
    }
    Ok(left)
}
