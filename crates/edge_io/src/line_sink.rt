//! Lines that a thread of its own writes.

ghost use Rattle.std.specs.Prelude.{None};

use crate::edge::{Sink, SinkError};
use crossbeam_channel::{Receiver, Sender, unbounded};
use dns_name::Octets;
use std::alloc::{AllocError, Global};
use std::io::{Print, Write};
use std::sync::atomic::{AtomicBool, AtomicUsize, Ordering};
use std::sync::{Arc, Wait};
use std::thread::Threads;
use std::time::{Clock, Duration};
use std::{io, thread};

/// How many bytes of lines may wait to be written. Where a reader of the output stands still, so many are kept, and what doesn't fit is
/// a fault.
pub const WAITING_LINE_BYTES: usize = 65_536;

// How long the end of a program waits for lines that are still to be written, in pauses of 10 milliseconds.
const LAST_PAUSES: u32 = 100;

// What the thread and the sink share.
#[derive(Drop)]
struct LineState {
    // So many bytes wait.
    waiting: AtomicUsize,
    has_failed: AtomicBool,
}

/// Gives lines to a thread that writes them to the standard output, and never waits for it. At most [`WAITING_LINE_BYTES`] wait there. What
/// doesn't fit is a fault, and so is each write behind one that has failed. Contracts don't know the bytes.
#[derive(Drop)]
pub struct LineSink<R: Wait + Drop> {
    rt: R,
    alloc: Global,
    lines: Sender<Octets>,
    state: Arc<LineState>,
    faults: u64,
}

// Writes lines until no more come. What comes behind a write that has failed is dropped.
fn write_lines<R: Print + Wait + Drop>(rt: R, lines: Receiver<Octets>, state: Arc<LineState>) {
    let mut out = io::writer(&rt);
    for _ in 0..u64::MAX {
        let Ok(bytes) = lines.recv(&rt) else {
            return;
        };
        let has_failed = state.has_failed.load(Ordering::SeqCst);
        if !has_failed && out.write_all(bytes.as_slice()).is_err() {
            state.has_failed.store(true, Ordering::SeqCst);
        }
        state.waiting.fetch_sub(bytes.len(), Ordering::SeqCst);
    }
}

impl<R: Print + Threads + Wait + Copy + Drop + Send + 'static> LineSink<R> {
    /// Starts the thread that writes lines.
    pub fn start(rt: R, alloc: Global) -> Result<Self, AllocError> {
        let (lines, receiver) = unbounded(alloc)?;
        let state = LineState {
            waiting: AtomicUsize::new(0),
            has_failed: AtomicBool::new(false),
        };
        let Ok(state) = Arc::new(alloc, state) else {
            return Err(AllocError);
        };
        let again = Arc::try_clone(&state)?;
        match thread::spawn(&rt, move || write_lines(rt, receiver, again)) {
            // the end of the program doesn't wait for a reader that stands still
            Ok(thread) => drop(thread),
            Err(_) => return Err(AllocError),
        }
        Ok(LineSink {
            rt,
            alloc,
            lines,
            state,
            faults: 0,
        })
    }
}

impl<R: Wait + Drop> LineSink<R> {
    /// Waits until all lines were written, a second at most, and says whether they were.
    pub fn end(&self) -> bool
    where
        R: Clock,
    {
        for _ in 0..LAST_PAUSES {
            if self.state.waiting.load(Ordering::SeqCst) == 0 {
                return !self.state.has_failed.load(Ordering::SeqCst);
            }
            thread::sleep(&self.rt, Duration::from_millis(10));
        }
        false
    }

    // Gives the bytes to the thread, if there is room for them and no write has failed.
    fn give(&self, bytes: Octets) -> bool {
        let len = bytes.len();
        let waiting = self.state.waiting.load(Ordering::SeqCst);
        let is_full = waiting.saturating_add(len) > WAITING_LINE_BYTES;
        if is_full || self.state.has_failed.load(Ordering::SeqCst) {
            return false;
        }
        self.state.waiting.fetch_add(len, Ordering::SeqCst);
        self.lines.send(&self.rt, bytes).is_ok()
    }
}

impl<R: Wait + Drop> Sink for LineSink<R> {
    ghost held = { λ _. None };

    ghost faults = { λ s. s.faults };

    ghost steady = { λ _. ⊥ };

    fn write(&mut self, piece: &[u8]) -> Result<usize, SinkError> {
        let Ok(bytes) = Octets::from_slice(self.alloc, piece) else {
            return Err(SinkError::OutOfMemory);
        };
        if self.give(bytes) {
            return Ok(piece.len());
        }
        self.faults = self.faults.saturating_add(1);
        Err(SinkError::WriteFault)
    }
}
