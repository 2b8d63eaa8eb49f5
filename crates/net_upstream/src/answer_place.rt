//! Where a thread waits for the answer to its question.

use dns_name::Octets;
use net_base::{WakeSignal, time_until};
use std::sync::atomic::{AtomicBool, Ordering};
use std::sync::{Mutex, Wait};
use std::time;
use std::time::Instant;

/// What became of a question.
#[derive(Drop)]
pub(crate) enum Answer {
    /// Its answer, with the ID that the question had.
    Message(Octets),
    /// The connection was closed before its answer came.
    Closed,
    /// There was no room for its answer.
    OutOfMemory,
}

/// Where a thread waits for the answer to its question. The lock is held to put an answer in or to take it out.
#[derive(Drop)]
pub(crate) struct AnswerPlace {
    signal: WakeSignal,
    answer: Mutex<Option<Answer>>,
    came_late: AtomicBool,
}

impl AnswerPlace {
    /// No answer is there.
    pub(crate) fn new() -> Self {
        AnswerPlace {
            signal: WakeSignal::new(),
            answer: Mutex::new(None),
            came_late: AtomicBool::new(false),
        }
    }

    /// Puts an answer in, and ends the wait for it.
    pub(crate) fn give<R: Wait>(&self, rt: &R, answer: Answer) {
        let before = self.answer.lock(rt).replace(answer);
        drop(before);
        self.signal.raise();
    }

    /// The answer came when nobody waited for it any more.
    pub(crate) fn come_late(&self) {
        self.came_late.store(true, Ordering::SeqCst);
    }

    /// Whether the answer came when nobody waited for it any more.
    pub(crate) fn came_late(&self) -> bool {
        self.came_late.load(Ordering::SeqCst)
    }

    /// Takes the answer out, once it is there, and waits for it up to this moment; `None` where none came, or the clock can't be read.
    pub(crate) fn wait<R: time::Clock + Wait>(&self, rt: &R, end: Instant) -> Option<Answer> {
        for _ in 0..u64::MAX {
            let count = self.signal.count();
            let answer = self.answer.lock(rt).take();
            if answer.is_some() {
                return answer;
            }
            match time_until(rt, end) {
                Ok(left) => self.signal.wait(rt, count, left),
                Err(_) => return None,
            }
        }
        None
    }
}
