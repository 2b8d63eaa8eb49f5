//! The questions of a connection to the upstream.

use crate::answer_place::{Answer, AnswerPlace};
use crate::limits::{
    UPSTREAM_ABANDONED, UPSTREAM_CUT_MILLISECONDS, UPSTREAM_IDLE_SECONDS,
    UPSTREAM_LATE_MILLISECONDS, UPSTREAM_QUESTIONS, UPSTREAM_SILENCE_SECONDS,
};
use crate::upstream_window::UpstreamWindow;
use crate::wire_numbers::WireNumbers;
use std::alloc::{AllocError, Global};
use std::sync::{Arc, Wait};
use std::time::{Duration, Instant};

// A question whose answer has not come.
#[derive(Drop)]
struct Question {
    // Its ID on this connection.
    number: u16,
    // The ID of the message that is asked.
    id: u16,
    // Where its answer comes.
    place: Arc<AnswerPlace>,
    // Somebody waits for it: it wasn't given up.
    is_awaited: bool,
    // How many were asked before it, and how many were answered when it was asked.
    asked_before: u64,
    answered_before: u64,
}

/// How many questions of a connection are not answered, whether it takes one more now, and whether an answer is late.
#[derive(Clone, Copy)]
pub(crate) struct Load {
    pub(crate) asked: usize,
    pub(crate) has_room: bool,
    /// An answer is to come, and none has come for `UPSTREAM_LATE_MILLISECONDS`.
    pub(crate) is_late: bool,
}

impl Load {
    /// Whether one more question is answered sooner here than there, as far as can be told.
    pub(crate) fn is_better(&self, other: &Load) -> bool {
        if self.is_late == other.is_late {
            self.asked < other.asked
        } else {
            other.is_late
        }
    }
}

/// How a connection was closed.
#[derive(Clone, Copy)]
pub(crate) struct Closing {
    /// How many questions were answered on it.
    pub(crate) answered: u64,
    /// It was closed right behind an answer, while others were to come.
    pub(crate) was_cut: bool,
}

/// The questions of a connection to the upstream whose answers have not come, in no order, and whether it takes more of them.
#[derive(Drop)]
pub(crate) struct UpstreamQuestions {
    questions: Vec<Question>,
    // How many of them somebody waits for.
    awaited: usize,
    // How many were asked, and how many answered.
    asked: u64,
    answered: u64,
    // How many were asked up to the newest one that was answered, itself counted.
    newest: u64,
    window: UpstreamWindow,
    // It was closed as `Closing` says.
    was_cut: bool,
    // When the last answer came, whole; or, where no other was to come then, when the first question was asked since.
    heard: Instant,
    // Since when nobody waits, where nobody does.
    idle_since: Instant,
    // It takes no more questions.
    is_retired: bool,
    is_closed: bool,
}

fn is_past(since: Instant, seconds: u64, now: Instant) -> bool {
    now.saturating_duration_since(since) >= Duration::from_secs(seconds)
}

impl UpstreamQuestions {
    /// Nothing was asked by now.
    pub(crate) fn new(alloc: Global, now: Instant) -> Self {
        UpstreamQuestions {
            questions: Vec::new(alloc),
            awaited: 0,
            asked: 0,
            answered: 0,
            newest: 0,
            window: UpstreamWindow::new(),
            was_cut: false,
            heard: now,
            idle_since: now,
            is_retired: false,
            is_closed: false,
        }
    }

    // Whether an answer is to come and none has come for too long. An octet now and then is no answer.
    fn is_silent(&self, now: Instant) -> bool {
        !self.questions.is_empty() && is_past(self.heard, UPSTREAM_SILENCE_SECONDS, now)
    }

    // Whether an answer is to come and none has come for a while.
    fn is_late(&self, now: Instant) -> bool {
        let since = now.saturating_duration_since(self.heard);
        !self.questions.is_empty() && since >= Duration::from_millis(UPSTREAM_LATE_MILLISECONDS)
    }

    /// How many are not answered; `None` where no more questions are taken: it is closed or was retired, no answer came for too long,
    /// or too many were given up.
    pub(crate) fn load(&self, now: Instant) -> Option<Load> {
        let asked = self.questions.len();
        let abandoned = asked.saturating_sub(self.awaited);
        if self.is_closed
            || self.is_retired
            || abandoned >= UPSTREAM_ABANDONED
            || self.is_silent(now)
        {
            return None;
        }
        let has_room = self.awaited < UPSTREAM_QUESTIONS && self.in_turn() < self.window.most();
        Some(Load {
            asked,
            has_room,
            is_late: self.is_late(now),
        })
    }

    // How many stand behind the newest one that was answered.
    fn in_turn(&self) -> usize {
        self.questions
            .iter()
            .filter(|known| known.asked_before >= self.newest)
            .count()
    }

    // A number that no question of this connection has.
    fn free_number(&self, numbers: &mut WireNumbers) -> Option<u16> {
        for _ in 0..u16::MAX {
            let number = numbers.next_number();
            if !self.questions.iter().any(|known| known.number == number) {
                return Some(number);
            }
        }
        None
    }

    /// Takes a question with this ID, whose answer comes to this place, and says under which number it goes out; `None` where the
    /// connection is closed.
    pub(crate) fn ask(
        &mut self,
        numbers: &mut WireNumbers,
        id: u16,
        place: Arc<AnswerPlace>,
        now: Instant,
    ) -> Result<Option<u16>, AllocError> {
        let Some(number) = self.free_number(numbers) else {
            return Ok(None);
        };
        if self.is_closed {
            return Ok(None);
        }
        if self.questions.is_empty() {
            self.heard = now;
        }
        self.questions.push(Question {
            number,
            id,
            place,
            is_awaited: true,
            asked_before: self.asked,
            answered_before: self.answered,
        })?;
        self.asked = self.asked.saturating_add(1);
        self.awaited = self.awaited.saturating_add(1);
        Ok(Some(number))
    }

    // Nobody waits for one of them any more.
    fn leave_one(&mut self, now: Instant) {
        self.awaited = self.awaited.saturating_sub(1);
        self.idle_since = now;
    }

    /// The answer of this number came: the ID that the question had, and who waits for it. `None` where nobody does.
    pub(crate) fn answer(&mut self, number: u16, now: Instant) -> Option<(u16, Arc<AnswerPlace>)> {
        let index = self
            .questions
            .iter()
            .position(|known| known.number == number)?;
        let Question {
            number: _,
            id,
            place,
            is_awaited,
            asked_before,
            answered_before: _,
        } = self.questions.swap_remove(index);
        self.heard = now;
        self.answered = self.answered.saturating_add(1);
        self.newest = self.newest.max(asked_before.saturating_add(1));
        self.window.note_answer();
        if is_awaited {
            self.leave_one(now);
        } else {
            place.come_late();
        }
        if is_awaited { Some((id, place)) } else { None }
    }

    // The place of the question of this number, if somebody waits for it.
    fn awaited_at(&self, number: u16) -> Option<usize> {
        self.questions
            .iter()
            .position(|known| known.number == number && known.is_awaited)
    }

    /// Nobody waits for the answer of this number any more. The number stays taken until its answer comes.
    pub(crate) fn give_up(&mut self, number: u16, now: Instant) {
        let Some(index) = self.awaited_at(number) else {
            return;
        };
        let Some(known) = self.questions.get_mut(index) else {
            return;
        };
        known.is_awaited = false;
        let (asked_before, answered_before) = (known.asked_before, known.answered_before);
        self.leave_one(now);
        if asked_before >= self.newest && self.answered > answered_before {
            let stood = self.in_turn();
            self.window.fall_behind(asked_before, self.asked, stood);
        }
    }

    /// No more questions are taken.
    pub(crate) fn retire(&mut self) {
        self.is_retired = true;
    }

    /// Closes the connection where nobody waits, and it takes no more questions or nobody has waited for `UPSTREAM_IDLE_SECONDS`. Says
    /// whether it is closed.
    pub(crate) fn close_if_done(&mut self, now: Instant) -> bool {
        let is_done = self.load(now).is_none()
            || is_past(self.idle_since, UPSTREAM_IDLE_SECONDS, now);
        if self.awaited == 0 && is_done {
            self.is_closed = true;
        }
        self.is_closed
    }

    /// Takes no more questions, since the connection is to be closed, and says how.
    pub(crate) fn begin_close(&mut self, now: Instant) -> Closing {
        if !self.is_closed && !self.questions.is_empty() && self.answered > 0 {
            let since = now.saturating_duration_since(self.heard);
            self.was_cut = since < Duration::from_millis(UPSTREAM_CUT_MILLISECONDS);
        }
        self.is_closed = true;
        Closing {
            answered: self.answered,
            was_cut: self.was_cut,
        }
    }

    /// Tells whoever waits that the connection is closed. It may be called again.
    pub(crate) fn close<R: Wait>(&mut self, rt: &R) {
        self.is_closed = true;
        self.awaited = 0;
        for _ in 0..self.questions.len() {
            if let Some(question) = self.questions.pop() {
                question.place.give(rt, Answer::Closed);
            }
        }
    }
}
