//! How many questions may wait in turn on a connection to the upstream.

use crate::limits::{UPSTREAM_LEAST_QUESTIONS, UPSTREAM_QUESTIONS};

/// How many questions of a connection may stand behind the newest one that was answered. An upstream that answers in turn answers these
/// one after another, so that each is late where more stand than it answers in the time that a query has. So where one of them is given
/// up though others were answered since it was asked, half as many may stand from then on, and behind as many answers one more (as
/// segments of TCP, RFC 5681, section 3.1).
#[derive(Clone, Copy)]
pub(crate) struct UpstreamWindow {
    most: usize,
    // How many were answered since that was changed.
    answered: usize,
    // The number of the first question that was asked behind the last cut.
    cut_before: u64,
}

impl UpstreamWindow {
    /// As many as may stand on a connection at all.
    pub(crate) fn new() -> Self {
        UpstreamWindow {
            most: UPSTREAM_QUESTIONS,
            answered: 0,
            cut_before: 0,
        }
    }

    /// How many may stand.
    pub(crate) fn most(&self) -> usize {
        self.most
    }

    /// A question was answered.
    pub(crate) fn note_answer(&mut self) {
        self.answered = self.answered.saturating_add(1);
        if self.answered >= self.most {
            self.answered = 0;
            self.most = self.most.saturating_add(1).min(UPSTREAM_QUESTIONS);
        }
    }

    /// The question of this number was given up while so many stood, and the next one has the number `next`. It counts once for all that
    /// were asked by now.
    pub(crate) fn fall_behind(&mut self, number: u64, next: u64, stood: usize) {
        if number >= self.cut_before {
            self.cut_before = next;
            self.answered = 0;
            self.most = (stood / 2).max(UPSTREAM_LEAST_QUESTIONS);
        }
    }
}
