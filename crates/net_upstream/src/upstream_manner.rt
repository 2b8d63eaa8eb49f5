//! How the upstream takes questions.

use crate::limits::{UPSTREAM_CUTS, UPSTREAM_FEW_QUESTIONS, UPSTREAM_SINGLE_SECONDS};
use crate::upstream_questions::Closing;
use std::time::{Duration, Instant};

/// How the upstream takes questions: several at a time on one connection (RFC 7766, section 6.2.1.1), or one on each. The latter is
/// assumed for `UPSTREAM_SINGLE_SECONDS` where it has closed `UPSTREAM_CUTS` connections in a row, each behind few answers
/// while others were waited for. One that ends behind many answers has other reasons, as an upstream that was started anew.
#[derive(Drop)]
pub(crate) struct UpstreamManner {
    // How many connections it has closed so in a row.
    cuts: u32,
    // Until when it gets one question on each connection.
    single_until: Option<Instant>,
}

impl UpstreamManner {
    /// It takes several.
    pub(crate) fn new() -> Self {
        UpstreamManner {
            cuts: 0,
            single_until: None,
        }
    }

    /// Whether it gets one question on each connection.
    pub(crate) fn is_single(&self, now: Instant) -> bool {
        self.single_until.is_some_and(|until| now < until)
    }

    /// The upstream has closed a connection, so.
    pub(crate) fn note(&mut self, closing: Closing, now: Instant) {
        let few = UPSTREAM_FEW_QUESTIONS as u64;
        if closing.was_cut && closing.answered < few {
            self.cuts = self.cuts.saturating_add(1);
        } else if closing.answered > 1 {
            self.cuts = 0;
        }
        if self.cuts >= UPSTREAM_CUTS {
            self.cuts = 0;
            self.single_until = now.checked_add(Duration::from_secs(UPSTREAM_SINGLE_SECONDS));
        }
    }
}
