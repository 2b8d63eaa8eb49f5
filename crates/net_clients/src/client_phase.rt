//! What a connection of a client waits for.

use crate::limits::{
    ANSWER_SECONDS, IDLE_SECONDS, LINGER_SECONDS, MESSAGE_SECONDS, OUTBOX_SECONDS, SILENT_MESSAGES,
};
use std::time::{Duration, Instant};

/// What a connection of a client waits for.
#[derive(Clone, Copy, PartialEq, Eq)]
pub(crate) enum Phase {
    /// The first byte of its next message.
    Idle,
    /// The rest of a message.
    Begun,
    /// A worker.
    Busy,
    /// Replies to messages that are with nobody who has the connection.
    Unanswered,
    /// The client, to take its replies.
    Writing,
    /// The client, to close it, since nothing more is written to it.
    Lingering,
}

impl Phase {
    /// How long it may wait so; without an end where it doesn't wait for the client.
    pub(crate) fn limit(self) -> Option<Duration> {
        match self {
            Phase::Idle => Some(Duration::from_secs(IDLE_SECONDS)),
            Phase::Begun => Some(Duration::from_secs(MESSAGE_SECONDS)),
            Phase::Busy | Phase::Unanswered => None,
            Phase::Writing => Some(Duration::from_secs(OUTBOX_SECONDS)),
            Phase::Lingering => Some(Duration::from_secs(LINGER_SECONDS)),
        }
    }
}

/// How many messages of a connection were given out and not answered. Each is forgotten `ANSWER_SECONDS` after the last of them, since
/// there is none to some; how many these were is counted.
#[derive(Clone, Copy)]
pub(crate) struct Unanswered {
    given: u64,
    answered: u64,
    silent: u64,
    last: Option<Instant>,
}

impl Unanswered {
    /// None was given out.
    pub(crate) fn new() -> Self {
        Unanswered {
            given: 0,
            answered: 0,
            silent: 0,
            last: None,
        }
    }

    /// How many are not answered.
    pub(crate) fn count(&self) -> u32 {
        let count = self.given.saturating_sub(self.answered);
        u32::try_from(count).unwrap_or(u32::MAX)
    }

    /// So many more are given out now.
    pub(crate) fn give(&mut self, count: u32, now: Instant) {
        // what was answered twice or late is no answer to these
        self.given = self
            .given
            .max(self.answered)
            .saturating_add(u64::from(count));
        self.last = Some(now);
    }

    /// So many were answered by now, in all.
    pub(crate) fn learn(&mut self, answered: u64, now: Instant) {
        self.answered = answered;
        let limit = Duration::from_secs(ANSWER_SECONDS);
        let is_over = |last| now.saturating_duration_since(last) >= limit;
        if self.last.is_some_and(is_over) {
            self.silent = self.silent.saturating_add(u64::from(self.count()));
            self.given = self.answered;
            self.last = None;
        }
    }

    /// Whether as many got no answer as may be. Each pause for those that get none is as long as a query may take, so that a client which
    /// sends many such would keep its connection for long.
    pub(crate) fn is_silent(&self) -> bool {
        self.silent >= SILENT_MESSAGES
    }
}
