//! The timer of one zone.

ghost use Rattle.std.specs.Prelude.{◌≡◌, ◌<◌, ◌^◌};
ghost use Rattle.notify_poll.specs.Timers.{after_poll as polled_at, begun as is_begun, first_timer, is_due as due, next_stage as stage_behind, noted as noted_at, pause as pause_of};

use ip_prefix::Addr;

/// The pause before a zone is polled again whose first poll failed, in seconds.
pub const FIRST_RETRY: u32 = 300;

/// The least pause between two polls of a zone, whatever its SOA record says, in seconds.
pub const LEAST_PAUSE: u32 = 60;

/// How a poll of a zone ended.
#[derive(Clone, Copy, Debug, PartialEq, Eq)]
pub enum Polling {
    /// A transfer was taken, or the zone is current. These are the times of the zone's SOA record, in seconds (RFC 1035, section
    /// 3.3.13).
    Done { refresh: u32, retry: u32 },
    /// Neither.
    Faulty,
}

/// Where a zone stands between two polls.
#[derive(Clone, Copy, Debug, PartialEq, Eq)]
pub enum TimerStage {
    /// It is polled from this second on.
    Waits { from: u64 },
    /// A poll of it is under way. Where a NOTIFY was accepted since that began, it is polled again from that second on.
    UnderWay { again: Option<u64> },
}

/// When a zone is polled, and who may send a NOTIFY of it.
#[derive(Clone, Copy, Debug, PartialEq, Eq)]
pub struct Timer {
    /// The zone's primary.
    pub primary: Option<Addr>,
    pub stage: TimerStage,
    /// The pause behind a poll that failed, in seconds: that of the zone's last SOA record.
    pub retry: u32,
}

impl Timer {
    /// A zone that is due from this second on.
    pub(crate) fn first(primary: Option<Addr>, now: u32) -> Self
        ensures { result ≡ first_timer now primary }
    {
        Timer {
            primary,
            stage: TimerStage::Waits {
                from: u64::from(now),
            },
            retry: FIRST_RETRY,
        }
    }

    /// Whether the zone is due: no poll of it is under way, and its moment has come.
    pub(crate) fn is_due(&self, now: u32) -> bool
        ensures { result ≡ due now self.now }
    {
        match self.stage {
            TimerStage::Waits { from } => from <= u64::from(now),
            TimerStage::UnderWay { again: _ } => false,
        }
    }

    /// A NOTIFY of the zone is accepted.
    pub(crate) fn note(self, now: u32) -> Self
        ensures { result ≡ noted_at now self }
    {
        let stage = match self.stage {
            TimerStage::Waits { from: _ } => TimerStage::Waits {
                from: u64::from(now),
            },
            TimerStage::UnderWay { again: _ } => TimerStage::UnderWay {
                again: Some(u64::from(now)),
            },
        };
        Timer { stage, ..self }
    }

    /// A poll of the zone begins.
    pub(crate) fn begin(self) -> Self
        ensures { result ≡ is_begun self }
    {
        Timer {
            stage: TimerStage::UnderWay { again: None },
            ..self
        }
    }

    /// A poll of the zone ends.
    pub(crate) fn end(self, polling: Polling, now: u32) -> Self
        ensures { result ≡ polled_at polling now self }
    {
        match polling {
            Polling::Done { refresh, retry } => Timer {
                primary: self.primary,
                stage: behind(self.stage, u64::from(now) + pause(refresh)),
                retry,
            },
            Polling::Faulty => Timer {
                primary: self.primary,
                stage: behind(self.stage, u64::from(now) + pause(self.retry)),
                retry: self.retry,
            },
        }
    }
}

// The stage behind a poll, where the next one is at this second, unless a NOTIFY came meanwhile.
fn behind(stage: TimerStage, from: u64) -> TimerStage
    ensures { result ≡ stage_behind from stage }
{
    match stage {
        TimerStage::UnderWay { again: Some(noted) } => TimerStage::Waits { from: noted },
        TimerStage::UnderWay { again: None } | TimerStage::Waits { from: _ } => TimerStage::Waits {
            from,
        },
    }
}

// The pause that a SOA record wants, a minute at the least.
fn pause(seconds: u32) -> u64
    ensures value { result ≡ pause_of seconds }
    ensures bound { result < 2 ^ 32 }
{
    u64::from(seconds.max(LEAST_PAUSE))
}
