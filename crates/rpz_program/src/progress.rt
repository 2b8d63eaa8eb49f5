//! How far a server has come.

ghost use Rattle.std.specs.Prelude.{◌≡◌, false};
ghost use Rattle.rpz_program.specs.Sums.{no_sums};
ghost use Rattle.rpz_program.specs.Turns.{with_notice};

use crate::sums::{Sums, nothing};
use policy_feed::Notice;

/// How far the lines of a server have come, and what became of the NOTIFYs.
#[derive(Clone, Copy)]
pub(crate) struct Progress {
    /// A write of a line has failed, and nothing is written from then on.
    pub(crate) is_cut: bool,
    pub(crate) notices: Sums,
    /// The second that the clock gave last.
    pub(crate) second: u32,
}

impl Progress {
    /// Nothing has failed, and no NOTIFY has come, at this second.
    pub(crate) fn new(second: u32) -> Self
        ensures cut { result.is_cut ≡ false }
        ensures notices { result.notices ≡ no_sums }
        ensures second { result.second ≡ second }
    {
        Progress {
            is_cut: false,
            notices: nothing(),
            second,
        }
    }
}

/// Sums with what became of one NOTIFY more.
pub(crate) fn count_notice(sums: Sums, what: Option<Notice>) -> Sums
    ensures { result ≡ with_notice sums what }
{
    match what {
        None => sums,
        Some(Notice::Replied) => Sums {
            replies: sums.replies.saturating_add(1),
            ..sums
        },
        Some(Notice::Silent) => Sums {
            silent: sums.silent.saturating_add(1),
            ..sums
        },
        Some(Notice::Memory) => Sums {
            memory: sums.memory.saturating_add(1),
            ..sums
        },
        Some(Notice::Failed) => Sums {
            failed: sums.failed.saturating_add(1),
            ..sums
        },
    }
}
