//! The sums of workers' reports.

ghost use Rattle.std.specs.Prelude.{◌≡◌};
ghost use Rattle.rpz_program.specs.Sums.{GathersAll, no_sums, with_report};

use edge_io::Spawner;
use rpz_workers::Report;

/// What became of the jobs of all workers. A sum stands still at 2^64 - 1.
#[derive(Clone, Copy, Debug, PartialEq, Eq)]
pub struct Sums {
    pub replies: u64,
    pub silent: u64,
    pub memory: u64,
    pub failed: u64,
}

/// No job.
pub(crate) fn nothing() -> Sums
    ensures { result ≡ no_sums }
{
    Sums {
        replies: 0,
        silent: 0,
        memory: 0,
        failed: 0,
    }
}

fn add(sums: Sums, report: Report) -> Sums
    ensures { result ≡ with_report sums report }
{
    Sums {
        replies: sums.replies.saturating_add(report.replies),
        silent: sums.silent.saturating_add(report.silent),
        memory: sums.memory.saturating_add(report.memory),
        failed: sums.failed.saturating_add(report.failed),
    }
}

/// Waits for all that was started, and adds up what they report.
pub(crate) fn gather_all<P: Spawner<Report>>(spawner: &mut P) -> Sums
    ensures gathers { GathersAll (P.waiting spawner.old) (P.gathered spawner.old)
        (P.gathered spawner.new) result }
    ensures waiting { P.waiting spawner.new ≡ 0 }
    ensures count { P.faults spawner.new ≡ P.faults spawner.old }
{
    let mut sums = nothing();
    while let Some(report) = spawner.gather() {
        sums = add(sums, report);
    }
    sums
}
