//! How jobs are counted.

ghost use Rattle.std.specs.Prelude.{◌≡◌};
ghost use Rattle.rpz_workers.specs.Reporting.{no_counts, counted};
ghost use Rattle.rpz_workers.specs.Reports.{counts_of};

use crate::report::Report;
use crate::took::Took;

/// No jobs.
pub(crate) fn nothing_done() -> Report
    ensures { counts_of result ≡ no_counts }
{
    Report {
        jobs: 0,
        replies: 0,
        silent: 0,
        memory: 0,
        failed: 0,
    }
}

/// Counts what became of an item.
pub(crate) fn count(report: Report, took: Took) -> Report
    ensures { counts_of result ≡ counted (counts_of report) took }
{
    if report.jobs == u64::MAX {
        return report;
    }
    match took {
        Took::Reply => Report {
            jobs: report.jobs + 1,
            replies: report.replies + 1,
            silent: report.silent,
            memory: report.memory,
            failed: report.failed,
        },
        Took::Silent => Report {
            jobs: report.jobs + 1,
            replies: report.replies,
            silent: report.silent + 1,
            memory: report.memory,
            failed: report.failed,
        },
        Took::Memory => Report {
            jobs: report.jobs + 1,
            replies: report.replies,
            silent: report.silent,
            memory: report.memory + 1,
            failed: report.failed,
        },
        Took::Failed => Report {
            jobs: report.jobs + 1,
            replies: report.replies,
            silent: report.silent,
            memory: report.memory,
            failed: report.failed + 1,
        },
        Took::PassedOn | Took::Framed | Took::Closed | Took::Learnt | Took::Stop => report,
    }
}
