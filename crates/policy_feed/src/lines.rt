//! The lines of polls.

ghost use Rattle.std.specs.Prelude.{◌≡◌, ◌++◌, IfOk, OnOk, Some};
ghost use Rattle.policy_feed.specs.Lines.{poll_fault_of as poll_fault, poll_line, poll_outcome as outcome, shown_poll as shown};

use crate::fault::{FeedError, FeedFault};
use crate::polling::Polled;
use script_codec::{Shown, ZoneFault, write_shown};
use std::alloc::{AllocError, Global};

/// What a poll gave: that the zone is current, what was published, or why nothing was.
pub type PollOutcome = Result<Polled, ZoneFault>;

fn poll_fault_of(fault: FeedFault) -> ZoneFault
    ensures { result ≡ poll_fault fault }
{
    match fault {
        FeedFault::Transfer(fault) => ZoneFault::Transfer(fault),
        FeedFault::Apply(fault) => ZoneFault::Apply(fault),
    }
}

/// What a poll gave, unless memory ran out.
pub(crate) fn outcome_of(told: Result<Polled, FeedError>) -> Result<PollOutcome, AllocError>
    ensures { IfOk result (λ given. outcome told ≡ Some given) }
{
    match told {
        Ok(polled) => Ok(Ok(polled)),
        Err(FeedError::Fault(fault)) => Ok(Err(poll_fault_of(fault))),
        Err(FeedError::OutOfMemory) => Err(AllocError),
    }
}

fn shown_poll(number: u32, gives: PollOutcome) -> Shown
    ensures { result ≡ shown number gives }
{
    match gives {
        Ok(Polled::Current { theirs }) => Shown::Current {
            zone: number,
            serial: theirs,
        },
        Ok(Polled::New(publication)) => Shown::Taken {
            zone: number,
            serial: publication.serial,
            rows: publication.rows,
        },
        Err(why) => Shown::Refused { zone: number, why },
    }
}

/// Writes the line of a poll of the zone of a number behind the text.
#[tactic(auto, unfolding(crate::specs::Lines::poll_line))]
pub(crate) fn write_line(
    alloc: Global,
    number: u32,
    gives: PollOutcome,
    text: &mut Vec<u8>,
) -> Result<(), AllocError>
    ensures { OnOk result (text.new.items ≡ text.old.items ++ poll_line number gives) }
{
    let line = write_shown(alloc, &shown_poll(number, gives))?;
    text.extend_from_slice(line.as_slice())?;
    Ok(())
}
