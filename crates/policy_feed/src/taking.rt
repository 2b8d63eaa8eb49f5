//! What a poll does with what was read of its transfer.

ghost use Rattle.std.specs.Prelude.{◌≡◌, IfSome, IsSome};
ghost use Rattle.policy_snapshot.specs.Policy.{zone_at};
ghost use Rattle.policy_feed.specs.Poll.{after_refusal};
ghost use Rattle.policy_feed.specs.Taking.{Ends, Offers};

use crate::fault::{FeedError, FeedFault};
use crate::polling::Polled;
use axfr_apply::{Taken, TransferError};
use ixfr_apply::asks_newer;
use policy_publish::{Publisher, StoreName};
use std::sync::Wait;
use zone_rows::{ApplyError, Transfer};

// Marks the zone of this number, of which an answer was refused, where what is newer was wanted.
fn mark_refused<N: StoreName>(publisher: &mut Publisher<N>, number: u32)
    requires { IsSome (zone_at publisher.old.version.zones number) }
    ensures { IfSome (zone_at publisher.old.version.zones number) (λ zone.
        publisher.new ≡ after_refusal publisher.old number zone) }
{
    if asks_newer(publisher.wanted(number)) {
        publisher.mark_whole(number);
    }
}

// Publishes a transfer of the zone of this number.
fn publish_new<N: StoreName, R: Wait>(
    rt: &R,
    publisher: &mut Publisher<N>,
    number: u32,
    transfer: Transfer,
) -> Result<Polled, FeedError>
    requires { IsSome (zone_at publisher.old.version.zones number) }
    ensures { IfSome (zone_at publisher.old.version.zones number) (λ zone.
        Offers number zone transfer result publisher.old publisher.new) }
{
    match publisher.publish(rt, number, transfer) {
        Ok(publication) => Ok(Polled::New(publication)),
        Err(ApplyError::OutOfMemory) => Err(FeedError::OutOfMemory),
        Err(ApplyError::Fault(fault)) => {
            mark_refused(publisher, number);
            Err(FeedError::Fault(FeedFault::Apply(fault)))
        }
    }
}

/// Ends a poll of the zone of this number, of whose transfer this was read: publishes what is new, or marks the zone after a refusal of
/// what is newer. The zone is marked no more where it is current or takes the transfer; out of memory the mark stays. It may wait for
/// readers that are just entering.
pub(crate) fn end_poll<N: StoreName, R: Wait>(
    rt: &R,
    publisher: &mut Publisher<N>,
    number: u32,
    read: Result<Taken, TransferError>,
) -> Result<Polled, FeedError>
    requires { IsSome (zone_at publisher.old.version.zones number) }
    ensures { IfSome (zone_at publisher.old.version.zones number) (λ zone.
        Ends number zone read result publisher.old publisher.new) }
{
    match read {
        Ok(Taken::Current { theirs }) => {
            publisher.unmark(number);
            Ok(Polled::Current { theirs })
        }
        Ok(Taken::New(transfer)) => publish_new(rt, publisher, number, transfer),
        Err(TransferError::OutOfMemory) => Err(FeedError::OutOfMemory),
        Err(TransferError::Fault(fault)) => {
            mark_refused(publisher, number);
            Err(FeedError::Fault(FeedFault::Transfer(fault)))
        }
    }
}
