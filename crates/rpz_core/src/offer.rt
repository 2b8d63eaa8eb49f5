//! What a policy does with a stream that comes as a transfer.

ghost use Rattle.std.specs.Prelude.{◌≡◌, Some, IfOk, IsSome};
ghost use Rattle.axfr_apply.specs.Checks.{Gives};
ghost use Rattle.ixfr_apply.specs.Stream.{reading};
ghost use Rattle.policy_snapshot.specs.Policy.{zone_at};
ghost use Rattle.zone_rows.specs.declared.zone.PlainZone.{PlainZone};
ghost use Rattle.zone_rows.specs.Zone.{apply_outcome};
ghost use Rattle.ixfr_apply.specs.Offer.{content_size, offer, offer_by_outcome, request_of};
ghost use Rattle.rpz_core.specs.Offer.{polling_by, zone_taken};
ghost use Rattle.rpz_core.specs.Offered.{IsOffer, offered_mark, offered_output, offered_polling};

use crate::event::Output;
use axfr_apply::{Taken, TransferError, Wanted};
use dns_name::Octets;
use edge_io::Bytes;
use ixfr_apply::{Refusal, asks_newer, read_transfer, wanted};
use notify_poll::Polling;
use policy_snapshot::Snapshot;
use std::alloc::{AllocError, Global};
use zone_index::Zone;
use zone_rows::{ApplyError, Transfer};

/// What a policy does with a stream that comes as the transfer of a zone.
#[derive(Drop)]
pub(crate) enum Offered {
    /// It takes the transfer, and is this afterwards.
    Takes(Snapshot),
    /// The zone is as new as the primary's, of this serial.
    Current(u32),
    /// The transfer is refused.
    Refuses(Refusal),
}

/// Reads a stream as the transfer of a zone: the zone takes it, is current, or refuses it. `marked` says whether the whole zone was asked
/// for.
pub(crate) fn read_offer(
    alloc: Global,
    policy: &Snapshot,
    number: u32,
    marked: bool,
    zone: &Zone,
    stream: Octets,
) -> Result<Offered, AllocError>
    requires { zone_at policy.now.zones number ≡ Some zone.now }
    ensures { IfOk result
        (λ offered. IsOffer offered policy.now number (offer 0 marked zone.now stream)) }
{
    match read_stream(alloc, stream, marked, zone) {
        Ok(Taken::Current { theirs }) => Ok(Offered::Current(theirs)),
        Ok(Taken::New(transfer)) => applied(alloc, policy, number, transfer),
        Err(TransferError::Fault(fault)) => Ok(Offered::Refuses(Refusal::Transfer(fault))),
        Err(TransferError::OutOfMemory) => Err(AllocError),
    }
}

// What a policy does with a transfer of its zone of this number.
fn applied(
    alloc: Global,
    policy: &Snapshot,
    number: u32,
    transfer: Transfer,
) -> Result<Offered, AllocError>
    requires { IsSome (zone_at policy.now.zones number) }
    ensures { IfOk result
        (λ offered. (zone : PlainZone) → zone_at policy.now.zones number ≡ Some zone →
        IsOffer offered policy.now number
        (offer_by_outcome transfer (apply_outcome zone transfer))) }
{
    match policy.apply(alloc, number, transfer) {
        Ok(next) => Ok(Offered::Takes(next)),
        Err(ApplyError::Fault(fault)) => Ok(Offered::Refuses(Refusal::Apply(fault))),
        Err(ApplyError::OutOfMemory) => Err(AllocError),
    }
}

// Reads the transfer of a zone that is marked or not out of bytes: the answers to a request with the ID 0.
fn read_stream(
    alloc: Global,
    stream: Octets,
    marked: bool,
    zone: &Zone,
) -> Result<Taken, TransferError>
    ensures { Gives result (reading (request_of 0 marked zone.now) stream).0 }
{
    let mut source = Bytes::new(stream.into_vec());
    read_transfer(
        alloc,
        &mut source,
        0,
        zone.origin(),
        wanted(marked, zone.serial()),
    )
}

impl Offered {
    /// Whether the zone is marked afterwards, which was marked or not, and of which this was wanted.
    pub(crate) fn mark_after(&self, marked: bool, wanted: Wanted) -> bool
        ensures { result ≡ offered_mark marked wanted self.now }
    {
        match self {
            Offered::Takes(_) | Offered::Current(_) => false,
            Offered::Refuses(_) => marked || asks_newer(wanted),
        }
    }

    /// How the poll of the zone of this number ended, which is this zone still.
    pub(crate) fn polling(&self, zone: &Zone, number: u32) -> Polling
        ensures { result ≡ offered_polling zone.now.content number self.now }
    {
        match self {
            Offered::Takes(next) => match next.zone(number) {
                None => Polling::Faulty,
                Some(zone) => polling_done(zone),
            },
            Offered::Current(_) => polling_done(zone),
            Offered::Refuses(_) => Polling::Faulty,
        }
    }

    /// What the zone of this number outputs.
    pub(crate) fn output(&self, number: u32) -> Output
        ensures { result ≡ offered_output number self.now }
    {
        match self {
            Offered::Takes(next) => taken(next, number),
            Offered::Current(theirs) => Output::Current {
                zone: number,
                serial: *theirs,
            },
            Offered::Refuses(refusal) => Output::Refused {
                zone: number,
                refusal: *refusal,
            },
        }
    }
}

// How a poll ended behind which a zone is this: the times of its SOA record say when it is polled next.
fn polling_done(zone: &Zone) -> Polling
    ensures { result ≡ polling_by zone.now.content }
{
    match zone.soa() {
        None => Polling::Faulty,
        Some(soa) => Polling::Done {
            refresh: soa.refresh,
            retry: soa.retry,
        },
    }
}

// What is output where the zone of this number took a transfer, and the policy is this now.
fn taken(policy: &Snapshot, number: u32) -> Output
    ensures { result ≡ zone_taken number (zone_at policy.now.zones number) }
{
    let (serial, rows) = match policy.zone(number) {
        None => (0, 0),
        Some(zone) => loaded_size(zone),
    };
    Output::Taken {
        zone: number,
        serial,
        rows,
    }
}

// The serial of the zone and how many rows it has; 0 where nothing is loaded.
fn loaded_size(zone: &Zone) -> (u32, usize)
    ensures { result ≡ content_size zone.now.content }
{
    match (zone.serial(), zone.row_count()) {
        (Some(serial), Some(rows)) => (serial, rows),
        _ => (0, 0),
    }
}
