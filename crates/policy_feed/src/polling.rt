//! What a poll of a zone asks for, and what it gave.

ghost use Rattle.std.specs.Prelude.{◌≡◌, ◌≤◌, length, Some, IfOk, IsSome};
ghost use Rattle.edge_io.specs.declared.frame.TheConstants.{FRAME_MAX};
ghost use Rattle.dns_message.specs.Spelling.{spelling};
ghost use Rattle.ixfr_apply.specs.Marks.{mark_at};
ghost use Rattle.policy_snapshot.specs.Policy.{zone_at};
ghost use Rattle.zone_rows.specs.declared.zone.PlainZone.{PlainZone};
ghost use Rattle.policy_feed.specs.Poll.{request_for};

use dns_name::Octets;
use ixfr_apply::{asks_newer, request, request_newer};
use policy_publish::{Publication, Publisher, StoreName};
use std::alloc::{AllocError, Global};

/// What a poll of a zone gave.
#[derive(Clone, Copy, Debug, PartialEq, Eq)]
pub enum Polled {
    /// We have what the primary has: its serial is this.
    Current { theirs: u32 },
    /// What is new was published: what the zone has now.
    New(Publication),
}

/// The request of this ID for the zone of a number: for what is newer than what is loaded, or for all of it where nothing is loaded or
/// the zone is marked. It is no longer than a frame may be.
pub(crate) fn request_message<N: StoreName>(
    alloc: Global,
    publisher: &Publisher<N>,
    id: u16,
    number: u32,
) -> Result<Octets, AllocError>
    requires { IsSome (zone_at publisher.now.version.zones number) }
    ensures request { IfOk result
        (λ octets. (zone : PlainZone) → zone_at publisher.now.version.zones number ≡ Some zone →
        octets
        ≡ spelling (request_for id (mark_at publisher.now.marks number) zone.origin zone.content)) }
    ensures short { IfOk result (λ octets. length octets ≤ FRAME_MAX) }
{
    let origin = publisher.origin(number);
    let newer = asks_newer(publisher.wanted(number));
    match publisher.soa(number) {
        Some(soa) if newer => request_newer(alloc, id, origin, soa),
        _ => request(alloc, id, origin),
    }
}
