//! Small values that the calls are tried with.

ghost use Rattle.std.specs.Prelude.{◌≡◌, true, OnErr, OnOk};
ghost use Rattle.dns_record.specs.Serial.{is_newer};
ghost use Rattle.zone_rows.specs.Steps.{ends_at};

use crate::sheet::Sheet;
use crate::tried::{after, beside};
use crate::try_error::TryError;
use dns_name::{Name, Octets};
use dns_record::{Row, Soa, class, read_record};
use edge_io::ListLink;
use ip_prefix::Addr;
use policy_snapshot::Snapshot;
use std::alloc::{AllocError, Global};
use trigger_codec::trigger_of;
use zone_index::Zone;
use zone_rows::{Rows, Step, Steps, Transfer};

/// Rows of the zone `rpz.example`, as they stand in a message: `bad.example` CNAME `.`, by which the name doesn't exist.
pub const DENIED: &[u8] = b"\x03bad\x07example\x03rpz\x07example\0\0\x05\0\x01\0\0\0<\0\x01\0";

/// `x.example` A 192.0.2.8.
pub const FRESH: &[u8] =
    b"\x01x\x07example\x03rpz\x07example\0\0\x01\0\x01\0\0\0<\0\x04\xc0\0\x02\x08";

/// Queries for the addresses of `bad.example` and `x.example`, of the IDs 4659 and 4661.
pub const DENIED_QUERY: &[u8] = b"\x12\x33\x01\0\0\x01\0\0\0\0\0\0\x03bad\x07example\0\0\x01\0\x01";

pub const QUERY: &[u8] = b"\x12\x35\x01\0\0\x01\0\0\0\0\0\0\x01x\x07example\0\0\x01\0\x01";

/// What the upstream gives for the last one, in a message of the ID 0: 198.51.100.9, with the TTL 60.
pub const RESPONSE: &[u8] =
    b"\0\0\x81\x80\0\x01\0\x01\0\0\0\0\x01x\x07example\0\0\x01\0\x01\x01x\x07example\0\0\x01\0\x01\0\0\0\x3c\0\x04\xc6\x33\x64\x09";

/// The client, 198.51.100.7.
pub const CLIENT_ADDR: Addr = Addr::V4(0xc633_6407);

/// The zone's name.
pub fn origin(alloc: Global) -> Result<Name, TryError> {
    Ok(Name::from_text(alloc, b"rpz.example")?)
}

/// The SOA of a serial, with the root for both names.
pub fn soa(alloc: Global, serial: u32) -> Result<Soa, AllocError> {
    let mname = Name::root(alloc)?;
    let (mname, rname) = beside(mname, Name::root(alloc))?;
    Ok(Soa {
        mname,
        rname,
        serial,
        refresh: 3_600,
        retry: 600,
        expire: 86_400,
        minimum: 60,
        ttl: 60,
    })
}

// The row that stands in these octets.
fn row(alloc: Global, octets: &[u8]) -> Result<Row, TryError> {
    let (record, _after) = read_record(alloc, octets, 0)?;
    if record.class() != class::IN {
        return Err(TryError::Sample);
    }
    Ok(Row::of(alloc, &record)?)
}

fn push_all(alloc: Global, rows: &mut Rows, records: &[&[u8]]) -> Result<(), TryError> {
    for octets in records {
        let row = row(alloc, octets)?;
        rows.push(row)?;
    }
    Ok(())
}

/// The rows that such octets are.
pub fn rows(alloc: Global, records: &[&[u8]]) -> Result<Rows, TryError> {
    let mut rows = Rows::new(alloc);
    let done = push_all(alloc, &mut rows, records);
    after(rows, done)
}

/// A whole transfer of a serial with these rows.
pub fn whole(alloc: Global, serial: u32, records: &[&[u8]]) -> Result<Transfer, TryError> {
    let rows = rows(alloc, records)?;
    let (rows, soa) = beside(rows, soa(alloc, serial))?;
    Ok(Transfer::Whole { soa, rows })
}

// The SOAs of two serials.
fn soas(alloc: Global, one: u32, other: u32) -> Result<(Soa, Soa), AllocError> {
    let first = soa(alloc, one)?;
    beside(first, soa(alloc, other))
}

// From one serial to another, without `bad.example`, and with the address of `x.example`.
fn step(alloc: Global, from: u32, to: u32) -> Result<Step, TryError> {
    let deleted = rows(alloc, &[DENIED])?;
    let both = beside(deleted, rows(alloc, &[FRESH]))?;
    let all = beside(both, soas(alloc, from, to))?;
    let ((deleted, added), (old, new)) = all;
    Ok(Step {
        old,
        deleted,
        new,
        added,
    })
}

// Puts a step between these serials at the end.
fn push_step(alloc: Global, steps: &mut Steps, from: u32, to: u32) -> Result<(), TryError>
    requires follows { ends_at steps.old from ≡ true }
    requires newer { is_newer from to ≡ true }
    ensures ok { OnOk result (ends_at steps.new to ≡ true) }
    ensures err { OnErr result (steps.new ≡ steps.old) }
{
    let step = step(alloc, from, to)?;
    if step.old.serial != from || step.new.serial != to {
        return Err(TryError::Sample);
    }
    Ok(steps.push(step)?)
}

/// Steps from the serial 1 to 2, as one.
pub fn steps(alloc: Global) -> Result<Transfer, TryError> {
    let mut steps = Steps::new(alloc);
    let done = push_step(alloc, &mut steps, 1, 2);
    let steps = after(steps, done)?;
    Ok(Transfer::Steps(steps))
}

fn push_responses(alloc: Global, messages: &mut Vec<Octets>, count: u32) -> Result<(), AllocError> {
    for _count in 0..count {
        messages.push(Octets::from_slice(alloc, RESPONSE)?)?;
    }
    Ok(())
}

/// A link that gives the response so many times.
pub fn make_link(alloc: Global, count: u32) -> Result<ListLink, AllocError> {
    let mut messages = Vec::new(alloc);
    let done = push_responses(alloc, &mut messages, count);
    let messages = after(messages, done)?;
    Ok(ListLink::new(messages, Vec::new(alloc)))
}

// What the rule of the trigger does that this row of the zone is about.
fn show_rule(alloc: Global, sheet: &mut Sheet, zone: &Zone, octets: &[u8]) -> Result<(), TryError> {
    let row = row(alloc, octets)?;
    let (row, origin) = beside(row, origin(alloc))?;
    let trigger = trigger_of(alloc, row.owner(), &origin)?;
    sheet.show(&zone.rule(&trigger));
    Ok(())
}

/// How many transfers the policy has taken; the SOA of its zone, the number of its rows, and its rules of the samples.
pub fn show_policy(alloc: Global, sheet: &mut Sheet, policy: &Snapshot) -> Result<(), TryError> {
    sheet.show(&policy.accepted());
    if let Some(zone) = policy.zone(1) {
        sheet.show(&zone.soa());
        sheet.show(&zone.row_count());
        show_rule(alloc, sheet, zone, DENIED)?;
        show_rule(alloc, sheet, zone, FRESH)?;
    }
    Ok(())
}
