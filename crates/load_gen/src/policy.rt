//! The policy of a load.

ghost use Rattle.std.specs.Prelude.{◌≡◌, ◌<◌, ◌∷◌, [], All, map, length, IfOk};
ghost use Rattle.dns_record.specs.Row.{row_of};
ghost use Rattle.zone_rows.specs.declared.zone.TheConstants.{ROW_LIMIT};
ghost use Rattle.load_gen.specs.Loads.{IsIn};
ghost use Rattle.load_gen.specs.Summed as form;
ghost use Rattle.load_gen.specs.Summed.{load_policy, zone_rows};
ghost use Rattle.policy_override.specs.ZoneSet.{given_zones};
ghost use Rattle.policy_snapshot.specs.Policy.{zone_at};
ghost use Rattle.policy_snapshot.specs.Stands.{new_snapshot, policy_in};

use crate::names::written_name;
use dns_name::Name;
use dns_record::{Record, Row, Soa};
use policy_override::{Override, ZoneSet};
use policy_snapshot::Snapshot;
use std::alloc::{AllocError, Global};
use zone_rows::{ApplyError, Rows, Transfer};

// The SOA of the zone.
fn load_soa(alloc: Global) -> Result<Soa, AllocError>
    ensures { IfOk result (λ soa. soa ≡ form.load_soa) }
{
    Ok(Soa {
        mname: Name::root(alloc)?,
        rname: Name::root(alloc)?,
        serial: 1,
        refresh: 3_600,
        retry: 600,
        expire: 86_400,
        minimum: 60,
        ttl: 60,
    })
}

// The records as rows.
fn rows_of(alloc: Global, records: &[Record]) -> Result<Rows, AllocError>
    requires { All IsIn records.now }
    ensures { IfOk result (λ rows. rows ≡ map row_of records.now) }
{
    let mut rows = Rows::new(alloc);
    for rr in records {
        rows.push(Row::of(alloc, rr)?)?;
    }
    Ok(rows)
}

// A policy of the one zone `rpz.example`, with nothing loaded, whose rules do what it says.
fn empty_policy(alloc: Global) -> Result<Snapshot, AllocError>
    ensures { IfOk result (λ policy. policy ≡ new_snapshot (given_zones (form.origin ∷ []))) }
{
    let origin = written_name(alloc, b"rpz.example")?;
    let zone = ZoneSet {
        origin,
        over: Override::Given,
    };
    Snapshot::start(alloc, &[zone])
}

/// The policy after the transfer of these rows.
pub(crate) fn load_policy(alloc: Global, records: &[Record]) -> Result<Snapshot, AllocError>
    requires in_class { All IsIn records.now }
    requires few { length records.now < ROW_LIMIT }
    ensures { IfOk result (λ policy. policy_in policy ≡ form.load_policy records.now) }
{
    let empty = empty_policy(alloc)?;
    let transfer = Transfer::Whole {
        soa: load_soa(alloc)?,
        rows: rows_of(alloc, records)?,
    };
    match empty.apply(alloc, 1, transfer) {
        Ok(policy) => Ok(policy),
        Err(ApplyError::OutOfMemory) => Err(AllocError),
        Err(ApplyError::Fault(_)) => unreachable!(),
    }
}

/// How many rows the first zone has.
pub(crate) fn zone_rows(policy: &Snapshot) -> u64
    ensures { result ≡ form.zone_rows (zone_at policy.now.zones 1) }
{
    match policy.zone(1) {
        None => 0,
        Some(zone) => zone.row_count().unwrap_or(0) as u64,
    }
}
