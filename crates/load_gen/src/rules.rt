//! The rules of a load, as records.

ghost use Rattle.std.specs.Prelude.{◌≡◌, ◌*◌, All, length, string_bytes, IfOk, IsOk, OnOk};
ghost use Rattle.dns_record.specs.Reading.{record_at};
ghost use Rattle.load_gen.specs.Draws.{after_three, state_after};
ghost use Rattle.load_gen.specs.Loads.{IsIn};
ghost use Rattle.load_gen.specs.Rules as form;
ghost use Rattle.load_gen.specs.Rules.{rule_from};

use crate::draws::Draws;
use crate::names::written_name;
use dns_name::{Name, Octets};
use dns_record::laws::a_record_is_read_where_it_stands;
use dns_record::{Record, RecordError, class, read_record, rtype, write_record};
use std::alloc::{AllocError, Global};

// The text that a rule's CNAME record leads to.
fn target_text(action: u32) -> &'static str
    ensures { result.now ≡ form.target_text action }
{
    match action {
        0 => ".",
        1 => "*.",
        _ => "rpz-passthru.",
    }
}

// The text of a rule's owner.
fn owner_text(alloc: Global, kind: u32, b: u32, c: u32) -> Result<String, AllocError>
    ensures { IfOk result (λ text. string_bytes text ≡ form.owner_text kind b c) }
{
    let host = b % 4096;
    let group = c % 64;
    let low = b % 256;
    let high = c % 256;
    if kind == 0 {
        format!(in alloc; "h{host}.g{group}.example.rpz.example")
    } else if kind == 1 {
        format!(in alloc; "*.h{host}.g{group}.example.rpz.example")
    } else if kind == 2 {
        format!(in alloc; "32.{high}.{low}.0.10.rpz-ip.rpz.example")
    } else {
        format!(in alloc; "24.0.{high}.{low}.10.rpz-client-ip.rpz.example")
    }
}

// The record that these octets are.
fn record_in(alloc: Global, octets: &[u8]) -> Result<Record, AllocError>
    requires { IsOk (record_at octets.now 0) }
    ensures { IfOk result (λ r. IfOk (record_at octets.now 0) (λ read. read.0 ≡ r)) }
{
    match read_record(alloc, octets, 0) {
        Ok((record, _end)) => Ok(record),
        Err(RecordError::OutOfMemory) => Err(AllocError),
        Err(RecordError::Fault(_)) => unreachable!(),
    }
}

// A CNAME record of class IN and TTL 60.
fn alias_record(alloc: Global, owner: &Name, target: &Name) -> Result<Record, AllocError>
    ensures { IfOk result (λ r. r ≡ form.drawn_alias owner.now target.now) }
{
    a_record_is_read_where_it_stands();
    let mut octets = Octets::new(alloc);
    let data = target.octets();
    write_record(&mut octets, owner, rtype::CNAME, class::IN, 60, data)?;
    record_in(alloc, octets.as_slice())
}

// The next rule.
fn rule(alloc: Global, draws: &mut Draws) -> Result<Record, AllocError>
    ensures rule { IfOk result (λ r. r ≡ rule_from draws.old.state) }
    ensures state { OnOk result (draws.new.state ≡ after_three draws.old.state) }
{
    let a = draws.next();
    let b = draws.next();
    let c = draws.next();
    let owner_text = owner_text(alloc, a % 4, b, c)?;
    let owner = written_name(alloc, owner_text.as_bytes())?;
    let target = written_name(alloc, target_text(a / 4 % 3).as_bytes())?;
    alias_record(alloc, &owner, &target)
}

/// The first rules of the draws, so many.
pub(crate) fn first_rules(
    alloc: Global,
    draws: &mut Draws,
    count: u32,
) -> Result<Vec<Record>, AllocError>
    ensures rules { IfOk result (λ rows. rows.items ≡ form.first_rules draws.old.state count) }
    ensures in_class { IfOk result (λ rows. All IsIn rows.items) }
    ensures count { IfOk result (λ rows. length rows.items ≡ count) }
    ensures state { OnOk result (draws.new.state ≡ state_after draws.old.state (3 * count)) }
{
    let mut rows = Vec::with_capacity(alloc, count as usize)?;
    for _place in 0..count {
        rows.push(rule(alloc, draws)?)?;
    }
    Ok(rows)
}
