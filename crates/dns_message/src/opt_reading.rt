//! Tells the OPT record (RFC 6891, section 6.1) of an additional section apart from the others.

ghost use Rattle.std.specs.Prelude.{◌≡◌, not, if◌then◌else◌, Ok};
ghost use Rattle.std.specs.List.{filter};
ghost use Rattle.dns_message.specs.Opts.{edns_with};
ghost use Rattle.dns_message.specs.Reading.{is_opt as is_opt_record, edns_of as what_opt_says, edns_in};

use crate::edns::Edns;
use crate::fault::MessageFault;
use dns_record::{Record, Records, rtype};

// What the OPT records among these say, of which there is one at most.
pub(crate) fn edns_among(records: &[Record]) -> Result<Option<Edns>, MessageFault>
    ensures { result ≡ edns_in (filter is_opt_record records.now) }
{
    let mut edns = None;
    for rr in records {
        edns = and_record(edns, rr)?;
    }
    Ok(edns)
}

// What was said by the OPT records before, and is said by this record if it is one.
fn and_record(edns: Option<Edns>, rr: &Record) -> Result<Option<Edns>, MessageFault>
    ensures { result ≡ edns_with edns rr.now }
{
    if !is_opt(rr) {
        return Ok(edns);
    }
    match edns {
        None => Ok(Some(edns_of(rr))),
        Some(_) => Err(MessageFault::TwoOpts),
    }
}

// The records but for OPT records, which aren't copied.
pub(crate) fn without_opts(records: Records) -> Records
    ensures { result ≡ filter (λ r. not (is_opt_record r)) records }
{
    let mut records = records.into_vec();
    drop_opts(&mut records);
    Records::from_vec(records)
}

fn drop_opts(records: &mut Vec<Record>)
    ensures { records.new.items ≡ filter (λ r. not (is_opt_record r)) records.old.items }
{
    records.retain(|rr| !is_opt(rr));
}

// Whether the record is an OPT record.
fn is_opt(rr: &Record) -> bool
    ensures { result ≡ is_opt_record rr.now }
{
    rr.rtype() == rtype::OPT && rr.owner().label_count() == 0
}

// What an OPT record says.
fn edns_of(rr: &Record) -> Edns
    ensures { result ≡ what_opt_says rr.now }
{
    let ttl = rr.ttl();
    Edns {
        payload: rr.class(),
        version: (ttl / 0x1_0000 % 0x100) as u8,
        extended: (ttl / 0x100_0000 % 0x100) as u8,
    }
}
