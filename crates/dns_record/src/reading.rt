//! Reads a record in a message.

ghost use Rattle.std.specs.Prelude.{◌≡◌, ◌+◌, ◌≤◌, ◌++◌, length, MatchResult, IfOk, Ok, Err, ◌<◌, ◌^◌};
ghost use Rattle.dns_record.specs.Reading.{AddsPart, Gives, end_at, octets_at, part_at, parts_at, data_at, record_at};
ghost use Rattle.dns_record.specs.Record.{IsData, IsRecord};

use crate::fault::{RecordError, RecordFault};
use crate::number::{u16_at, u32_at};
use crate::part::{Part, layout};
use crate::record::Record;
use dns_name::{NameError, NameReader, Octets};
use std::alloc::{AllocError, Global};

// The place after so many bytes, which the message must have.
fn end_of(message: &[u8], place: usize, count: usize) -> Result<usize, RecordFault>
    ensures end { result ≡ end_at message.now place count }
    ensures within { IfOk result (λ end. (end ≡ place + count) × (end ≤ length message.now)) }
{
    match message.len().checked_sub(place) {
        Some(left) if count <= left => Ok(place + count),
        _ => Err(RecordFault::Short),
    }
}

/// The record at a place of a message, and the place after it, or the first fault. Where the data of the
/// type has names, it is given with its names in full; other data is given as it stands.
/// [`read_record_of`] reads many records of one message.
pub fn read_record(alloc: Global, bytes: &[u8], at: usize) -> Result<(Record, usize), RecordError>
    ensures { Gives (λ x. x) result (record_at bytes.now at) }
{
    let mut names = NameReader::new(alloc, bytes);
    read_record_of(alloc, &mut names, at)
}

/// The record at a place of the message of these names, and the place after it, or the first fault: what
/// [`read_record`] gives. The names remember what stands behind the pointers of the message.
#[tactic(auto, unfolding(crate::specs::Reading::record_at))]
pub fn read_record_of(
    alloc: Global,
    names: &mut NameReader<'_>,
    at: usize,
) -> Result<(Record, usize), RecordError>
    ensures read { Gives (λ x. x) result (record_at names.old at) }
    ensures same { names.new ≡ names.old }
{
    let bytes = names.message();
    let (owner, place) = names.read(alloc, at)?;
    let fixed = end_of(bytes, place, 10)?;
    let rtype = u16_at(bytes, place);
    let class = u16_at(bytes, place + 2);
    let ttl = u32_at(bytes, place + 4);
    let length = u16_at(bytes, place + 8);
    let after = end_of(bytes, fixed, usize::from(length))?;
    let rdata = read_data(alloc, rtype, class, names, fixed, after)?;
    Ok((Record::new(owner, rtype, class, ttl, rdata), after))
}

// The data of a record between two places, with names in full.
#[tactic(auto, unfolding(crate::specs::Reading::data_at))]
fn read_data(
    alloc: Global,
    rtype: u16,
    class: u16,
    names: &mut NameReader<'_>,
    place: usize,
    after: usize,
) -> Result<Octets, RecordError>
    requires ordered { place ≤ after }
    requires within { after ≤ length names.old }
    requires short { after < place + 2 ^ 16 }
    ensures exact { Gives (λ x. x) result (data_at rtype class names.old place after) }
    ensures data { IfOk result (λ rdata. IsData rtype class rdata) }
    ensures same { names.new ≡ names.old }
{
    let Some(parts) = layout(rtype, class) else {
        let message = names.message();
        return Ok(Octets::from_slice(alloc, &message[place..after])?);
    };
    let (rdata, end) = read_parts(alloc, parts, names, place)?;
    if end != after {
        return Err(RecordError::Fault(RecordFault::Data));
    }
    Ok(rdata)
}

// The parts of the data from a place on, and the place after them.
fn read_parts(
    alloc: Global,
    parts: &[Part],
    names: &mut NameReader<'_>,
    at: usize,
) -> Result<(Octets, usize), RecordError>
    ensures read { Gives (λ x. x) result (parts_at parts.now names.old at) }
    ensures same { names.new ≡ names.old }
{
    let mut rdata = Octets::new(alloc);
    let mut place = at;
    for part in parts {
        place = read_part(alloc, *part, names, place, &mut rdata)?;
    }
    Ok((rdata, place))
}

// Adds a part of the data, and gives the place after it.
fn read_part(
    alloc: Global,
    part: Part,
    names: &mut NameReader<'_>,
    place: usize,
    rdata: &mut Octets,
) -> Result<usize, RecordError>
    ensures adds { AddsPart result rdata.old rdata.new (part_at part names.old place) }
    ensures same { names.new ≡ names.old }
{
    match part {
        Part::Name => match names.read(alloc, place) {
            Ok((name, after)) => {
                name.write(rdata)?;
                Ok(after)
            }
            Err(NameError::OutOfMemory) => Err(RecordError::OutOfMemory),
            Err(NameError::Fault(_)) => Err(RecordError::Fault(RecordFault::Data)),
        },
        Part::Fixed(count) => {
            let message = names.message();
            match message.len().checked_sub(place) {
                Some(left) if count <= left => {
                    rdata.append(&message[place..place + count])?;
                    Ok(place + count)
                }
                _ => Err(RecordError::Fault(RecordFault::Data)),
            }
        }
    }
}
