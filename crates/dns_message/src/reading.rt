//! Reads a message.

ghost use Rattle.std.specs.Prelude.{◌≡◌, ◌+◌, ◌/◌, ◌%◌, ◌<◌, ◌≤◌, length, slice_index, IfOk};
ghost use Rattle.dns_message.specs.Request.{first_question};
ghost use Rattle.dns_message.specs.Reading.{Gives, is_set as bit_is_set, header_in, after_octets, question_at, questions_at, records_at, sections_of, message_of};

use crate::fault::{MessageError, MessageFault};
use crate::header::Header;
use crate::message::Message;
use crate::opt_reading::{edns_among, without_opts};
use crate::question::Question;
use dns_name::{NameError, NameReader};
use dns_record::number::u16_at;
use dns_record::{Records, read_record_of};
use std::alloc::{AllocError, Global};

/// The message that the bytes are, or the first fault: that of the first byte that shows one, and where all
/// records are read, `Trailing` before `TwoOpts`. The three bits Z of the header are ignored, and so
/// are the flags and the options of the OPT record (RFC 6891, section 6.1.2).
#[tactic(auto, unfolding(crate::specs::Reading::message_of))]
pub fn read_message(alloc: Global, bytes: &[u8]) -> Result<Message, MessageError>
    ensures { Gives (λ x. x) result (message_of bytes.now) }
{
    if bytes.len() < 12 {
        return Err(MessageError::Fault(MessageFault::Short));
    }
    read_sections(alloc, bytes)
}

#[tactic(auto, unfolding(crate::specs::Reading::sections_of))]
fn read_sections(alloc: Global, bytes: &[u8]) -> Result<Message, MessageError>
    requires { 12 ≤ length bytes.now }
    ensures { Gives (λ x. x) result (sections_of bytes.now) }
{
    let header = read_header(bytes);
    let mut names = NameReader::new(alloc, bytes);
    let (question, place) = read_questions(alloc, u16_at(bytes, 4), &mut names)?;
    let (answer, place) = read_records(alloc, u16_at(bytes, 6), &mut names, place)?;
    let (authority, place) = read_records(alloc, u16_at(bytes, 8), &mut names, place)?;
    let (additional, place) = read_records(alloc, u16_at(bytes, 10), &mut names, place)?;
    if place < bytes.len() {
        return Err(MessageError::Fault(MessageFault::Trailing));
    }
    let edns = edns_among(additional.as_slice())?;
    Ok(Message {
        header,
        question,
        answer,
        authority,
        additional: without_opts(additional),
        edns,
    })
}

/// What the header of a message of at least 12 bytes says, but for its counts (RFC 1035, section 4.1.1).
#[tactic(auto, unfolding(crate::specs::Reading::header_in))]
pub fn read_header(bytes: &[u8]) -> Header
    requires { 12 ≤ length bytes.now }
    ensures { result ≡ header_in bytes.now }
{
    let first = bytes[2];
    let second = bytes[3];
    Header {
        id: u16_at(bytes, 0),
        qr: is_set(128, first),
        opcode: first / 8 % 16,
        aa: is_set(4, first),
        tc: is_set(2, first),
        rd: is_set(1, first),
        ra: is_set(128, second),
        rcode: second % 16,
    }
}

// Whether the bit of this value is 1.
fn is_set(value: u8, byte: u8) -> bool
    requires { 0 < value }
    ensures { result ≡ bit_is_set value byte }
{
    byte / value % 2 == 1
}

/// The question of a message of at least 12 bytes, where its header announces one that can be read. Nothing behind it is looked at.
#[tactic(auto, unfolding(crate::specs::Request::first_question))]
pub fn read_first_question(alloc: Global, bytes: &[u8]) -> Result<Option<Question>, AllocError>
    requires { 12 ≤ length bytes.now }
    ensures { IfOk result (λ question. question ≡ first_question bytes.now) }
{
    if u16_at(bytes, 4) != 1 {
        return Ok(None);
    }
    let mut names = NameReader::new(alloc, bytes);
    match read_question(alloc, &mut names, 12) {
        Ok((question, _after)) => Ok(Some(question)),
        Err(MessageError::Fault(_)) => Ok(None),
        Err(MessageError::OutOfMemory) => Err(AllocError),
    }
}

// No question or one behind the header, and the place after it.
#[tactic(auto, unfolding(crate::specs::Reading::questions_at))]
fn read_questions(
    alloc: Global,
    count: u16,
    names: &mut NameReader<'_>,
) -> Result<(Option<Question>, usize), MessageError>
    ensures read { Gives (λ x. x) result (questions_at count names.old) }
    ensures same { names.new ≡ names.old }
{
    if count == 0 {
        return Ok((None, 12));
    }
    if count != 1 {
        return Err(MessageError::Fault(MessageFault::Question));
    }
    let (question, place) = read_question(alloc, names, 12)?;
    Ok((Some(question), place))
}

// The question at a place, and the place after it.
#[tactic(auto, unfolding(crate::specs::Reading::question_at))]
fn read_question(
    alloc: Global,
    names: &mut NameReader<'_>,
    at: usize,
) -> Result<(Question, usize), MessageError>
    ensures read { Gives (λ x. x) result (question_at names.old at) }
    ensures same { names.new ≡ names.old }
{
    let bytes = names.message();
    let (name, place) = match names.read(alloc, at) {
        Ok(read) => read,
        Err(NameError::OutOfMemory) => return Err(MessageError::OutOfMemory),
        Err(NameError::Fault(_)) => return Err(MessageError::Fault(MessageFault::Short)),
    };
    let after = end_of(bytes, place, 4)?;
    let qtype = u16_at(bytes, place);
    let qclass = u16_at(bytes, place + 2);
    Ok((
        Question {
            name,
            qtype,
            qclass,
        },
        after,
    ))
}

// The place after so many bytes, which the message must have.
fn end_of(bytes: &[u8], place: usize, count: usize) -> Result<usize, MessageFault>
    ensures end { result ≡ after_octets bytes.now place count }
    ensures within { IfOk result (λ end. (end ≡ place + count) × (end ≤ length bytes.now)) }
{
    match bytes.len().checked_sub(place) {
        Some(left) if count <= left => Ok(place + count),
        _ => Err(MessageFault::Short),
    }
}

// So many records from a place on, and the place after them.
fn read_records(
    alloc: Global,
    count: u16,
    names: &mut NameReader<'_>,
    at: usize,
) -> Result<(Records, usize), MessageError>
    ensures read { Gives (λ x. x) result (records_at count names.old at) }
    ensures same { names.new ≡ names.old }
{
    let mut records = Records::new(alloc);
    let mut place = at;
    for i in 0..count {
        let (rr, after) = read_record_of(alloc, names, place)?;
        records.push(rr)?;
        place = after;
    }
    Ok((records, place))
}
