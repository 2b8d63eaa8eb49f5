//! The triage of requests.

ghost use Rattle.std.specs.Prelude.{◌≡◌, ◌+◌, ◌≤◌, nat_le, length, Some, IfOk};
ghost use Rattle.dns_message.specs.Reading.{message_of};
ghost use Rattle.dns_message.specs.Spelling.{question_octets};
ghost use Rattle.dns_message.specs.Request as form;
ghost use Rattle.dns_message.specs.Request.{speaks_in, refusal as refusal_of, query_parts as asked_by, query_parts_in, has_later_version as later_version, is_served as serves, query_or_refusal as answered_by, incoming_of};

use crate::edns::{BAD_VERSION, EDNS_VERSION, Edns, reply_edns};
use crate::fault::MessageError;
use crate::header::Header;
use crate::message::Message;
use crate::question::Question;
use crate::reading::{read_first_question, read_header, read_message};
use crate::request::{Incoming, Query};
use dns_record::{Records, class, rtype};
use ip_prefix::{Addr, Transport};
use std::alloc::{AllocError, Global};

/// The lower 4 bits of a response code that the header alone doesn't tell (RFC 6891, section 6.1.3).
pub const NO_ERROR: u8 = 0;

/// The response code of a request that is not well formed (RFC 1035, section 4.1.1; RFC 6895, section 2.3).
pub const FORMAT_ERROR: u8 = 1;

/// The response code of a request whose opcode is not implemented.
pub const NOT_IMPLEMENTED: u8 = 4;

/// The response code of a request that is refused.
pub const REFUSED: u8 = 5;

/// Whether the bytes are answered at all: there are at least 12, and QR is 0 (RFC 1035, section 4.1.1).
#[tactic(auto, unfolding(crate::specs::Reading::header_in))]
pub fn speaks(bytes: &[u8]) -> bool
    ensures { result ≡ speaks_in bytes.now }
{
    bytes.len() >= 12 && !read_header(bytes).qr
}

/// What is done with the bytes of a client that may ask, or may not (RFC 1035, section 4.1.1; the response codes are those of
/// RFC 6895, section 2.3). In this order:
///
/// - `Silent` for under 12 bytes, and for a response;
/// - `Refuse` with 5 (refused) for a client that may not ask, whatever it sent: see [`turned_away`];
/// - `Refuse` with the response code 4 (not implemented) and the header alone for an opcode other than 0;
/// - `Refuse` with 1 (format error) and the header alone where the bytes are no message, or one without a
///   question;
/// - `Refuse` with 16 (bad version; RFC 6891, section 9) for an OPT record of a version over 0;
/// - `Refuse` with 5 (refused) for a class other than IN, for the types IXFR and AXFR (RFC 1995 and RFC 5936),
///   and where no recursion is desired;
/// - else `Query`.
///
/// A refusal has the ID, the opcode and RD of the request; QR and RA are 1, AA and TC 0. Where it is more than
/// a header, it has the question as it came, and an OPT record where the request has one (RFC 6891, section
/// 6.1.1). Other records of the request are ignored.
#[tactic(auto, unfolding(crate::specs::Request::incoming_of))]
pub fn classify(
    alloc: Global,
    may_ask: bool,
    bytes: &[u8],
    client: Addr,
    transport: Transport,
) -> Result<Incoming, AllocError>
    ensures { IfOk result (λ i. i ≡ incoming_of may_ask bytes.now client transport) }
{
    if !speaks(bytes) {
        return Ok(Incoming::Silent);
    }
    if !may_ask {
        return Ok(Incoming::Refuse(turned_away(alloc, bytes)?));
    }
    let header = read_header(bytes);
    if header.opcode != 0 {
        return Ok(Incoming::Refuse(refusal(alloc, NOT_IMPLEMENTED, &header, None, None)));
    }
    match read_query_parts(alloc, bytes)? {
        None => Ok(Incoming::Refuse(refusal(alloc, FORMAT_ERROR, &header, None, None))),
        Some((question, edns)) => Ok(query_or_refusal(
            alloc, &header, question, edns, client, transport,
        )),
    }
}

/// What a client gets that may not ask: REFUSED, with its question as it came, where the header announces one that can be read and the
/// reply is no longer than what it sent; else the header alone. There is no OPT record. Nothing behind the question is looked at.
#[tactic(auto, unfolding(crate::specs::Request::turned_away))]
pub fn turned_away(alloc: Global, bytes: &[u8]) -> Result<Message, AllocError>
    requires { 12 ≤ length bytes.now }
    ensures { IfOk result (λ m. m ≡ form.turned_away bytes.now) }
{
    let question = read_first_question(alloc, bytes)?;
    let header = read_header(bytes);
    Ok(refusal(
        alloc,
        REFUSED,
        &header,
        question_within(bytes.len(), question),
        None,
    ))
}

// The question, where a header and it alone have at most so many bytes.
fn question_within(most: usize, question: Option<Question>) -> Option<Question>
    ensures { result ≡ form.question_within most question }
{
    let question = question?;
    if is_within(most, &question) {
        Some(question)
    } else {
        None
    }
}

// Whether a header and this question have at most so many bytes.
fn is_within(most: usize, question: &Question) -> bool
    ensures { result ≡ nat_le (12 + length (question_octets (Some question.now))) most }
{
    question.name.octets().len() + 16 <= most
}

/// What a well formed request asks and what its OPT record says, or none where the bytes are no message, or one without a
/// question.
pub fn read_query_parts(
    alloc: Global,
    bytes: &[u8],
) -> Result<Option<(Question, Option<Edns>)>, AllocError>
    ensures { IfOk result (λ asked. asked ≡ query_parts_in (message_of bytes.now)) }
{
    match read_message(alloc, bytes) {
        Ok(message) => Ok(query_parts(message)),
        Err(MessageError::Fault(_)) => Ok(None),
        Err(MessageError::OutOfMemory) => Err(AllocError),
    }
}

// What a message asks and what its OPT record says, if it has a question.
fn query_parts(message: Message) -> Option<(Question, Option<Edns>)>
    ensures { result ≡ asked_by message.question message.edns }
{
    let Message {
        header: _header,
        question,
        answer: _answer,
        authority: _authority,
        additional: _additional,
        edns,
    } = message;
    match question {
        None => None,
        Some(question) => Some((question, edns)),
    }
}

// What is done with a well formed request.
fn query_or_refusal(
    alloc: Global,
    header: &Header,
    question: Question,
    edns: Option<Edns>,
    client: Addr,
    transport: Transport,
) -> Incoming
    ensures { result ≡ answered_by header.now question edns client transport }
{
    if has_later_version(edns) {
        let edns = reply_edns(BAD_VERSION, edns.as_ref());
        return Incoming::Refuse(refusal(alloc, NO_ERROR, header, Some(question), edns));
    }
    if !is_served(header, &question) {
        let edns = reply_edns(0, edns.as_ref());
        return Incoming::Refuse(refusal(alloc, REFUSED, header, Some(question), edns));
    }
    Incoming::Query(Query {
        id: header.id,
        rd: header.rd,
        question,
        edns,
        client,
        transport,
    })
}

/// Whether the request has an OPT record of a version that isn't served (RFC 6891, section 6.1.3).
pub fn has_later_version(edns: Option<Edns>) -> bool
    ensures { result ≡ later_version edns }
{
    match edns {
        None => false,
        Some(edns) => edns.version > EDNS_VERSION,
    }
}

// Whether the question is one of class IN, for no transfer of a zone, and recursion is desired.
fn is_served(header: &Header, question: &Question) -> bool
    ensures { result ≡ serves header.now question.now }
{
    question.qclass == class::IN
        && !(question.qtype == rtype::IXFR || question.qtype == rtype::AXFR)
        && header.rd
}

/// A reply without records to a request of this header, with a question or none: it has the ID, the opcode and RD of the request;
/// QR and RA are 1, AA and TC 0. It takes no memory.
pub fn refusal(
    alloc: Global,
    rcode: u8,
    header: &Header,
    question: Option<Question>,
    edns: Option<Edns>,
) -> Message
    ensures { result ≡ refusal_of rcode header.now question edns }
{
    Message {
        header: Header {
            id: header.id,
            qr: true,
            opcode: header.opcode,
            aa: false,
            tc: false,
            rd: header.rd,
            ra: true,
            rcode,
        },
        question,
        answer: Records::new(alloc),
        authority: Records::new(alloc),
        additional: Records::new(alloc),
        edns,
    }
}
