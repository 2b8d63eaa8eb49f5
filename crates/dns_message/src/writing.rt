//! Writes a message, its names in full.

ghost use Rattle.std.specs.Prelude.{◌≡◌, ◌≤◌, [], ◌∷◌, ◌++◌, length, take, option_copied, IfOk, IfSome, OnOk, OnErr};
ghost use Rattle.dns_record.specs.Number.{number_octets};
ghost use Rattle.dns_record.specs.declared.rtype.TheConstants.{OPT};
ghost use Rattle.dns_message.specs.Limit.{octets_within};
ghost use Rattle.dns_message.specs.Spelling.{first_flags as flags_first, second_flags as flags_second, spelling, question_octets, records_octets, opt_octets, header_octets, start_octets, parts_octets, IsQuestion};

use crate::edns::Edns;
use crate::header::Header;
use crate::limit::{GREATEST_LIMIT, LEAST_LIMIT};
use crate::message::Message;
use crate::question::Question;
use dns_name::Octets;
use dns_record::{Record, rtype};
use std::alloc::{AllocError, Global};

/// The bytes of the message, its names in full and the bits Z 0.
pub fn write_full(alloc: Global, message: &Message) -> Result<Octets, AllocError>
    ensures { IfOk result (λ octets. octets ≡ spelling message.now) }
{
    let mut out = Octets::with_capacity(alloc, 512)?;
    write_parts(
        &mut out,
        &message.header,
        message.question.as_ref(),
        message.answer.as_slice(),
        message.authority.as_slice(),
        message.additional.as_slice(),
        message.edns.as_ref(),
    )?;
    Ok(out)
}

/// Ends a message that was written piece by piece, from the start of the buffer on: puts the OPT record behind
/// it, or, exactly where it is then longer than the limit, its truncated form in its place: the header with TC
/// 1, the question, and the OPT record. An `Err` leaves some of the message or some of its truncated form.
pub(crate) fn finish_message(
    out: &mut Octets,
    limit: usize,
    header: &Header,
    question: Option<&Question>,
    edns: Option<&Edns>,
) -> Result<(), AllocError>
    requires low { LEAST_LIMIT ≤ limit }
    requires high { limit ≤ GREATEST_LIMIT }
    ensures ok { OnOk result (
        out.new
        ≡ octets_within limit (out.old ++ opt_octets (option_copied edns.entry)) header.now
        (option_copied question.entry) (option_copied edns.entry)
        ) }
    ensures fits { OnOk result (length out.new ≤ limit) }
{
    write_opt(out, edns)?;
    truncate_beyond(out, limit, header, question, edns)
}

// Puts the truncated form in place of a message that is longer than the limit.
fn truncate_beyond(
    out: &mut Octets,
    limit: usize,
    header: &Header,
    question: Option<&Question>,
    edns: Option<&Edns>,
) -> Result<(), AllocError>
    requires { LEAST_LIMIT ≤ limit }
    ensures ok { OnOk result (
        out.new
        ≡ octets_within limit out.old header.now (option_copied question.entry)
        (option_copied edns.entry)
        ) }
    ensures fits { OnOk result (length out.new ≤ limit) }
{
    if out.len() <= limit {
        return Ok(());
    }
    let header = Header {
        tc: true,
        ..*header
    };
    out.clear();
    write_parts(out, &header, question, &[], &[], &[], edns)
}

/// Writes the message of these parts at the end, its names in full and the bits Z 0; the OPT record, which is
/// counted with the additional ones, stands last. An `Err` leaves what was written before, and maybe a part of
/// the message behind it.
#[tactic(auto, unfolding(crate::specs::Spelling::parts_octets), using(crate::proofs::Pieces::regrouped))]
pub fn write_parts(
    out: &mut Octets,
    header: &Header,
    question: Option<&Question>,
    answer: &[Record],
    authority: &[Record],
    additional: &[Record],
    edns: Option<&Edns>,
) -> Result<(), AllocError>
    ensures ok { OnOk result (out.new
        ≡ out.old
        ++ parts_octets 0 header.now (option_copied question.entry) answer.now authority.now
        additional.now (option_copied edns.entry)) }
    ensures begins { take (length out.old) out.new ≡ out.old }
    ensures question { OnOk result (IfSome (option_copied question.entry) IsQuestion) }
{
    write_header(
        out,
        header,
        usize::from(question.is_some()),
        answer.len(),
        authority.len(),
        additional.len() + usize::from(edns.is_some()),
    )?;
    write_question(out, question)?;
    write_records(out, answer)?;
    write_records(out, authority)?;
    write_records(out, additional)?;
    write_opt(out, edns)
}

/// Writes the header, its bits Z 0, and the question of a message at the end. So many records are to follow in each
/// section, the OPT record counted with the additional ones, of which the low 16 bits are written. An `Err` leaves what was written
/// before, and maybe a part of the message behind it.
#[tactic(auto, unfolding(crate::specs::Spelling::start_octets), using(crate::proofs::Pieces::two_regrouped))]
pub fn write_start(
    out: &mut Octets,
    header: &Header,
    question: Option<&Question>,
    answers: usize,
    authorities: usize,
    additionals: usize,
) -> Result<(), AllocError>
    ensures ok { OnOk result (out.new
        ≡ out.old
        ++ start_octets header.now (option_copied question.entry) answers authorities additionals) }
    ensures begins { take (length out.old) out.new ≡ out.old }
{
    write_header(
        out,
        header,
        usize::from(question.is_some()),
        answers,
        authorities,
        additionals,
    )?;
    write_question(out, question)
}

// Writes the header, its bits Z 0.
#[tactic(auto, unfolding(crate::specs::Spelling::header_octets, crate::specs::Spelling::count_octets))]
pub(crate) fn write_header(
    out: &mut Octets,
    header: &Header,
    questions: usize,
    answers: usize,
    authorities: usize,
    additionals: usize,
) -> Result<(), AllocError>
    ensures ok { OnOk result (out.new
        ≡ out.old ++ header_octets 0 header.now questions answers authorities additionals) }
    ensures begins { take (length out.old) out.new ≡ out.old }
{
    out.append(&header_bytes(header, questions, answers, authorities, additionals))
}

// The bytes of the header, its bits Z 0. Of a count the low 16 bits are written.
fn header_bytes(
    header: &Header,
    questions: usize,
    answers: usize,
    authorities: usize,
    additionals: usize,
) -> [u8; 12]
    ensures { result ≡ header_octets 0 header.now questions answers authorities additionals }
{
    [
        (header.id / 0x100) as u8,
        (header.id % 0x100) as u8,
        first_flags(header),
        second_flags(header),
        (questions / 0x100 % 0x100) as u8,
        (questions % 0x100) as u8,
        (answers / 0x100 % 0x100) as u8,
        (answers % 0x100) as u8,
        (authorities / 0x100 % 0x100) as u8,
        (authorities % 0x100) as u8,
        (additionals / 0x100 % 0x100) as u8,
        (additionals % 0x100) as u8,
    ]
}

// The third byte of the header.
fn first_flags(header: &Header) -> u8
    ensures { result ≡ flags_first header.now }
{
    u8::from(header.qr) * 128
        + header.opcode % 16 * 8
        + u8::from(header.aa) * 4
        + u8::from(header.tc) * 2
        + u8::from(header.rd)
}

// The fourth byte of the header, its bits Z 0.
fn second_flags(header: &Header) -> u8
    ensures { result ≡ flags_second 0 header.now }
{
    u8::from(header.ra) * 128 + header.rcode % 16
}

// Writes the question, where there is one.
#[tactic(auto, unfolding(crate::specs::Spelling::question_octets))]
fn write_question(out: &mut Octets, question: Option<&Question>) -> Result<(), AllocError>
    ensures ok { OnOk result (out.new ≡ out.old ++ question_octets (option_copied question.entry)) }
    ensures begins { take (length out.old) out.new ≡ out.old }
    ensures question { OnOk result (IfSome (option_copied question.entry) IsQuestion) }
{
    match question {
        None => Ok(()),
        Some(question) => {
            question.name.write(out)?;
            out.append(&asked(question.qtype, question.qclass))
        }
    }
}

/// The type and the class of a question, as they stand behind its name.
pub(crate) fn asked(qtype: u16, qclass: u16) -> [u8; 4]
    ensures { result ≡ number_octets 2 qtype ++ number_octets 2 qclass }
{
    [
        (qtype / 0x100) as u8,
        (qtype % 0x100) as u8,
        (qclass / 0x100) as u8,
        (qclass % 0x100) as u8,
    ]
}

// Writes records one after another at the end, their names in full. An `Err` leaves what was written before, and
// maybe some of the records behind it.
fn write_records(out: &mut Octets, records: &[Record]) -> Result<(), AllocError>
    ensures ok { OnOk result (out.new ≡ out.old ++ records_octets records.now) }
    ensures begins { take (length out.old) out.new ≡ out.old }
{
    for rr in records {
        rr.write(out)?;
    }
    Ok(())
}

// Writes the OPT record, where there is one: no flags and no options.
#[tactic(auto, unfolding(crate::specs::Spelling::opt_octets))]
fn write_opt(out: &mut Octets, edns: Option<&Edns>) -> Result<(), AllocError>
    ensures ok { OnOk result (out.new ≡ out.old ++ opt_octets (option_copied edns.entry)) }
    ensures begins { take (length out.old) out.new ≡ out.old }
{
    match edns {
        None => Ok(()),
        Some(edns) => { out.append(&opt_bytes(edns.payload, edns.extended, edns.version)) }
    }
}

// The bytes of an OPT record of this size.
fn opt_bytes(payload: u16, extended: u8, version: u8) -> [u8; 11]
    ensures { result
        ≡ 0 ∷ [] ++ number_octets 2 OPT ++ number_octets 2 payload
        ++ (extended ∷ version ∷ 0 ∷ 0 ∷ []) ++ number_octets 2 0 }
{
    [
        0,
        (rtype::OPT / 0x100) as u8,
        (rtype::OPT % 0x100) as u8,
        (payload / 0x100) as u8,
        (payload % 0x100) as u8,
        extended,
        version,
        0,
        0,
        0,
        0,
    ]
}
