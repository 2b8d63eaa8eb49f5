//! An answer of the upstream in a reply.

ghost use Rattle.std.specs.Prelude.{◌≡◌, ◌^◌, ◌<◌, ◌++◌, length, option_copied, OnOk};
ghost use Rattle.dns_message.specs.Progress.{writing_after};
ghost use Rattle.reply_build.specs.Parts as parts;
ghost use Rattle.reply_build.specs.Parts.{answers_of, authority_of};
ghost use Rattle.reply_build.specs.Reply.{soa_list};
ghost use Rattle.upstream_link.specs.Kept.{aged_answers};

use crate::writing::FRAME_ROOM;
use dns_message::{MessageWriter, record_ref};
use std::alloc::AllocError;
use upstream_link::Answer;

/// How many octets a reply with this answer takes at most.
pub fn room_for(answer: &Answer) -> usize {
    let ttls = answer.answers().len().saturating_mul(4);
    answer
        .answers_len()
        .saturating_add(ttls)
        .saturating_add(soa_len(answer))
        .saturating_add(FRAME_ROOM)
}

// How many octets the SOA record of an answer takes.
fn soa_len(answer: &Answer) -> usize {
    match answer.soa() {
        None => 0,
        Some(soa) => soa.owner().octets().len() + 10 + soa.rdata().len(),
    }
}

/// How many SOA records an answer has.
pub fn soa_count(answer: &Answer) -> usize
    ensures { result ≡ length (soa_list answer.now) }
{
    match answer.soa() {
        None => 0,
        Some(_) => 1,
    }
}

/// Writes the answers and the SOA record of an answer, with what is left of their TTLs.
pub fn write_answer<'n>(
    writer: &mut MessageWriter<'n>,
    answer: &'n Answer,
) -> Result<(), AllocError>
    ensures { OnOk result (writer.new
        ≡ writing_after writer.old (aged_answers answer.now ++ soa_list answer.now)) }
{
    writer.write_all_aged(answer.answers(), answer.age())?;
    write_soa(writer, answer)
}

// Writes the SOA record of an answer, with what is left of its TTL.
fn write_soa<'n>(writer: &mut MessageWriter<'n>, answer: &'n Answer) -> Result<(), AllocError>
    ensures { OnOk result (writer.new ≡ writing_after writer.old (soa_list answer.now)) }
{
    match answer.soa() {
        None => Ok(()),
        Some(soa) => writer.write_aged(&record_ref(soa), answer.age()),
    }
}

/// The rcode of a reply with an alias: that of the answer about its target, if there is one.
pub fn rcode_of(answer: Option<&Answer>) -> u8
    ensures { result ≡ parts.rcode_of (option_copied answer.entry) }
{
    match answer {
        None => 0,
        Some(answer) => answer.rcode(),
    }
}

/// How many answers it has, if there is one.
pub fn answer_count(answer: Option<&Answer>) -> usize
    ensures count { result ≡ length (answers_of (option_copied answer.entry)) }
    ensures few { result < 2 ^ 62 }
{
    match answer {
        None => 0,
        Some(answer) => answer.answers().len(),
    }
}

/// How many SOA records it has, if there is one.
pub fn authority_count(answer: Option<&Answer>) -> usize
    ensures { result ≡ length (authority_of (option_copied answer.entry)) }
{
    match answer {
        None => 0,
        Some(answer) => soa_count(answer),
    }
}

/// Writes the answers and the SOA record of an answer, if there is one.
pub fn write_answer_of<'n>(
    writer: &mut MessageWriter<'n>,
    answer: Option<&'n Answer>,
) -> Result<(), AllocError>
    ensures { OnOk result (writer.new
        ≡ writing_after writer.old (answers_of (option_copied answer.entry)
        ++ authority_of (option_copied answer.entry))) }
{
    match answer {
        None => Ok(()),
        Some(answer) => write_answer(writer, answer),
    }
}
