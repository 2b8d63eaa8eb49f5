//! Writes a reply.

ghost use Rattle.std.specs.Prelude.{◌≡◌, ℕ, ◌+◌, ◌≤◌, [], length, option_copied, Some, IfOk};
ghost use Rattle.dns_message.specs.Compressed.{compressed_within};
ghost use Rattle.dns_message.specs.Progress.{writing_of, writing_start};
ghost use Rattle.dns_message.specs.Request.{reply_edns as edns_of_reply};
ghost use Rattle.dns_message.specs.Spelling.{opt_count as count_of_opt};
ghost use Rattle.reply_build.specs.Parts.{alias_reply, asked_of, bare_sections, parts_seen, rule_sections};
ghost use Rattle.reply_build.specs.Reply as form;
ghost use Rattle.reply_build.specs.Reply.{Sections, alias_record, answer_sections, reply_of};
ghost use Rattle.reply_build.specs.Seen.{place_seen};

use crate::answers::{
    answer_count, authority_count, rcode_of, room_for, soa_count, write_answer, write_answer_of,
};
use crate::parts::ReplyParts;
use crate::place::{HitPlaceRef, count_kept, write_kept};
use crate::rows::{count_asked, write_asked};
use action_codec::LocalRef;
use dns_message::{
    GREATEST_LIMIT, Header, LEAST_LIMIT, MessageWriter, Query, record_ref, reply_edns,
};
use dns_name::{Name, Octets};
use dns_record::{RecordRef, class, rtype};
use std::alloc::{AllocError, Global};
use upstream_link::Answer;

/// What each reply to a query is written by.
#[derive(Clone, Copy)]
pub struct ReplyFrame<'q> {
    pub alloc: Global,
    /// The key of the hash of names: see [`MessageWriter::start`].
    pub key: u64,
    pub query: &'q Query,
    /// How many octets the reply has at most, 512 to 65,535.
    pub limit: usize,
}

/// The octets of a reply of these parts, its names compressed, or of its truncated form exactly where it is longer than the limit.
pub fn write_reply<'n>(frame: ReplyFrame<'n>, parts: ReplyParts<'n>) -> Result<Octets, AllocError>
    requires low { LEAST_LIMIT ≤ frame.limit }
    requires high { frame.limit ≤ GREATEST_LIMIT }
    ensures reply { IfOk result (λ reply. reply ≡ compressed_within frame.entry.limit
        (reply_of frame.entry.query.now (parts_seen frame.entry.query.now parts.entry))) }
    ensures short { IfOk result (λ reply. length reply ≤ GREATEST_LIMIT) }
{
    match parts {
        ReplyParts::Bare { tc, rcode } => write_bare(frame, tc, rcode),
        ReplyParts::Passed(answer) => write_passed(frame, answer),
        ReplyParts::ByRule { rcode, place, rows } => write_by_rule(frame, rcode, place, rows),
        ReplyParts::ByAlias {
            place,
            ttl,
            target,
            answer,
        } => write_by_alias(frame, place, ttl, &target, answer),
    }
}

/// How many octets the header, the question and the OPT record of a reply take at most: 282.
pub const FRAME_ROOM: usize = 300;

// The header of a reply.
fn reply_header(tc: bool, rcode: u8, query: &Query) -> Header
    ensures { result ≡ form.reply_header tc rcode query.now }
{
    Header {
        id: query.id,
        qr: true,
        opcode: 0,
        aa: false,
        tc,
        rd: query.rd,
        ra: true,
        rcode,
    }
}

// How many OPT records the reply to a query has.
fn opt_count(query: &Query) -> usize
    ensures count { result ≡ count_of_opt (edns_of_reply 0 query.now.edns) }
    ensures one { result ≤ 1 }
{
    match query.edns {
        None => 0,
        Some(_) => 1,
    }
}

// A reply with this header and room for so many octets, its header and question written. So many records follow in each section,
// and then the OPT record.
#[inline(always)]
fn start<'n>(
    frame: ReplyFrame<'n>,
    header: &Header,
    room: usize,
    answers: usize,
    authorities: usize,
    additionals: usize,
) -> Result<MessageWriter<'n>, AllocError>
    requires low { LEAST_LIMIT ≤ frame.limit }
    requires high { frame.limit ≤ GREATEST_LIMIT }
    requires few { additionals ≤ 1 }
    ensures { IfOk result (λ writer. writer
        ≡ writing_start frame.entry.limit header.now (Some frame.entry.query.now.question) answers
        authorities (additionals + count_of_opt (edns_of_reply 0 frame.entry.query.now.edns))) }
{
    MessageWriter::start(
        frame.alloc,
        frame.key,
        frame.limit,
        room,
        header,
        Some(&frame.query.question),
        answers,
        authorities,
        additionals + opt_count(frame.query),
    )
}

// Ends a reply with the OPT record, or puts its truncated form in its place.
#[inline(always)]
fn finish(
    frame: ReplyFrame<'_>,
    header: &Header,
    writer: MessageWriter<'_>,
) -> Result<Octets, AllocError>
    ensures reply { (most : ℕ) (s : Sections) →
        writer.entry ≡ writing_of most (reply_of frame.entry.query.now s) →
        header.now ≡ form.reply_header s.tc s.rcode frame.entry.query.now →
        IfOk result (λ reply. reply ≡ compressed_within most (reply_of frame.entry.query.now s)) }
    ensures short { IfOk result (λ reply. length reply ≤ writer.entry.limit) }
{
    let edns = reply_edns(0, frame.query.edns.as_ref());
    writer.finish(header, Some(&frame.query.question), edns.as_ref())
}

// A reply without records, but for its OPT record.
fn write_bare(frame: ReplyFrame<'_>, tc: bool, rcode: u8) -> Result<Octets, AllocError>
    requires low { LEAST_LIMIT ≤ frame.limit }
    requires high { frame.limit ≤ GREATEST_LIMIT }
    ensures reply { IfOk result (λ reply. reply ≡ compressed_within frame.entry.limit
        (reply_of frame.entry.query.now (bare_sections tc rcode))) }
    ensures short { IfOk result (λ reply. length reply ≤ GREATEST_LIMIT) }
{
    let header = reply_header(tc, rcode, frame.query);
    let writer = start(frame, &header, FRAME_ROOM, 0, 0, 0)?;
    finish(frame, &header, writer)
}

// The answer of the upstream, with what is left of the TTLs of its records.
fn write_passed<'n>(frame: ReplyFrame<'n>, answer: &'n Answer) -> Result<Octets, AllocError>
    requires low { LEAST_LIMIT ≤ frame.limit }
    requires high { frame.limit ≤ GREATEST_LIMIT }
    ensures reply { IfOk result (λ reply. reply ≡ compressed_within frame.entry.limit
        (reply_of frame.entry.query.now (answer_sections answer.now))) }
    ensures short { IfOk result (λ reply. length reply ≤ GREATEST_LIMIT) }
{
    let header = reply_header(false, answer.rcode(), frame.query);
    let room = room_for(answer);
    let soas = soa_count(answer);
    let mut writer = start(frame, &header, room, answer.answers().len(), soas, 0)?;
    write_answer(&mut writer, answer)?;
    finish(frame, &header, writer)
}

// A reply by a rule with those of these rows that are asked for.
fn write_by_rule<'n>(
    frame: ReplyFrame<'n>,
    rcode: u8,
    place: &'n HitPlaceRef<'n>,
    rows: Option<&'n LocalRef<'n>>,
) -> Result<Octets, AllocError>
    requires low { LEAST_LIMIT ≤ frame.limit }
    requires high { frame.limit ≤ GREATEST_LIMIT }
    ensures reply { IfOk result (λ reply. reply ≡ compressed_within frame.entry.limit
        (reply_of frame.entry.query.now (rule_sections rcode (place_seen place.now)
        (asked_of place.now.name.now frame.entry.query.now.question.qtype (option_copied rows.entry))
        []))) }
    ensures short { IfOk result (λ reply. length reply ≤ GREATEST_LIMIT) }
{
    let header = reply_header(false, rcode, frame.query);
    let qtype = frame.query.question.qtype;
    let count = count_kept(place.records, place.before) + count_asked(qtype, rows);
    let mut writer = start(frame, &header, 512, count, 0, 1)?;
    write_kept(&mut writer, place.records, place.age, place.before)?;
    write_asked(&mut writer, place.name, qtype, rows)?;
    writer.write(record_ref(place.soa))?;
    finish(frame, &header, writer)
}

// A reply by a rule that is an alias to this target.
fn write_by_alias<'n>(
    frame: ReplyFrame<'n>,
    place: &'n HitPlaceRef<'n>,
    ttl: u32,
    target: &'n Name,
    answer: Option<&'n Answer>,
) -> Result<Octets, AllocError>
    requires low { LEAST_LIMIT ≤ frame.limit }
    requires high { frame.limit ≤ GREATEST_LIMIT }
    ensures reply { IfOk result (λ reply. reply ≡ compressed_within frame.entry.limit
        (reply_of frame.entry.query.now (alias_reply (place_seen place.now) ttl target.now
        (option_copied answer.entry)))) }
    ensures short { IfOk result (λ reply. length reply ≤ GREATEST_LIMIT) }
{
    let header = reply_header(false, rcode_of(answer), frame.query);
    let count = count_kept(place.records, place.before) + 1 + answer_count(answer);
    let mut writer = start(frame, &header, 512, count, authority_count(answer), 1)?;
    write_kept(&mut writer, place.records, place.age, place.before)?;
    writer.write(alias_ref(place.name, ttl, target))?;
    write_answer_of(&mut writer, answer)?;
    writer.write(record_ref(place.soa))?;
    finish(frame, &header, writer)
}

// The alias of a name, where it lies.
fn alias_ref<'n>(owner: &'n Name, ttl: u32, target: &'n Name) -> RecordRef<'n>
    ensures { result ≡ alias_record owner.now ttl target.now }
{
    RecordRef::new(
        owner.octets(),
        rtype::CNAME,
        class::IN,
        ttl,
        target.octets(),
    )
}
