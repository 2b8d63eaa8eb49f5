//! Writes a message record by record, its names compressed.

ghost use Rattle.std.specs.Prelude.{◌≡◌, ℕ, ◌≤◌, ◌∷◌, [], ◌++◌, length, map, option_copied, IfOk, OnOk};
ghost use Rattle.dns_message.specs.Aged.{aged};
ghost use Rattle.dns_message.specs.Compressed.{compressed_within, question_places, with_record};
ghost use Rattle.dns_message.specs.Progress.{draft, finished, writing_after, writing_of, writing_start};
ghost use Rattle.dns_message.specs.Spelling.{opt_count};

use crate::alike_records::{known_owner, write_alike};
use crate::compressed_data::write_record;
use crate::edns::Edns;
use crate::header::Header;
use crate::limit::{GREATEST_LIMIT, LEAST_LIMIT};
use crate::message::Message;
use crate::question::Question;
use crate::record_refs::RecordRefs;
use crate::writing::{finish_message, write_start};
use dns_name::Octets;
use dns_record::{Record, RecordRef};
use packed_names::Places;
use std::alloc::{AllocError, Global};
use std::marker::Model;

/// A key that everybody knows. It is for messages without records, and where whoever gives the names harms nobody but himself.
pub const KNOWN_KEY: u64 = 1;

/// A message that is written record by record, its names compressed (RFC 1035, section 4.1.4), within a limit. Contracts see its limit
/// and what is written so far, or that this is longer than the limit: then nothing more is written, and its end is the truncated form.
///
/// The names are borrowed, and none are copied.
#[derive(Debug, Drop)]
pub struct MessageWriter<'n> {
    alloc: Global,
    limit: usize,
    octets: Octets,
    places: Places<'n>,
    is_beyond: bool,
}

impl<'n> Model for MessageWriter<'n> {
    ghost use Rattle.dns_message.specs.Progress.{IsWriter, Writing, progress_of};

    ghost Value = { Writing };

    ghost view = { λ w. record {
      limit = w.limit;
      progress = progress_of w.octets w.places w.is_beyond;
    } };

    ghost invariant = { λ w. IsWriter w.limit w.octets w.is_beyond };
}

impl<'n> MessageWriter<'n> {
    /// The header, its bits Z 0, and the question of a message of at most `limit` bytes, where so many records are to follow in each
    /// section, the OPT record counted with the additional ones. There is room for `room` bytes, or for as many as the limit.
    ///
    /// The key seeds a hash of the names' suffixes, and is to be unknown to those who send the names: see [`Places::new`].
    #[inline(always)]
    #[tactic(auto, unfolding(crate::specs::Spelling::start_octets))]
    pub fn start(
        alloc: Global,
        key: u64,
        limit: usize,
        room: usize,
        header: &Header,
        question: Option<&'n Question>,
        answers: usize,
        authorities: usize,
        additionals: usize,
    ) -> Result<Self, AllocError>
        requires low { LEAST_LIMIT ≤ limit }
        requires high { limit ≤ GREATEST_LIMIT }
        ensures { IfOk result (λ writer. writer
            ≡ writing_start limit header.now (option_copied question.entry) answers authorities
            additionals) }
    {
        let mut octets = Octets::with_capacity(alloc, room.min(limit))?;
        write_start(
            &mut octets,
            header,
            question,
            answers,
            authorities,
            additionals,
        )?;
        Ok(MessageWriter {
            alloc,
            limit,
            octets,
            places: first_places(alloc, key, question),
            is_beyond: false,
        })
    }

    /// Writes a record at the end of the message, its owner and the names in its data compressed. It belongs to the first section that
    /// lacks records. An `Err` leaves maybe a part of it behind what was written before, and the message is of no use.
    pub fn write(&mut self, rr: RecordRef<'n>) -> Result<(), AllocError>
        ensures { OnOk result (self.new ≡ writing_after self.old (rr.entry ∷ [])) }
    {
        self.write_next(rr)
    }

    // The same. Where records are written one after another it is no call, so that none is copied.
    #[inline(always)]
    fn write_next(&mut self, rr: RecordRef<'n>) -> Result<(), AllocError>
        ensures { OnOk result (self.new ≡ writing_after self.old (rr.entry ∷ [])) }
    {
        if self.is_beyond {
            return Ok(());
        }
        write_record_behind(self.alloc, &mut self.octets, &mut self.places, &rr)?;
        self.is_beyond = self.octets.len() > self.limit;
        Ok(())
    }

    /// Writes a record that came so many seconds ago as [`MessageWriter::write`] does: the seconds are taken from its TTL, which is
    /// 0 at the least.
    #[inline(always)]
    pub fn write_aged(&mut self, rr: &RecordRef<'n>, seconds: u32) -> Result<(), AllocError>
        ensures { OnOk result (self.new ≡ writing_after self.old (aged seconds rr.now ∷ [])) }
    {
        self.write(aged_ref(rr, seconds))
    }

    /// Writes records that came so many seconds ago, one after another. Where they are known to have one owner, it is looked up once.
    pub fn write_all_aged(
        &mut self,
        records: RecordRefs<'n>,
        seconds: u32,
    ) -> Result<(), AllocError>
        ensures { OnOk result (self.new ≡ writing_after self.old (map (aged seconds) records.entry)) }
    {
        if self.is_beyond {
            return Ok(());
        }
        match known_owner(&self.places, &records) {
            Some(offset) => {
                self.is_beyond = write_alike(
                    &mut self.octets,
                    self.limit,
                    offset,
                    records,
                    seconds,
                )?;
                Ok(())
            }
            None => self.write_each_aged(records, seconds),
        }
    }

    // The same, each record by itself.
    fn write_each_aged(&mut self, records: RecordRefs<'n>, seconds: u32) -> Result<(), AllocError>
        ensures { OnOk result (self.new ≡ writing_after self.old (map (aged seconds) records.entry)) }
    {
        for rr in records {
            self.write_next(aged_ref(&rr, seconds))?;
        }
        Ok(())
    }

    /// Ends the message with the OPT record, or puts its truncated form in its place, exactly where it is longer than the limit: the
    /// header with TC 1, the question, and the OPT record. The header and the question are those that it was started with.
    #[inline(always)]
    pub fn finish(
        self,
        header: &Header,
        question: Option<&Question>,
        edns: Option<&Edns>,
    ) -> Result<Octets, AllocError>
        ensures octets { IfOk result (λ octets. octets
            ≡ finished self.entry.limit header.now (option_copied question.entry)
            (option_copied edns.entry) self.entry.progress) }
        ensures message { (most : ℕ) (m : Message) → self.entry ≡ writing_of most m →
            header.now ≡ m.header → option_copied question.entry ≡ m.question →
            option_copied edns.entry ≡ m.edns →
            IfOk result (λ octets. octets ≡ compressed_within most m) }
        ensures fits { IfOk result (λ octets. length octets ≤ self.entry.limit) }
    {
        ended(self, header, question, edns)
    }
}

// Ends the message.
#[inline(always)]
fn ended(
    writer: MessageWriter<'_>,
    header: &Header,
    question: Option<&Question>,
    edns: Option<&Edns>,
) -> Result<Octets, AllocError>
    ensures octets { IfOk result (λ octets. octets
        ≡ finished writer.entry.limit header.now (option_copied question.entry)
        (option_copied edns.entry) writer.entry.progress) }
    ensures fits { IfOk result (λ octets. length octets ≤ writer.entry.limit) }
{
    let MessageWriter {
        alloc: _,
        limit,
        octets,
        places: _,
        is_beyond: _,
    } = writer;
    let mut out = octets;
    finish_message(&mut out, limit, header, question, edns)?;
    Ok(out)
}

// How many octets the header takes (RFC 1035, section 4.1.1). The question's name stands behind it.
const HEADER_OCTETS: u16 = 12;

// The places of the question's name, which stands in full behind the header, where there is a question.
#[inline(always)]
fn first_places<'n>(alloc: Global, key: u64, question: Option<&'n Question>) -> Places<'n>
    ensures { result ≡ question_places (option_copied question.entry) }
{
    match question {
        None => Places::new(alloc, key),
        Some(question) => Places::of_name(alloc, key, &question.name, HEADER_OCTETS),
    }
}

// Writes a record at the end, its names compressed.
#[inline(always)]
fn write_record_behind<'n>(
    alloc: Global,
    out: &mut Octets,
    places: &mut Places<'n>,
    rr: &RecordRef<'n>,
) -> Result<(), AllocError>
    ensures { OnOk result
        (draft out.new places.new ≡ with_record (draft out.old places.old) rr.now) }
{
    write_record(alloc, out, places, rr)
}

/// The bytes of the message, its names compressed and the bits Z 0, or, exactly where these are more than the limit, those of its
/// truncated form: the header with TC 1, the question, and the OPT record. The key is that of [`MessageWriter::start`].
pub fn write_message(
    alloc: Global,
    key: u64,
    message: &Message,
    limit: usize,
) -> Result<Octets, AllocError>
    requires low { LEAST_LIMIT ≤ limit }
    requires high { limit ≤ GREATEST_LIMIT }
    ensures octets { IfOk result (λ octets. octets ≡ compressed_within limit message.now) }
    ensures fits { IfOk result (λ octets. length octets ≤ limit) }
{
    let question = message.question.as_ref();
    let edns = message.edns.as_ref();
    let answer = message.answer.as_slice();
    let authority = message.authority.as_slice();
    let additional = message.additional.as_slice();
    let mut writer = MessageWriter::start(
        alloc,
        key,
        limit,
        512,
        &message.header,
        question,
        answer.len(),
        authority.len(),
        additional.len() + opt_records(edns),
    )?;
    write_all(&mut writer, answer)?;
    write_all(&mut writer, authority)?;
    write_all(&mut writer, additional)?;
    writer.finish(&message.header, question, edns)
}

// How many OPT records there are.
fn opt_records(edns: Option<&Edns>) -> usize
    ensures count { result ≡ opt_count (option_copied edns.entry) }
    ensures one { result ≤ 1 }
{
    match edns {
        None => 0,
        Some(_) => 1,
    }
}

// Writes records one after another at the end of the message.
fn write_all<'n>(writer: &mut MessageWriter<'n>, records: &'n [Record]) -> Result<(), AllocError>
    ensures { OnOk result (writer.new ≡ writing_after writer.old records.now) }
{
    for rr in records {
        writer.write(record_ref(rr))?;
    }
    Ok(())
}

/// The record, where it lies.
pub fn record_ref<'n>(rr: &'n Record) -> RecordRef<'n>
    ensures { result ≡ rr.now }
{
    RecordRef::new(
        rr.owner().octets(),
        rr.rtype(),
        rr.class(),
        rr.ttl(),
        rr.rdata(),
    )
}

// A record that came so many seconds ago, where it lies.
#[inline(always)]
fn aged_ref<'n>(rr: &RecordRef<'n>, seconds: u32) -> RecordRef<'n>
    ensures { result ≡ aged seconds rr.now }
{
    RecordRef::new(
        rr.owner().octets(),
        rr.rtype(),
        rr.class(),
        rr.ttl().saturating_sub(seconds),
        rr.rdata(),
    )
}
