//! What is kept of an answer.

ghost use Rattle.std.specs.Prelude.{◌≡◌, length, option_copied, true, IfOk};
ghost use Rattle.std.specs.List.{find, flat_map, list_any};
ghost use Rattle.std.specs.Option.{option_map};
ghost use Rattle.dns_message.specs.Written.{lasting_octets};
ghost use Rattle.upstream_link.specs.Chain.{is_alias};
ghost use Rattle.upstream_link.specs.Fact.{answer_in, is_soa as soa_in_class, is_answer_rcode};
ghost use Rattle.upstream_link.specs.AnswerLife.{life_in};
ghost use Rattle.upstream_link.specs.Kept.{IsAnswer, at_age, plain_answer};

use crate::aliases::has_alias;
use crate::life::life_by;
use dns_message::{Message, RecordRefs, WrittenRecords};
use dns_record::{Record, Records, class, rtype};
use std::alloc::{AllocError, Global};
use std::marker::Model;
use std::sync::Arc;

// The records of an answer as they came.
#[derive(Debug, Drop)]
struct Kept {
    rcode: u8,
    // Whether some answer is a CNAME record.
    alias: bool,
    // For how many seconds they may be kept.
    life: u32,
    answers: WrittenRecords,
    soa: Option<Box<Record>>,
}

/// An answer of the upstream, and how many seconds have passed since it came: the rcode is 0 or 3, the records are of class IN,
/// and the SOA is a SOA record. The records may be shared with other answers, of any age.
#[derive(Debug, Drop)]
pub struct Answer {
    kept: Arc<Kept, Global>,
    age: u32,
}

impl Model for Answer {
    ghost use Rattle.std.specs.Option.{option_map};
    ghost use Rattle.upstream_link.specs.Kept.{PlainAnswer, plain_answer};

    ghost Value = { PlainAnswer };

    ghost use Rattle.upstream_link.specs.Prepared.{IsPrepared};

    ghost view = { λ a. plain_answer a.kept.value.rcode a.kept.value.answers
        (option_map (λ b. b.value) a.kept.value.soa) a.age };

    ghost invariant = { λ a.
        IsPrepared (plain_answer a.kept.value.rcode a.kept.value.answers
        (option_map (λ b. b.value) a.kept.value.soa) a.age)
        a.kept.value.life a.kept.value.alias };
}

impl Answer {
    /// What is kept of a message that has just come: its rcode, its answers of class IN, and the first SOA record of class IN
    /// in its authority section.
    pub(crate) fn of(alloc: Global, message: Message) -> Result<Self, AllocError>
        requires { is_answer_rcode message.header.rcode ≡ true }
        ensures { IfOk result (λ answer. answer ≡ answer_in message) }
    {
        let mut answers = message.answer;
        answers.retain_class(class::IN);
        let soa = first_soa(message.authority);
        Answer::new(alloc, message.header.rcode, answers, soa)
    }

    // An answer of these parts that has just come.
    fn new(
        alloc: Global,
        rcode: u8,
        answers: Records,
        soa: Option<Record>,
    ) -> Result<Self, AllocError>
        requires { IsAnswer (plain_answer rcode answers soa 0) }
        ensures { IfOk result (λ answer. answer ≡ plain_answer rcode answers soa 0) }
    {
        let kept = Kept {
            rcode,
            alias: has_alias(answers.as_slice()),
            life: life_by(alloc, rcode, answers.as_slice(), soa.as_ref())?,
            answers: WrittenRecords::of(alloc, answers.as_slice())?,
            soa: boxed(alloc, soa)?,
        };
        Ok(Answer {
            kept: Arc::new(alloc, kept)?,
            age: 0,
        })
    }

    /// The same answer when so many seconds have passed since it came. No record is copied.
    pub fn shared(&self, age: u32) -> Result<Self, AllocError>
        ensures { IfOk result (λ answer. answer ≡ at_age age self.now) }
    {
        Ok(Answer {
            kept: Arc::try_clone(&self.kept)?,
            age,
        })
    }

    /// How many seconds have passed since the answer came.
    pub fn age(&self) -> u32
        ensures { result ≡ self.now.age }
    {
        self.age
    }

    /// For how many seconds since it came the answer may be kept, at most [`LIFE_LIMIT`](crate::LIFE_LIMIT).
    pub(crate) fn life(&self) -> u32
        ensures life { result ≡ life_in self.now }
        ensures kept { IsAnswer self.now }
    {
        self.kept.life
    }

    /// 0, or 3 where the name doesn't exist.
    pub fn rcode(&self) -> u8
        ensures { result ≡ self.now.rcode }
    {
        self.kept.rcode
    }

    /// The answers as they came, all of class IN.
    pub fn answers(&self) -> RecordRefs<'_>
        ensures { result ≡ self.now.answers }
    {
        self.kept.answers.records()
    }

    /// How many octets the answers take but for their TTLs, to make room for them.
    pub fn answers_len(&self) -> usize
        ensures { result ≡ length (flat_map lasting_octets self.now.answers) }
    {
        self.answers().octet_count()
    }

    /// Whether some answer is a CNAME record.
    pub fn has_alias(&self) -> bool
        ensures { result ≡ list_any is_alias self.now.answers }
    {
        self.kept.alias
    }

    /// The SOA record of the authority section as it came, of class IN.
    pub fn soa(&self) -> Option<&Record>
        ensures { option_copied result ≡ self.now.soa }
    {
        self.kept.soa.as_deref()
    }
}

// The record in a box of its own, where there is one: most answers have none.
fn boxed(alloc: Global, rr: Option<Record>) -> Result<Option<Box<Record>>, AllocError>
    ensures { IfOk result (λ boxed. option_map (λ b. b.value) boxed ≡ rr) }
{
    match rr {
        None => Ok(None),
        Some(rr) => Ok(Some(Box::new(alloc, rr)?)),
    }
}

fn is_soa(rr: &Record) -> bool
    ensures { result ≡ soa_in_class rr.now }
{
    rr.rtype() == rtype::SOA && rr.class() == class::IN
}

// The first SOA record of class IN.
fn first_soa(records: Records) -> Option<Record>
    ensures { result ≡ find soa_in_class records }
{
    records.into_vec().into_iter().find(is_soa)
}
