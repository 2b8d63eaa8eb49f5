//! What is learned from the upstream.

ghost use Rattle.std.specs.Prelude.{◌≡◌, option_copied, IfOk};
ghost use Rattle.upstream_link.specs.Fact as form;
ghost use Rattle.upstream_link.specs.Fact.{fact_from, fact_in};
ghost use Rattle.upstream_link.specs.Facts.{IsKept, answer_octets};
ghost use Rattle.upstream_link.specs.Life.{life_of, with_age};
ghost use Rattle.upstream_link.specs.declared.fact.Fact.TheVariants as facts;
ghost use Rattle.upstream_link.specs.declared.fact.AnswerFault.TheVariants as reasons;

use crate::answer::Answer;
use dns_message::{Message, MessageError, Question, read_message};
use dns_name::Octets;
use std::alloc::{AllocError, Global};

/// What is learned of a question.
#[derive(Debug, Drop)]
pub enum Fact {
    Answer(Answer),
    /// There is no answer.
    Broken(AnswerFault),
}

impl Fact {
    /// For how many seconds since it came the fact may be kept, at most [`LIFE_LIMIT`](crate::LIFE_LIMIT) (RFC 2308, section
    /// 5); 0 where it isn't kept.
    pub fn life(&self) -> u32
        ensures life { result ≡ life_of self.now }
        ensures kept { IsKept self.now }
    {
        match self {
            Fact::Answer(answer) => answer.life(),
            Fact::Broken(_) => 0,
        }
    }

    /// How many octets its answers take but for their TTLs.
    pub(crate) fn answers_len(&self) -> usize
        ensures { result ≡ answer_octets self.now }
    {
        match self {
            Fact::Answer(answer) => answer.answers_len(),
            Fact::Broken(_) => 0,
        }
    }

    /// The same fact when so many seconds have passed since it came. No record is copied; bytes that are no response are.
    pub(crate) fn shared(&self, alloc: Global, age: u32) -> Result<Self, AllocError>
        ensures { IfOk result (λ fact. fact ≡ with_age age self.now) }
    {
        match self {
            Fact::Answer(answer) => Ok(Fact::Answer(answer.shared(age)?)),
            Fact::Broken(why) => Ok(Fact::Broken(why.copied(alloc)?)),
        }
    }
}

/// Why there is no answer.
#[derive(Debug, Drop)]
pub enum AnswerFault {
    /// No bytes came.
    Failed,
    /// The bytes that came are no response to the question: they can't be read, the ID is another, QR is 0, the opcode
    /// isn't 0, TC is 1, or the question is another.
    Unusable(Octets),
    /// The response has this rcode, which is neither 0 nor 3.
    Rcode(u8),
}

impl AnswerFault {
    // The same reason.
    fn copied(&self, alloc: Global) -> Result<Self, AllocError>
        ensures { IfOk result (λ why. why ≡ self.now) }
    {
        match self {
            AnswerFault::Failed => Ok(AnswerFault::Failed),
            AnswerFault::Unusable(bytes) => Ok(AnswerFault::Unusable(Octets::from_slice(
                alloc,
                bytes.as_slice(),
            )?)),
            AnswerFault::Rcode(rcode) => Ok(AnswerFault::Rcode(*rcode)),
        }
    }
}

// Whether the questions are alike, without case.
fn same_question(a: &Question, b: &Question) -> bool
    ensures { result ≡ form.same_question a.now b.now }
{
    a.name.is_same(&b.name) && a.qtype == b.qtype && a.qclass == b.qclass
}

// Whether this is the question.
fn asks(question: &Question, other: Option<&Question>) -> bool
    ensures { result ≡ form.asks question.now (option_copied other.entry) }
{
    match other {
        None => false,
        Some(other) => same_question(other, question),
    }
}

// Whether the message is a whole response to the question.
fn answers_to(id: u16, question: &Question, message: &Message) -> bool
    ensures { result ≡ form.answers_to id question.now message.now }
{
    let header = message.header;
    header.id == id
        && header.qr
        && header.opcode == 0
        && !header.tc
        && asks(question, message.question.as_ref())
}

// What a response says.
fn fact_of_message(alloc: Global, message: Message) -> Result<Fact, AllocError>
    ensures { IfOk result (λ fact. fact ≡ fact_in message) }
{
    let rcode = message.header.rcode;
    if rcode == 0 || rcode == 3 {
        Ok(Fact::Answer(Answer::of(alloc, message)?))
    } else {
        Ok(Fact::Broken(AnswerFault::Rcode(rcode)))
    }
}

/// What the bytes say that came for a question which was asked in a message of this ID. The bytes are copied where they are no
/// response.
#[tactic(auto, unfolding(crate::specs::Fact::fact_from))]
pub fn fact_of(
    alloc: Global,
    bytes: &[u8],
    id: u16,
    question: &Question,
) -> Result<Fact, AllocError>
    ensures { IfOk result (λ fact. fact ≡ fact_from bytes.now id question.now) }
{
    match read_message(alloc, bytes) {
        Ok(message) => {
            if answers_to(id, question, &message) {
                fact_of_message(alloc, message)
            } else {
                unusable(alloc, bytes)
            }
        }
        Err(MessageError::OutOfMemory) => Err(AllocError),
        Err(MessageError::Fault(_)) => unusable(alloc, bytes),
    }
}

// The bytes that came are no response to the question.
fn unusable(alloc: Global, bytes: &[u8]) -> Result<Fact, AllocError>
    ensures { IfOk result (λ fact. fact ≡ facts.Broken (reasons.Unusable bytes.now)) }
{
    Ok(Fact::Broken(AnswerFault::Unusable(Octets::from_slice(alloc, bytes)?)))
}
