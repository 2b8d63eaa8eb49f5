//! Questions to the upstream.

ghost use Rattle.std.specs.Prelude.{◌≡◌, IfOk};
ghost use Rattle.dns_message.specs.Spelling.{spelling};
ghost use Rattle.upstream_link.specs.Question.{main_question as question_about, question_message};

use dns_message::{Header, Query, Question, write_parts};
use dns_name::Octets;
use dns_record::class;
use std::alloc::{AllocError, Global};

/// What is asked of the upstream about a query: its own question.
pub fn main_question(query: &Query) -> Result<Question, AllocError>
    ensures { IfOk result (λ question. question ≡ question_about query.now) }
{
    Ok(Question {
        name: query.question.name.clone()?,
        qtype: query.question.qtype,
        qclass: class::IN,
    })
}

/// The bytes of a message of this ID that asks the question, its name in lower case and RD 1.
pub fn question_bytes(alloc: Global, id: u16, question: &Question) -> Result<Octets, AllocError>
    ensures { IfOk result (λ octets. octets ≡ spelling (question_message id question.now)) }
{
    let header = Header::request(id, true);
    let small = Question {
        name: question.name.lower(alloc)?,
        qtype: question.qtype,
        qclass: question.qclass,
    };
    let mut out = Octets::with_capacity(alloc, 12 + small.name.octets().len() + 4)?;
    write_parts(&mut out, &header, Some(&small), &[], &[], &[], None)?;
    Ok(out)
}
