//! A question to the upstream over a link.

ghost use Rattle.std.specs.Prelude.{◌≡◌, ◌≤◌, Ok, IfOk};
ghost use Rattle.edge_io.specs.Edge.{Rose};
ghost use Rattle.upstream_link.specs.Asking.{AsksAt, IfLearned};

use crate::asking::question_bytes;
use crate::learned::Learned;
use dns_message::Question;
use edge_io::{Link, LinkError};
use std::alloc::{AllocError, Global};

/// What asking a question gives.
#[derive(Drop)]
pub enum AskOutcome<L: Link> {
    Learned(Learned<L>),
    /// The link failed: its count of faults has risen in this call.
    Failed,
}

/// Asks the question over the link, in a message of this ID; `now` is in seconds.
pub fn ask<L: Link>(
    alloc: Global,
    link: &mut L,
    id: u16,
    question: &Question,
    now: u32,
) -> Result<AskOutcome<L>, AllocError>
    ensures learned { IfOk result (λ asked. IfLearned asked (AsksAt id question.now now)) }
    ensures failed { result ≡ Ok AskOutcome.Failed → Rose (L.faults link.old) (L.faults link.new) }
    ensures count { L.faults link.old ≤ L.faults link.new }
{
    let sent = question_bytes(alloc, id, question)?;
    match link.exchange(alloc, sent.as_slice(), now) {
        Ok(bytes) => Ok(AskOutcome::Learned(Learned::given(alloc, id, question, &bytes, now)?)),
        Err(LinkError::Failed) => Ok(AskOutcome::Failed),
        Err(LinkError::OutOfMemory) => Err(AllocError),
    }
}
