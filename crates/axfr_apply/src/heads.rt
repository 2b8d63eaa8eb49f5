//! The head of a message of a transfer.

ghost use Rattle.std.specs.Prelude.{◌≡◌, option_copied};
ghost use Rattle.axfr_apply.specs.Checks.{Gives, checked_message};
ghost use Rattle.axfr_apply.specs.Reading as form;

use crate::fault::{TransferError, TransferFault};
use crate::transfer_request::{TransferRequest, Wanted};
use dns_message::{Message, Question, read_message};
use dns_record::{class, rtype};
use std::alloc::Global;

// Whether this is the type of a question by which this is asked for.
fn asks_type(wanted: Wanted, qtype: u16) -> bool
    ensures { result ≡ form.asks_type wanted qtype }
{
    match wanted {
        Wanted::Whole { .. } => qtype == rtype::AXFR,
        Wanted::Newer { .. } => qtype == rtype::IXFR || qtype == rtype::AXFR,
    }
}

// Whether this is the question for the zone.
fn asks_for(asked: &TransferRequest, question: &Question) -> bool
    ensures { result ≡ form.asks_for asked.now question.now }
{
    question.name.is_same(&asked.origin)
        && question.qclass == class::IN
        && asks_type(asked.wanted, question.qtype)
}

// Whether the first message has the question, or a later one has it or none.
fn question_fits(asked: &TransferRequest, is_first: bool, question: Option<&Question>) -> bool
    ensures { result ≡ form.question_fits asked.now is_first (option_copied question.entry) }
{
    match question {
        None => !is_first,
        Some(question) => asks_for(asked, question),
    }
}

// The first thing that is wrong with the head of a message.
fn head_fault(asked: &TransferRequest, is_first: bool, message: &Message) -> Option<TransferFault>
    ensures { result ≡ form.head_fault asked.now is_first message.now }
{
    let header = message.header;
    if header.id != asked.id {
        return Some(TransferFault::WrongId);
    }
    if !(header.qr && header.opcode == 0) {
        return Some(TransferFault::NotResponse);
    }
    if header.tc {
        return Some(TransferFault::Truncated);
    }
    if header.rcode != 0 {
        return Some(TransferFault::Rcode(header.rcode));
    }
    if !question_fits(asked, is_first, message.question.as_ref()) {
        return Some(TransferFault::WrongQuestion);
    }
    None
}

/// The message, if nothing is wrong with its head.
pub fn read_checked(
    alloc: Global,
    asked: &TransferRequest,
    is_first: bool,
    bytes: &[u8],
) -> Result<Message, TransferError>
    ensures { Gives result (checked_message asked.now is_first bytes.now) }
{
    let message = read_message(alloc, bytes)?;
    match head_fault(asked, is_first, &message) {
        Some(fault) => Err(TransferError::Fault(fault)),
        None => Ok(message),
    }
}
