//! Requests, and what is done with them.

use crate::edns::Edns;
use crate::message::Message;
use crate::question::Question;
use ip_prefix::{Addr, Transport};

/// A question that a client asks.
#[derive(Debug, Drop)]
pub struct Query {
    /// Ties the answer to the question.
    pub id: u16,
    /// Whether recursion is desired.
    pub rd: bool,
    pub question: Question,
    /// What its OPT record says, if it has one.
    pub edns: Option<Edns>,
    /// Where it came from.
    pub client: Addr,
    /// How it came.
    pub transport: Transport,
}

/// What is done with the bytes that a client sent.
#[derive(Debug, Drop)]
pub enum Incoming {
    /// Nothing is sent.
    Silent,
    /// This refusal is sent.
    Refuse(Message),
    /// The question is looked at.
    Query(Query),
}
