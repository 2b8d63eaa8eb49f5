//! What a reply is made of, where it lies.

use crate::place::HitPlaceRef;
use action_codec::LocalRef;
use dns_message::Question;
use dns_name::Name;
use upstream_link::Answer;

/// What a reply is made of, where it lies: nothing of it is written yet.
#[derive(Debug, Drop)]
pub enum ReplyParts<'a> {
    /// No records.
    Bare {
        /// Whether the client is to ask again over TCP.
        tc: bool,
        rcode: u8,
    },
    /// The upstream's answer to the query's own question.
    Passed(&'a Answer),
    /// A rule: the aliases that led to it, and those of its local data that are asked for.
    ByRule {
        rcode: u8,
        place: &'a HitPlaceRef<'a>,
        rows: Option<&'a LocalRef<'a>>,
    },
    /// A rule that is an alias: the aliases that led to it, the alias, and the upstream's answer about its target, unless the alias
    /// itself is asked for.
    ByAlias {
        place: &'a HitPlaceRef<'a>,
        ttl: u32,
        target: Name,
        answer: Option<&'a Answer>,
    },
}

/// What a verdict comes to, by what is known.
#[derive(Debug, Drop)]
pub enum Decision<'a> {
    /// The question whose answer the reply needs and that isn't known.
    Needs(Question),
    /// A reply of these parts.
    Gives(ReplyParts<'a>),
    /// No reply.
    Silent,
}
