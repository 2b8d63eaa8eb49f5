//! The next turn of a query.

use crate::said::Said;
use dns_message::Question;

/// The next turn of a query: a question to the upstream, or the reply to the client, or silence.
#[derive(Debug, Drop)]
pub enum Turn {
    /// The question whose answer the reply needs and that isn't known.
    Ask(Question),
    /// The reply, or silence.
    Said(Said),
}
