//! What a query came to.

use dns_message::Question;
use reply_build::Said;

/// What the query of a message came to.
#[derive(Debug, Drop)]
pub enum Answered {
    /// It is answered, or gets no reply.
    Said(Said),
    /// It needs the upstream: this is the question that is to be asked first.
    Needs(Question),
}
