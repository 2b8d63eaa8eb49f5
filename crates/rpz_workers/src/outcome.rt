//! What becomes of a message.

use reply_build::Said;

/// What becomes of a message.
#[derive(Debug, Drop)]
pub enum Outcome {
    /// It is answered, or gets no reply.
    Said(Said),
    /// Memory ran out for its answer, or there was no room to pass it on.
    NoMemory,
    /// It is passed on, so that somebody else answers it.
    PassedOn,
}
