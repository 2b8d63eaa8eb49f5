//! Outcomes of the items of a worker.

/// What became of an item.
#[derive(Clone, Copy, Debug, PartialEq, Eq)]
pub enum Took {
    /// A job's reply was sent.
    Reply,
    /// A job's message gets no reply.
    Silent,
    /// Memory ran out for a job's reply, or for its send.
    Memory,
    /// A job's reply was not sent: a fault.
    Failed,
    /// A job was passed on: who answers it counts it.
    PassedOn,
    /// The message of a connection was answered, gets no reply, or could not be answered or sent to: no job counts it.
    Framed,
    /// A connection was served, and closed.
    Closed,
    /// A list of transfers was learned.
    Learnt,
    Stop,
}
