//! What became of a NOTIFY.

/// What became of a NOTIFY (RFC 1996).
#[derive(Clone, Copy, Debug, PartialEq, Eq)]
pub enum Notice {
    /// Its reply was sent.
    Replied,
    /// It gets no reply.
    Silent,
    /// There was no room for it, or for its reply.
    Memory,
    /// Its reply could not be sent: the wires' count of faults has risen.
    Failed,
}
