// How many connections of clients may be open.

/// How many connections of clients may be open at a time. Where one more comes, the one that has been idle for longest gives way.
#[derive(Clone, Copy, Debug, PartialEq, Eq)]
pub struct ConnectionLimits {
    /// Of all clients.
    pub all: u32,
    /// Of one client: of one address of version 4, or of one prefix of 64 bits of version 6. Connections of the loopback have no
    /// such limit.
    pub of_client: u32,
}
