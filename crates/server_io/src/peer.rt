// Who sends to a server.
use ip_prefix::Addr;

/// A client: where it is, and to which endpoint of the server it sent. A reply leaves from there.
#[derive(Clone, Copy, Debug, PartialEq, Eq)]
pub struct Peer {
    pub addr: Addr,
    pub port: u16,
    /// The place of that endpoint in the list that was bound last.
    pub listener: usize,
}
