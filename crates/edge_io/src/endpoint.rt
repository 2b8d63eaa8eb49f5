// Where a server is.
use ip_prefix::Addr;

/// Where a server is: an address and a port.
#[derive(Clone, Copy, Debug, PartialEq, Eq)]
pub struct Endpoint {
    pub addr: Addr,
    pub port: u16,
}
