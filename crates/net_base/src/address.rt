//! Endpoints and clients, as std has them.

use edge_io::Endpoint;
use ip_prefix::Addr;
use server_io::Peer;
use std::net::{IpAddr, Ipv4Addr, Ipv6Addr, SocketAddr};

/// The socket address of an endpoint. Under version 6 its flow label and its scope are 0.
pub fn address_of(at: Endpoint) -> SocketAddr {
    let ip = match at.addr {
        Addr::V4(bits) => IpAddr::V4(Ipv4Addr::from_bits(bits)),
        Addr::V6(bits) => IpAddr::V6(Ipv6Addr::from_bits(bits)),
    };
    SocketAddr::new(ip, at.port)
}

/// The client at a socket address, which sent to this listener: its address and its port, without the flow label and the scope of
/// version 6. A reply to a link-local address (RFC 4291, section 2.5.6) fails, since it names no scope. An IPv4-mapped address (RFC
/// 4291, section 2.5.5.2) stays one of version 6.
pub fn peer_of(address: SocketAddr, listener: usize) -> Peer {
    let addr = match address.ip() {
        IpAddr::V4(ip) => Addr::V4(ip.to_bits()),
        IpAddr::V6(ip) => Addr::V6(ip.to_bits()),
    };
    Peer {
        addr,
        port: address.port(),
        listener,
    }
}
