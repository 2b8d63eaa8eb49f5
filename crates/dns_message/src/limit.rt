//! How long a reply may be.

ghost use Rattle.std.specs.Prelude.{◌≡◌, ◌≤◌};
ghost use Rattle.dns_message.specs.Limit.{udp_limit as limit_over_udp, reply_limit as limit_of};

use crate::edns::{Edns, UDP_PAYLOAD};
use crate::request::Query;
use ip_prefix::Transport;

/// How many bytes a message over UDP has at most where the other side says nothing of it (RFC 1035, section
/// 4.2.1). No limit is lower.
pub const LEAST_LIMIT: usize = 512;

/// How many bytes a message over TCP has at most (RFC 1035, section 4.2.2). No limit is higher.
pub const GREATEST_LIMIT: usize = 65_535;

/// How many bytes the reply to a query has at most: over UDP 512, or the size that its OPT record gives, but
/// at least 512 and at most 1232 (RFC 6891, section 6.2.3); over TCP 65,535.
pub fn reply_limit(query: &Query) -> usize
    ensures limit { result ≡ limit_of query.now }
    ensures low { LEAST_LIMIT ≤ result }
    ensures high { result ≤ GREATEST_LIMIT }
{
    match query.transport {
        Transport::Udp => udp_limit(query.edns),
        Transport::Tcp => GREATEST_LIMIT,
    }
}

// The limit over UDP, by what the request's OPT record says.
fn udp_limit(edns: Option<Edns>) -> usize
    ensures limit { result ≡ limit_over_udp edns }
    ensures low { LEAST_LIMIT ≤ result }
    ensures high { result ≤ GREATEST_LIMIT }
{
    match edns {
        None => LEAST_LIMIT,
        Some(edns) => usize::from(edns.payload.min(UDP_PAYLOAD)).max(LEAST_LIMIT),
    }
}
