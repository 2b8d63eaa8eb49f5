//! What a line of a script says.

use dns_name::{Name, Octets};
use ip_prefix::{Addr, Transport};
use networks::Network;
use policy_override::Override;

/// What a line of a script says, with its fields as they were read.
#[derive(Debug, Drop)]
pub enum Line {
    /// Opens a zone of this origin, and sets this over its rules.
    Zone {
        origin: Name,
        over: Override,
    },
    /// The primary of the zone of this number, from which alone a NOTIFY of it is accepted.
    Primary {
        zone: u32,
        address: Addr,
    },
    /// The clients of this network may ask, beside those of other such lines; where there is no such line, everyone may.
    Allow(Network),
    /// A transfer of the zone of this number, as it came: each message behind its length in two bytes.
    Transfer {
        zone: u32,
        stream: Octets,
    },
    /// The zone of this number is to be transferred in full next.
    Full {
        zone: u32,
    },
    /// A query that this worker got from this address.
    Query {
        worker: u32,
        transport: Transport,
        client: Addr,
        message: Octets,
    },
    /// The answer of the upstream to the question that this worker asked.
    Give {
        worker: u32,
        message: Octets,
    },
    /// The upstream did not answer the question that this worker asked.
    Fail {
        worker: u32,
    },
    /// A message of a client at this address, which may be a NOTIFY.
    Notify {
        client: Addr,
        message: Octets,
    },
    /// Which zone is due?
    Due,
    /// The time, in seconds.
    Clock {
        seconds: u32,
    },
}
