//! How many descriptors a server may have, and how many it may want.

use libc::RLIMIT_NOFILE;
use libc::types::rlimit;
use net_clients::limits::NEW_CONNECTIONS;
use net_upstream::limits::UPSTREAM_ALL_CONNECTIONS;
use net_wires::limits::ORDERS_MOST;

// Standard input, output and error, and what waits for the connections of clients.
const OWN: u64 = 14;

// The two sockets of an endpoint.
const OF_LISTENER: u64 = 2;

/// How many descriptors the system allows this process (RLIMIT_NOFILE); `None` where it doesn't say.
pub fn allowed_descriptors() -> Option<u64> {
    let mut limit = rlimit {
        rlim_cur: 0,
        rlim_max: 0,
    };
    match libc::getrlimit(RLIMIT_NOFILE, &mut limit) {
        0 => Some(limit.rlim_cur),
        _ => None,
    }
}

/// How many descriptors a server has at most that admits so many connections of clients at so many endpoints: one for each and for those
/// that are new, two for each endpoint, one for each connection to the upstream and for each transfer under way, and its own.
pub fn wanted_descriptors(clients: u32, listeners: usize) -> u64 {
    let of_clients = u64::from(clients) + u64::from(NEW_CONNECTIONS);
    let of_listeners = (listeners as u64).saturating_mul(OF_LISTENER);
    of_listeners.saturating_add(of_clients + UPSTREAM_ALL_CONNECTIONS + ORDERS_MOST + OWN)
}
