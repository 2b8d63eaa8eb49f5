//! What a server does.

use crate::server_cache::ServerCache;
use dns_name::Name;
use edge_io::{ConnectionLimits, Endpoint, Link};
use rpz_words::Endpoints;

/// What a server does: where it answers and asks, and for how long.
#[derive(Debug, Drop)]
pub struct ServerPlan {
    /// The endpoints that it opens.
    pub listen: Endpoints,
    /// How many connections of clients may be open.
    pub admitted: ConnectionLimits,
    /// How many arrivals are taken; `None` where as many as come.
    pub turns: Option<u32>,
    /// Where questions are asked.
    pub upstream: Endpoint,
    /// How many workers ask the upstream.
    pub askers: usize,
    /// How many workers take datagrams, at each endpoint.
    pub workers: usize,
    /// For how many seconds the endpoints stay closed before each zone was loaded once, where 0 is without end; `None` where they are
    /// opened at once.
    pub hold: Option<u32>,
}

/// What a server does, and over which cache.
#[derive(Drop)]
pub struct Plan<L: Link> {
    pub server: ServerPlan,
    /// What was learned from the upstream, for all workers.
    pub cache: ServerCache<L>,
}

/// The policy zones of a server, in order.
#[derive(Drop)]
pub(crate) struct PlannedZones {
    pub(crate) origins: Vec<Name>,
    pub(crate) primaries: Vec<Endpoint>,
}
