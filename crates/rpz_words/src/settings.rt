//! What a server is to do, and a load run.

use crate::endpoints::Endpoints;
use crate::zones::Zones;
use edge_io::{ConnectionLimits, Endpoint, LOAD_QUERY_LIMIT, LOAD_RULE_LIMIT};
use networks::AllowList;

/// The most workers of a server.
pub const WORKER_LIMIT: usize = edge_io::WORKER_LIMIT;

/// The most rules of a load run.
pub const RULE_LIMIT: u32 = LOAD_RULE_LIMIT;

/// The most queries of a load run.
pub const QUERY_LIMIT: u32 = LOAD_QUERY_LIMIT;

/// The most workers of a load run.
pub const LOAD_WORKER_LIMIT: u32 = edge_io::WORKER_LIMIT as u32;

/// The greatest seed of a load run.
pub(crate) const SEED_LIMIT: u32 = u32::MAX;

/// The most arrivals that a server takes, where it is to end after so many.
pub(crate) const TURN_LIMIT: u32 = u32::MAX;

/// The fewest answers that a server's cache may be limited to.
pub const LEAST_CACHE: u32 = 16;

/// The most answers that a server's cache may be limited to.
pub const MOST_CACHE: u32 = 1_048_576;

/// How many answers a server's cache holds at most where `--cache` isn't given.
pub const USUAL_CACHE: u32 = 65_536;

/// The most workers of a server that ask the upstream for what was passed on.
pub const ASKER_LIMIT: u32 = 512;

/// How many workers of a server ask the upstream for what was passed on where `--askers` isn't given.
pub const USUAL_ASKERS: u32 = 256;

/// The most connections of clients that a server may be told to have open, in all or of one client.
pub const CONNECTION_LIMIT: u32 = 65_535;

/// How many connections of clients are open at most where `--tcp-clients` isn't given.
pub const USUAL_CONNECTIONS: u32 = 1_000;

/// How many connections of one client are open at most where `--tcp-per-client` isn't given.
pub const USUAL_PER_CLIENT: u32 = 100;

/// The most seconds for which a server may be told to wait for its zones.
pub(crate) const HOLD_LIMIT: u32 = u32::MAX;

/// What a server is to do.
#[derive(Debug, Drop)]
pub struct Settings {
    /// Where queries arrive: 1 to 16 endpoints, none twice.
    pub listen: Endpoints,
    /// The upstream, which is asked for what the policy doesn't decide.
    pub upstream: Endpoint,
    /// How many arrivals are taken, 1 to 4,294,967,295; `None` where there is no limit.
    pub turns: Option<u32>,
    /// How many workers answer datagrams by the rules and the cache, at each endpoint: 1 to 16.
    pub workers: usize,
    /// How many workers ask the upstream for what those pass on: 1 to 512.
    pub askers: usize,
    /// How many answers the cache that all workers share holds at most: 16 to 1,048,576.
    pub cache: u32,
    /// For how many seconds no endpoint is opened before each zone was loaded once: 0 to 4,294,967,295, of which 0 is without end; `None`
    /// where it is opened at once.
    pub hold: Option<u32>,
    /// How many connections of clients are open at most, in all and of one client: 1 to 65,535 each.
    pub connections: ConnectionLimits,
    /// The networks whose clients may ask: at most 64, none twice; where there is none, everyone may.
    pub allowed: AllowList,
    /// The policy zones in order, 1 to 64, of distinct names: rules of earlier ones go before those of later ones.
    pub zones: Zones,
}

/// What the arguments and options of a server say that are one number, word or endpoint each.
#[derive(Clone, Copy, Debug)]
pub(crate) struct PlainSettings {
    pub(crate) upstream: Endpoint,
    pub(crate) turns: Option<u32>,
    pub(crate) workers: u32,
    pub(crate) askers: u32,
    pub(crate) cache: u32,
    pub(crate) hold: Option<u32>,
    pub(crate) connections: ConnectionLimits,
}

/// What a load run is to do.
#[derive(Clone, Copy, Debug)]
pub struct LoadSettings {
    /// What the rules and the queries are made from.
    pub seed: u32,
    /// How many rules are made: at most [`RULE_LIMIT`].
    pub rules: u32,
    /// How many queries are made and answered: at most [`QUERY_LIMIT`].
    pub queries: u32,
    /// How many workers answer: 1 to 16.
    pub workers: u32,
}
