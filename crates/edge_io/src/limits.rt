//! Limits that several crates keep to of which none stands on another.

/// How many workers there are at most: threads of a server or of a load run, and workers of a script.
pub const WORKER_LIMIT: usize = 16;

/// How many endpoints a server has at most.
pub const LISTEN_LIMIT: usize = 16;

/// How many messages of one connection of a client are answered at most. Behind them it is closed.
pub const CONNECTION_MESSAGES: u32 = 4_096;

/// How many rules a load run has at most.
pub const LOAD_RULE_LIMIT: u32 = 1_000_000;

/// How many queries a load run has at most.
pub const LOAD_QUERY_LIMIT: u32 = 1_000_000;
