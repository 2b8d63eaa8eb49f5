//! The limits of this crate.

/// How many transfers are under way at one time, each in a thread of its own: all zones may be due at once.
pub const ORDERS_MOST: u64 = 64;

/// How many messages of a transfer are read ahead of those that were taken. Each has at most 65,535 bytes, so that all transfers
/// together keep at most 32 MiB.
pub const FRAMES_AHEAD: usize = 8;

/// Seconds within which a primary server must take a connection.
pub const CONNECT_SECONDS: u64 = 2;

/// The bytes that are read ahead of a connection to a primary server.
pub const TRANSFER_BUFFER: usize = 65_536;
