//! The limits of this crate.

/// The bytes of replies that the system is asked to keep of one connection until the client has them (SO_SNDBUF), and those of messages
/// until they are read here (SO_RCVBUF). Else it may keep megabytes of each.
pub const CLIENT_SEND_BUFFER: i32 = 128 << 10;

pub const CLIENT_RECEIVE_BUFFER: i32 = 64 << 10;

/// Milliseconds after which the system gives up a connection whose client takes nothing, also one that is closed here: as many as
/// `OUTBOX_SECONDS`.
pub const UNREAD_MILLISECONDS: i32 = 10_000;

/// How many new connections of clients the system is asked to keep until they are accepted. It gives at most its own limit, on Linux
/// `net.core.somaxconn`. Where it keeps no more, a client tries again after a second.
pub const BACKLOG: i32 = 1_024;

/// Seconds after which `wait` says that something may be due: timers of zones have seconds.
pub const WAKE_SECONDS: u64 = 1;

/// How many NOTIFYs (RFC 1996) of primary servers may wait to be looked at, and how many of others. One more is dropped: a primary
/// server sends it again (section 3.6).
pub const NOTIFY_QUEUE: usize = 64;

/// Seconds in which one NOTIFY of an address is looked at, and of a primary server `PRIMARY_NOTIFIES`. Others are dropped, since each
/// may cost a connection.
pub const NOTIFY_SECONDS: u64 = 1;

/// How many NOTIFYs of a primary server are looked at in `NOTIFY_SECONDS`: many of its zones may change at once.
pub const PRIMARY_NOTIFIES: u32 = 64;

/// Of how many primary servers NOTIFYs have a queue of their own, and of how many other addresses NOTIFYs are looked at in
/// `NOTIFY_SECONDS`.
pub const NOTIFY_ADDRESSES: usize = 64;

/// Seconds that one read from a primary server may wait, and one write to it. Servers may make a large zone ready before they send it.
pub const TRANSFER_IDLE_SECONDS: u64 = 30;

/// Seconds that a transfer may take in all, so that a primary server that sends a byte now and then doesn't hold it for ever.
pub const TRANSFER_SECONDS: u64 = 1_800;

/// Milliseconds that a job for a new thread may wait for room in its queue.
pub const START_MILLISECONDS: u64 = 100;

/// Seconds after which connections to the upstream that have ended are given up at the latest.
pub const JOIN_SECONDS: u64 = 1;

/// How many threads may wait to be started: those of the transfers and of connections to upstreams, and the one that has the
/// connections of clients.
pub const THREAD_QUEUE: usize = 128;
