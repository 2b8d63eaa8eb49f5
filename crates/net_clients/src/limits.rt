//! The limits of this crate.

use edge_io::FRAME_MAX;

/// Seconds that a client may take for a message over TCP, from its first byte to its last (RFC 7766, section 6.2.3, has a few seconds).
pub const MESSAGE_SECONDS: u64 = 10;

/// Seconds that a connection of a client may be idle before the first byte of its next message.
pub const IDLE_SECONDS: u64 = 10;

/// Seconds within which a client must take some of the replies that wait for it.
pub const OUTBOX_SECONDS: u64 = 10;

/// Seconds after which a message that was given out counts as answered: there is no reply to some. A query takes 5 at most.
pub const ANSWER_SECONDS: u64 = 6;

/// Seconds that a client has to close a connection on which nothing more is written to it.
pub const LINGER_SECONDS: u64 = 2;

/// Milliseconds that clients have at the end of a service to take replies. With what comes behind, it ends within a second.
pub const STOP_MILLISECONDS: u64 = 800;

/// How many connections of clients may be open, unless something else is said, and how many of one client, which is an address of
/// version 4 or a prefix of 64 bits of version 6.
pub const CONNECTIONS_MOST: u32 = 1_000;

pub const CLIENT_CONNECTIONS: u32 = 100;

/// Milliseconds for which a connection is new: its first query may be on its way, so that it isn't closed for the sake of another one
/// while at most `NEW_CONNECTIONS` more are open than may be.
pub const NEW_MILLISECONDS: u64 = 1_000;

/// How many connections more than may be open are open for that long, where many come at once.
pub const NEW_CONNECTIONS: u32 = 1_000;

/// How many messages of a connection a worker gets at a time, before other connections have their turn.
pub const TURN_MESSAGES: u32 = 8;

/// How many messages of a connection may be without an answer. Behind them nothing is read until some are answered.
pub const UNANSWERED_MESSAGES: u32 = 16;

/// How many messages of a connection may get no answer at all. Behind them it is closed.
pub const SILENT_MESSAGES: u64 = 16;

/// The bytes of memory that messages of all connections may take that no worker has yet. Where they take more, the connection is closed
/// that has waited longest with a part of a message.
pub const GATHERED_BYTES: usize = 16 << 20;

/// The bytes of the replies that may wait for one client: as many as one turn can make.
pub const OUTBOX_BYTES: usize = 8 * (FRAME_MAX + 2);

/// The bytes of the replies that may wait for all clients. Where more wait, the connection is closed of which most do. At twice as many
/// no more are taken, so that the memory is bounded also before that is done.
pub const OUTBOX_BYTES_ALL: u64 = 64 << 20;

/// The bytes that are received of a client at a time.
pub const RECEIVE_BYTES: usize = 65_536;

/// How many connections with whole messages may wait in the queue to the workers. Others wait outside of it.
pub const CONNECTION_QUEUE: usize = 64;

/// Milliseconds between two looks at which connections have waited too long.
pub const LATE_MILLISECONDS: u64 = 250;

/// How many connections are accepted in a row, at all listeners in turn, before something else has its turn.
pub const ACCEPT_RUN: u32 = 64;

/// How many events of the sockets are taken from the system at a time.
pub const EVENTS: usize = 64;

/// Seconds after which an inlet says that nothing came. So often a worker that nobody asks looks for a newer policy.
pub const ARRIVAL_SECONDS: u64 = 5;

/// How many datagrams and errors in a row an inlet passes over before it says that nothing came.
pub const PASSED_RUN: u32 = 64;

/// How many errors in a row, with nothing else among them, end the wait for arrivals. Those of a shortage don't count for it, since it
/// passes once connections end.
pub const PASSING_ERRORS: u32 = 1_000;

/// Milliseconds after which arrivals are looked for again where the system has no descriptor or no memory left for them.
pub const SHORTAGE_MILLISECONDS: u64 = 10;

/// The bytes of the longest datagram that is taken whole. The length of UDP has two bytes (RFC 768), so none is longer.
pub const DATAGRAM_MAX: usize = 65_535;

/// The bytes of waiting datagrams that the system is asked to keep (SO_RCVBUF). It gives at most its own limit, on Linux
/// `net.core.rmem_max`.
pub const RECEIVE_BUFFER: i32 = 4 << 20;

/// The bytes of replies that the system is asked to keep until they have gone out (SO_SNDBUF), likewise `net.core.wmem_max`. Replies to
/// neighbours that don't answer stay there for seconds, and one that finds no room is lost.
pub const SEND_BUFFER: i32 = 4 << 20;
