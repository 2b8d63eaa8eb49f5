//! The clients of a server: a UDP socket and a TCP listener for each endpoint, their connections, and where replies go.
//!
//! One thread has all connections (`Reception`): it accepts, reads whole messages, and sends what waits in send buffers. Workers take
//! datagrams (`DatagramInlet`) and batches of messages of a connection (`ConnectionInlet`), and reply by `ServerReplies`. None of them
//! waits for a client.
//!
//! What may be touched: each file by itself. `service_state` and `shared_connection` are what threads share, each under locks that are
//! held for a look. No contract says what a client gets: if something broke, tools/loopback.py and tools/attack tell.
#![tactic(auto)]

mod bound_sockets;
mod client_connection;
mod client_counts;
mod client_phase;
mod client_sink;
mod client_source;
mod connection_changes;
mod connection_inlet;
mod connection_table;
mod datagram;
mod datagram_inlet;
pub mod limits;
mod listeners;
mod message_buffer;
mod new_connections;
mod outbox;
mod peer_table;
mod place_list;
mod reception;
mod server_replies;
mod service;
mod service_state;
mod shared_connection;
mod stretch;

pub use client_sink::ClientSink;
pub use client_source::ClientSource;
pub use connection_inlet::ConnectionInlet;
pub use datagram_inlet::DatagramInlet;
pub use reception::{Reception, ServedConnections};
pub use server_replies::ServerReplies;
pub use service::Service;
