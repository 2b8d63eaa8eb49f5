//! Questions to the upstream, a recursive resolver, over few TCP connections that all who ask share (RFC 7766).
//!
//! `TcpLink` is a link of `edge_io`: it asks by `UpstreamAsker`. `UpstreamPool` has the lock over what all links share, `UpstreamConnections`
//! chooses a connection for a question, `UpstreamConnection` is one socket with its `UpstreamQuestions`, and an `UpstreamReader` reads it in
//! a thread of its own.
//!
//! What may be touched: each file by itself. A link counts its faults, which contracts of the crates above rest on; all else only tests
//! show: tools/loopback.py and tools/attack (upstreams).
#![tactic(auto)]

mod answer_place;
pub mod limits;
mod tcp_link;
mod upstream_asker;
mod upstream_connection;
mod upstream_connections;
mod upstream_failures;
mod upstream_frames;
mod upstream_manner;
mod upstream_pool;
mod upstream_questions;
mod upstream_reader;
mod upstream_window;
mod upstreams;
mod wire_numbers;

pub use tcp_link::TcpLink;
pub use upstreams::Upstreams;
