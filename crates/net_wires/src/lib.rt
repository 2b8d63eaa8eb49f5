//! The network of a server: the wires of `server_io` over the sockets of clients (net_clients), the upstream (net_upstream), and transfers
//! from primary servers, each in a thread of its own.
//!
//! `NetWires` is all that a program makes. It counts its faults, which the contract of a run rests on, and tells nothing of what the
//! network gives or takes. What may be touched: `transfer`, `orders` and `order_line` by themselves. If something broke,
//! tools/loopback.py and tools/attack (primaries) tell.
#![tactic(auto)]

pub mod limits;
mod order_line;
mod orders;
mod primary_connection;
mod transfer;
mod waking;
mod wire_job;
mod wires;

pub use wires::NetWires;
