//! Traits for what only a server needs from outside: the arrivals that its threads take, replies to clients, and the network
//! with its transfers and other events.
//!
//! Each but the inlets counts its faults. For those in memory contracts also know what was sent, bound and ordered, and what is
//! still to come, so that they can say what a server did. Over sockets only the counts are known.
#![tactic(auto)]

mod arrival;
mod list_inlet;
mod list_wires;
mod peer;
mod replies;
mod sent_order;
mod wake;
mod wires;

pub use arrival::{Arrival, Inlet, Received};
pub use list_inlet::ListInlet;
pub use list_wires::{ListWires, WireStage};
pub use peer::Peer;
pub use replies::{ListReplies, Replies, SendError, SentReply, StreamEnd};
pub use sent_order::SentOrder;
pub use wake::{Order, OrderEnd, Wake};
pub use wires::{WireError, Wires};
