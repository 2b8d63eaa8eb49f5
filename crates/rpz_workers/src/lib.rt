//! The workers of a server: they answer messages by the published policy and the cache, and pass those that need the upstream
//! on to workers that ask it.
#![tactic(auto)]

mod answered;
mod asker;
mod asks;
mod bare_reply;
mod connection;
mod count;
mod gate;
mod handling;
mod inlet_items;
mod item;
pub mod laws;
mod list_items;
mod list_onward;
mod obtained;
mod onward;
mod outcome;
mod report;
mod request_list;
mod sources;
mod task;
mod took;
mod worker;

pub use answered::Answered;
pub use asker::{Asker, AsksNobody};
pub use asks::{Asked, Asks};
pub use connection::FRAME_LIMIT;
pub use gate::{GATE_TURNS, Gate, NoGate};
pub use inlet_items::InletItems;
pub use item::{Item, Items, Job};
pub use list_items::ListItems;
pub use list_onward::{ListOnward, NoOnward, Passed};
pub use obtained::Obtained;
pub use onward::Onward;
pub use outcome::Outcome;
pub use report::Report;
pub use request_list::{
    IDLE_SECONDS, JOSTLE_MILLISECONDS, QUERY_SECONDS, RequestItems, RequestList, RequestOnward,
    WAITING_OCTETS, WAITING_QUERIES,
};
pub use task::ServeTask;
pub use took::Took;
pub use worker::Worker;
