//! Keeps the zones of a server up to date: polls each from its primary when it is due, publishes what is new, and answers
//! NOTIFYs.
#![tactic(auto)]

mod ending;
mod fault;
mod feeder;
mod hastening;
pub mod laws;
mod lines;
mod notice;
mod ordering;
mod polling;
mod taking;
mod under_way;
mod waking;

pub use fault::{FeedError, FeedFault};
pub use feeder::Feeder;
pub use lines::PollOutcome;
pub use notice::Notice;
pub use polling::Polled;
