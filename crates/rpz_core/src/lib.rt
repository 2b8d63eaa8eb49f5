//! The machine behind `rpz replay`: a policy, workers with their pending queries, a cache and a clock, which takes one event
//! and gives one output. It knows nothing of scripts, threads or sockets.
#![tactic(auto)]

mod event;
pub mod laws;
mod offer;
mod pending;
mod policy_core;
mod resolving;
mod sessions;

pub use event::{CoreError, CoreFault, Event, Output};
pub use policy_core::Core;
pub use sessions::WORKERS;
