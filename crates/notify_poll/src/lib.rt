//! When each zone is polled: by the timers of its SOA record (RFC 1035, sections 3.3.13 and 4.3.5), and after a NOTIFY (RFC
//! 1996).
#![tactic(auto)]

pub mod laws;
mod notifying;
mod poll_core;
mod timer;

pub use notifying::{NOTIFY, Notified};
pub use poll_core::PollCore;
pub use timer::{FIRST_RETRY, LEAST_PAUSE, Polling, Timer, TimerStage};
