//! One query from its message to its reply, under the version of the policy that held when it came: what it asks of the
//! upstream, and what it replies.
#![tactic(auto)]

pub mod laws;
mod session;
mod turns;

pub use session::Session;
