//! Zone transfers as lists of messages (RFC 5936, RFC 1995): what was requested, what the messages and records come to, and
//! which fault is the first. It applies no transfer to a zone.
#![tactic(auto)]

mod fault;
mod gathered;
mod heads;
pub mod laws;
mod places;
mod serials;
mod stepping;
mod taken;
mod transfer_request;

pub use fault::{TransferError, TransferFault};
pub use gathered::{AtEnd, Gathered, NextSoa};
pub use heads::read_checked;
pub use places::check_place;
pub use taken::Taken;
pub use transfer_request::{MOST, TransferRequest, Wanted};
