//! A policy zone as a list of rows, and what a transfer makes of it.
#![tactic(auto)]

mod draft;
mod fault;
mod key_set;
pub mod laws;
mod marks;
mod row_ref;
mod rows;
mod stepping;
mod steps;
mod transfer;
mod zone;

pub use fault::{ApplyError, ApplyFault};
pub use key_set::KeySet;
pub use row_ref::RowRef;
pub use rows::Rows;
pub use steps::{Step, Steps};
pub use transfer::Transfer;
pub use zone::{Content, PlainZone, ROW_LIMIT, ZONE_LIMIT};
