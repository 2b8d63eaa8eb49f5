//! Reads what a rule does out of the rows of its trigger: the actions of response policy zones (draft-vixie-dnsop-dns-rpz,
//! section 3).
#![tactic(auto)]

mod action;
pub mod laws;
mod live;
mod local;
mod local_ref;
mod order;
mod table;
mod words;

pub use action::{Action, ActionRef};
pub use live::is_live_type;
pub use local::LocalRows;
pub use local_ref::{LocalPart, LocalRef};
pub use table::{action_for, action_of};
