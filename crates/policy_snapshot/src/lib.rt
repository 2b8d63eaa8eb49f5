//! One version of the policy: all policy zones in order with their overrides, and the decision which of their rules applies to
//! a query.
#![tactic(auto)]

mod candidates;
mod deciding;
mod entry;
pub mod laws;
mod lookup;
mod name_listing;
mod new_zone;
mod old_zone;
mod overriding;
mod prefix_listing;
mod questions;
mod sight;
mod snapshot;
mod summaries;

pub use entry::Entry;
pub use old_zone::OldZone;
pub use snapshot::Snapshot;
