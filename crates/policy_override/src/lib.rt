//! Policy overrides: what an operator sets in place of the actions of the rules of a policy zone.
#![tactic(auto)]

mod overrides;
mod zone_set;

pub use overrides::{Override, Overrides};
pub use zone_set::{ZoneSet, ZoneSets, as_given, origins_of};
