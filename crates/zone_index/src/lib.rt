//! A policy zone with its rules: takes transfers of its rows, and finds its rules by trigger.
//!
//! It has three layers. Rows are stored and edited in `indexed`, `editing`, `stepping` and `finding`. The index of triggers is
//! `trigger_index`, over `tries`, `patterns`, `prefixes` and `places`; `looking` and `lending` find a rule and lend it. The
//! index of a whole transfer is made at once in `gathering`, `index_entries` and `place_entries`.
#![tactic(auto)]

mod acting_entries;
mod addresses;
mod changes;
mod does;
mod edit_error;
mod editing;
mod entry;
mod finding;
mod gathering;
mod group;
mod index_entries;
mod indexed;
mod kept;
pub mod laws;
mod lending;
mod loaded;
mod look_up;
mod looking;
mod numbers;
mod pattern_entries;
mod patterns;
mod place;
mod place_entries;
mod place_octets;
mod places;
mod prefix_entries;
mod prefixes;
mod repeats;
mod row_place;
mod rules;
mod settling;
mod stepping;
mod tally;
mod tries;
mod trigger_index;
mod usage;
mod zone;

pub use changes::Changes;
pub use rules::Rules;
pub use zone::{Index, Zone};
