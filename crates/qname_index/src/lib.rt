//! Rules by name pattern: a map that finds the pattern that precedes all others matching a name. Versions of a map share their
//! nodes.
#![tactic(auto)]

mod key;
pub mod laws;
mod listing;
mod lookup_name;
mod map;
mod order;
mod pattern_ref;

pub use key::Key;
pub use lookup_name::LookupName;
pub use map::{Found, NameTrie};
pub use pattern_ref::PatternRef;
