//! Compresses the names of one message: a name is written with a pointer to a prior occurrence of its longest suffix (RFC 1035,
//! section 4.1.4).
//!
//! `Places` remembers where the labels of the names written so far begin, as far as a pointer can lead there. The names of a
//! message are written through it, in order.
#![tactic(auto)]

mod compress;
mod hash;
pub mod laws;
mod places;
mod pointing;
mod recent;
mod split;
mod table;

pub use places::Places;
pub use pointing::{POINTED_PLACES, pointer};
pub use split::split_name;
// Contracts of other crates can name `Places` only if the types of its fields are exported, too.
#[doc(hidden)]
pub use recent::{RecentName, RecentNames};
#[doc(hidden)]
pub use table::SuffixEntry;
