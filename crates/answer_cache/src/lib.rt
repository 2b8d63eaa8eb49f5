//! The cache of answers from the upstream (RFC 2308, section 5), the most recently used first.
#![tactic(auto)]

mod cache;
mod keeps;
mod key;
pub mod laws;
mod shard;
mod shared;

pub use cache::{AnswerCache, MOST_ENTRIES};
pub use keeps::Keeps;
pub use shard::{SHARDS, shard_number};
pub use shared::{MOST_OCTETS, Shared, SharedCache};
