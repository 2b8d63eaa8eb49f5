//! What the tries share: keys as strings of symbols with their laws, what a trie stores at a key, and a count of steps.
#![tactic(auto)]

mod mark;
mod marked;
mod number_set;
mod steps;

pub use mark::Mark;
pub use marked::Marked;
pub use number_set::NumberSet;
pub use steps::Steps;
