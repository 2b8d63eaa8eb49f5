//! Rules by address prefix: a map that finds the longest prefix containing an address. Versions of a map share their nodes.
#![tactic(auto)]

mod bit_trie;
mod build;
mod copy;
mod key;
mod keyed;
mod long;
mod map;
mod node;
mod put;
mod short;
mod take;
mod walk;

pub use map::PrefixTrie;
