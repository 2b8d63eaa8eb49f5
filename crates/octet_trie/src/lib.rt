//! A map from keys of octets, each exact or wild, that finds the longest key that matches. Versions of a map share their nodes.
#![tactic(auto)]

mod build;
mod collect;
mod copy;
mod find;
mod node;
mod order;
mod put;
mod rebuild;
mod store;
mod take;
mod trie;
mod walk;

pub use trie::{OctetFound, OctetTrie};
