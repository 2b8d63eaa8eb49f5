//! Tests of the libraries below, and nothing else. They show what neither a proof nor a scenario can: that a read or
//! a write which fails is reported, that a generic function works at a concrete type, and that functions which no
//! script reaches give their values, and succeed if memory suffices.
#![tactic(auto)]

#[cfg(test)]
mod asserts;
#[cfg(test)]
mod caches;
#[cfg(test)]
mod command_words;
#[cfg(test)]
mod edges;
#[cfg(test)]
mod frames;
#[cfg(test)]
mod laws;
#[cfg(test)]
mod links;
#[cfg(test)]
mod load_runs;
pub mod looking;
#[cfg(test)]
mod names;
#[cfg(test)]
mod packed;
#[cfg(test)]
mod pattern_tries;
#[cfg(test)]
mod polls;
#[cfg(test)]
mod prefix_tries;
#[cfg(test)]
mod records;
#[cfg(test)]
mod requests;
#[cfg(test)]
mod row_lists;
#[cfg(test)]
mod row_samples;
#[cfg(test)]
mod rules;
#[cfg(test)]
mod script_lines;
mod sets;
pub mod sign;
#[cfg(test)]
mod texts_of_addresses;
#[cfg(test)]
mod transfers;
#[cfg(test)]
mod triggers;
