//! The order of precedence of rules (draft-vixie-dnsop-dns-rpz, section 5): of the rules that match, the one that decides is
//! the one that no other precedes.
#![tactic(auto)]

pub mod hit;
pub mod laws;
mod order;
pub mod trigger_ref;

pub use hit::Hit;
pub use order::before;
pub use trigger_ref::TriggerRef;
