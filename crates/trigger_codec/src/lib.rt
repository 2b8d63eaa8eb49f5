//! Reads the trigger of a rule from the owner of its row (draft-vixie-dnsop-dns-rpz, section 4), and writes the one canonical
//! owner of a trigger.
#![tactic(auto)]

mod address;
mod by_kind;
mod canonical;
mod decode;
mod digits;
mod inert;
pub mod laws;
mod marker;
mod runs;
mod spelling;
mod trigger;

pub use by_kind::ByKind;
pub use canonical::owner_of;
pub use decode::trigger_of;
pub use inert::{Inert, TriggerError};
pub use trigger::{Kind, Trigger};
