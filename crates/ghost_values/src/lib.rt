//! Values that contracts see and that take no bytes: what something was when it was made (`ProofOnly`), and the list of messages that
//! were taken so far (`TakenMessages`). No code reads them.
#![tactic(auto)]

mod kept;
mod proof_only;
mod taken_messages;

pub use proof_only::ProofOnly;
pub use taken_messages::TakenMessages;
