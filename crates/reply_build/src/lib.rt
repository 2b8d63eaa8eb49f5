//! Builds the reply to a query from the decision and what is known, or gives the question whose answer the reply still needs
//! (draft-vixie-dnsop-dns-rpz, section 3).
#![tactic(auto)]

mod answers;
mod building;
mod local;
mod parts;
mod place;
mod reply;
mod rows;
mod said;
mod servfail;
mod target;
mod turn;
mod verdict;
mod writing;

pub use building::build;
pub use said::Said;
pub use servfail::bare_servfail;
pub use turn::Turn;
pub use verdict::Verdict;
