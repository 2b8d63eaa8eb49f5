//! Questions to the upstream, and the facts that its answers give: records, chains of aliases, name servers, and for how long
//! they may be kept.
#![tactic(auto)]

mod addresses;
mod aliases;
mod answer;
mod asking;
mod exchange;
mod fact;
mod facts;
mod known;
pub mod laws;
mod learned;
mod life;
mod name_servers;
mod names;
mod server_lists;

pub use aliases::{CHAIN_LIMIT, alias_of, asks_alias, chain};
pub use answer::Answer;
pub use asking::{main_question, question_bytes};
pub use exchange::{AskOutcome, ask};
pub use fact::{AnswerFault, Fact, fact_of};
pub use facts::{FACT_LIMIT, Facts};
pub use learned::Learned;
pub use life::LIFE_LIMIT;
pub use name_servers::ancestors;
pub use names::Names;
pub use server_lists::{ServerLists, known_servers, server_addresses};
