//! The commands of `rpz`, which answers queries by response policy zones (draft-vixie-dnsop-dns-rpz): `replay`, `serve` and
//! `load`, over any streams, network, threads and memory.
#![tactic(auto)]

mod answerers;
mod answering;
mod answering_workers;
mod askers;
mod feeds;
mod holding;
pub mod laws;
mod loading;
mod opened;
mod output;
mod plan;
mod progress;
mod replaying;
pub mod run;
mod serve_error;
mod served_line;
mod server;
mod server_cache;
mod serving;
mod showing;
mod stage;
mod starting;
pub mod status;
mod streamers;
mod sums;
mod tasks;
mod turning;

pub use feeds::STREAM_WORKERS;
pub use holding::{FIRST_TRY_SECONDS, LAST_TRY_SECONDS};
pub use plan::{Plan, ServerPlan};
pub use replaying::replayed;
pub use serve_error::ServeError;
pub use server::serve;
pub use sums::Sums;
pub use turning::FIRST_PASS_SECONDS;
