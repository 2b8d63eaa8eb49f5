//! Publishes versions of the policy from one thread to readers in other threads, which take the newest without waiting.
#![tactic(auto)]

mod allowed;
mod front;
mod latest;
mod publication;
mod publisher;
mod reader;
mod rule;
mod showing;
mod shown;
mod store;
mod versions;

pub use front::StoreName;
pub use latest::Latest;
pub use publication::Publication;
pub use publisher::Publisher;
pub use reader::{PolicyReader, Told};
pub use store::{Parts, READER_LIMIT, start_store};
