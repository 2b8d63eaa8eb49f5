//! Reads zone transfers from the messages of a primary, incremental (IXFR, RFC 1995) or whole (AXFR, RFC 5936), and writes the
//! requests for them. Says what to request of a zone, and which zones are marked, so that all of them is requested next. It
//! applies no transfer to a zone.
#![tactic(auto)]

pub mod laws;
mod marks;
mod progress;
mod reader;
mod refusal;
mod requests;
mod stream;
mod wants;

pub use marks::Marks;
pub use reader::{Fed, TransferReader};
pub use refusal::Refusal;
pub use requests::{request, request_newer};
pub use stream::read_transfer;
pub use wants::{asks_newer, wanted};
