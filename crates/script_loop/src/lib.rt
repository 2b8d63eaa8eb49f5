//! The loop over the lines of a script, for any machine that answers lines, any source and any sink.
#![tactic(auto)]

pub mod laws;
mod limits;
mod machine;
mod reader;
pub mod replay;

pub use limits::{CHUNK, LINE_BYTES, LINES};
pub use machine::{AnswerError, Machine};
pub use reader::{LineReader, Next, SourceError};
pub use replay::Stop;
