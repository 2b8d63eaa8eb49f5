//! Reads the lines of a script of `rpz replay`, and writes the lines of its transcript.
#![tactic(auto)]

mod field;
mod fields;
pub mod laws;
mod line;
mod line_fault;
mod line_reading;
mod overriding;
mod shown;
mod shown_text;
mod state;
mod zone_fault;

pub use field::{address_4 as read_address_4, number as read_number};
pub use line::Line;
pub use line_fault::{BadLine, LineError, LineFault, UnnumberedError};
pub use line_reading::{read_line, read_unnumbered};
pub use shown::Shown;
pub use shown_text::write_shown;
pub use state::{ScriptState, WORKERS};
pub use zone_fault::ZoneFault;
