//! Domain names: lists of labels, their form in messages (RFC 1035, sections 3.1 and 4.1.4) and as text.
//!
//! A name is one buffer that holds it as it is written in a message. Contracts see the list of its labels.
#![tactic(auto)]

mod alike;
mod cursor;
mod fault;
mod item;
pub mod laws;
mod limits;
mod name;
mod name_reader;
mod octets;
mod order;
mod parts;
mod pattern;
mod text;

pub use cursor::Labels;
pub use fault::{JoinError, NameError, NameFault, TextError, TextFault, TooLong};
pub use limits::{LABEL_LIMIT, NAME_LIMIT};
pub use name::Name;
pub use name_reader::NameReader;
pub use octets::Octets;
pub use pattern::Pattern;
