//! Resource records (RFC 1035, section 3.2.1), read from messages and written with their names in full.
//!
//! The data of a type with names is read by its layout; of the other types only A and AAAA in class IN have
//! one, and the data of the rest is any bytes.
#![tactic(auto)]

mod address;
pub mod class;
mod fault;
pub mod laws;
mod lowering;
pub mod number;
mod part;
mod reading;
mod record;
mod record_ref;
mod records;
mod row;
pub mod rtype;
mod serial;
mod soa;
mod soa_reading;

pub use fault::{RecordError, RecordFault};
pub use part::{Part, layout};
pub use reading::{read_record, read_record_of};
pub use record::{Record, write_record};
pub use record_ref::RecordRef;
pub use records::Records;
pub use row::Row;
pub use serial::serial_newer;
pub use soa::Soa;
pub use soa_reading::soa_of;
