//! Reads and writes DNS messages (RFC 1035, section 4), with names in full or compressed, and sorts requests: no reply, a
//! refusal, or a query.
#![tactic(auto)]

mod alike_records;
mod compressed_data;
mod edns;
mod fault;
mod header;
pub mod laws;
mod limit;
mod message;
mod message_writer;
mod opt_reading;
mod question;
mod reading;
mod record_refs;
mod request;
mod triage;
mod writing;
mod written;

pub use edns::{BAD_VERSION, EDNS_VERSION, Edns, UDP_PAYLOAD, reply_edns};
pub use fault::{MessageError, MessageFault};
pub use header::Header;
pub use limit::{GREATEST_LIMIT, LEAST_LIMIT, reply_limit};
pub use message::Message;
pub use message_writer::{KNOWN_KEY, MessageWriter, record_ref, write_message};
pub use question::Question;
pub use reading::{read_header, read_message};
pub use record_refs::RecordRefs;
pub use request::{Incoming, Query};
pub use triage::{
    FORMAT_ERROR, NO_ERROR, NOT_IMPLEMENTED, REFUSED, classify, has_later_version,
    read_query_parts, refusal, speaks, turned_away,
};
pub use writing::{write_full, write_parts, write_start};
pub use written::WrittenRecords;
