//! A message.

use crate::edns::Edns;
use crate::header::Header;
use crate::question::Question;
use dns_record::Records;

/// A message (RFC 1035, section 4.1) of at most one question. Its OPT record is no record of the additional
/// section here: `edns` is what it says.
#[derive(Debug, Drop)]
pub struct Message {
    pub header: Header,
    pub question: Option<Question>,
    pub answer: Records,
    pub authority: Records,
    pub additional: Records,
    pub edns: Option<Edns>,
}
