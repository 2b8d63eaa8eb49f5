//! A transfer of a zone.

use crate::rows::Rows;
use crate::steps::Steps;
use dns_record::Soa;

/// A transfer of a zone, read whole.
#[derive(Debug, Drop)]
pub enum Transfer {
    /// The whole zone (RFC 5936): its SOA, and the rows between the two SOA records.
    Whole { soa: Soa, rows: Rows },
    /// What changed, step by step (RFC 1995).
    Steps(Steps),
}
