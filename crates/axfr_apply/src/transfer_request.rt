//! The request for a transfer.

use dns_name::Name;

/// The messages and answer records of a transfer, counted together, are fewer than this.
pub const MOST: u32 = 33_554_432;

/// Which transfer is wanted: all of a zone, or what is newer.
#[derive(Clone, Copy, Debug, PartialEq, Eq)]
pub enum Wanted {
    /// All of it (AXFR, RFC 5936): `have` is the serial of what we have, if anything.
    Whole { have: Option<u32> },
    /// What is newer than what we have, which is of this serial (IXFR, RFC 1995). It may come as steps, or as all of the zone.
    Newer { have: u32 },
}

/// The request for a transfer: all of the zone of an origin, or what is newer.
#[derive(Debug, Drop)]
pub struct TransferRequest {
    /// The ID of the request, which each message of the answer has.
    pub id: u16,
    /// The name of the zone.
    pub origin: Name,
    pub wanted: Wanted,
    /// The number of the message or record, counted together from 1, at which there are too many.
    pub most: u32,
}
