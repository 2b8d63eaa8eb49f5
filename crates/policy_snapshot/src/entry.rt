//! A transfer that was accepted.

use zone_rows::Transfer;

/// A transfer that was accepted, with the number of its zone; the first is zone 1.
#[derive(Debug, Drop)]
pub struct Entry {
    pub zone: u32,
    pub transfer: Transfer,
}
