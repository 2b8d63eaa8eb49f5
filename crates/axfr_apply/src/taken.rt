//! The result of a transfer.

use zone_rows::Transfer;

/// The result of a transfer.
#[derive(Debug, Drop)]
pub enum Taken {
    /// We have what the primary has: its serial is this.
    Current { theirs: u32 },
    /// What the primary has is newer.
    New(Transfer),
}
