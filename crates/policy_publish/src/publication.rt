//! The serial and the number of rows of a zone that was published.

/// What a zone holds once its transfer was published.
#[derive(Clone, Copy, Debug, PartialEq, Eq)]
pub struct Publication {
    /// The serial of the zone.
    pub serial: u32,
    /// How many rows it has.
    pub rows: usize,
}
