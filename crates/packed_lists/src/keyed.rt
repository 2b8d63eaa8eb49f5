//! A key with its number.

/// A key, lent, and its number.
#[derive(Clone, Copy, Drop)]
pub struct Keyed<'a> {
    /// The octets of the key.
    pub key: &'a [u8],
    /// The number.
    pub number: u32,
}
