//! A row that is lent.

/// A row that a list lends, with its number in the list. The list doesn't look into the octets.
#[derive(Clone, Copy)]
pub struct StoredRow<'a> {
    /// The number: no other row of the list has it, and it stays the same in all copies.
    pub number: u32,
    /// The octets of the owner, at most 65,535.
    pub owner: &'a [u8],
    /// The type.
    pub rtype: u16,
    /// The TTL in seconds.
    pub ttl: u32,
    /// The octets of the data, at most 65,535.
    pub rdata: &'a [u8],
}
