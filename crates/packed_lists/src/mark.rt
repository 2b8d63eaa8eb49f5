//! A key's mark.

// How many octets a key has, and its number.
#[derive(Clone, Copy, Drop)]
pub(crate) struct Mark {
    pub(crate) number: u32,
    pub(crate) len: u16,
}
