//! The limits of names (RFC 1035, section 2.3.4).

/// How many bytes a name has at most as it is written, its length bytes and its closing zero counted.
pub const NAME_LIMIT: usize = 255;

/// How many bytes a label has at most.
pub const LABEL_LIMIT: usize = 63;
