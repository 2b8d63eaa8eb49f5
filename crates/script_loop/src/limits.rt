//! The limits of a script.

/// The greatest number of a line.
pub const LINES: u64 = 4_294_967_295;

/// The most bytes of a line, its line feed not counted.
pub const LINE_BYTES: usize = 200_000;

/// A read of a script takes at most this many bytes.
pub const CHUNK: usize = 8_192;
