//! Messages of clients and their replies (RFC 1035, section 4.1), by the policy of [`POLICY`]. Each question to the upstream fails.

/// The rows of the zone `rpz.example`, as they stand in a message: `bad.example` CNAME `.`, by which the name doesn't exist, and
/// `gone.example` CNAME `rpz-drop.`, by which there is no reply.
pub const POLICY: [&[u8]; 2] = [
    b"\x03bad\x07example\x03rpz\x07example\0\0\x05\0\x01\0\0\0<\0\x01\0",
    b"\x04gone\x07example\x03rpz\x07example\0\0\x05\0\x01\0\0\0<\0\x0a\x08rpz-drop\0",
];

/// A query of the ID 1111 for the address of `bad.example`.
pub const DENIED: &[u8] = b"\x11\x11\x01\0\0\x01\0\0\0\0\0\0\x03bad\x07example\0\0\x01\0\x01";

/// Its reply: QR, RD and RA 1, rcode 3, the question, and in the additional section the SOA of the policy zone, whose owner is `rpz` and
/// a pointer to the byte 16.
pub const DENIAL: &[u8] = b"\x11\x11\x81\x83\0\x01\0\0\0\0\0\x01\x03bad\x07example\0\0\x01\0\x01\
    \x03rpz\xc0\x10\0\x06\0\x01\0\0\0<\0\x16\0\0\0\0\0\x01\0\0\x0e\x10\0\0\x02X\0\x01Q\x80\0\0\0<";

/// A query of the ID 2222 for the address of `gone.example`, which has no reply.
pub const DROPPED: &[u8] = b"\x22\x22\x01\0\0\x01\0\0\0\0\0\0\x04gone\x07example\0\0\x01\0\x01";

/// A query of the ID 3333 for the address of `bad.example`, with RD 0.
pub const UNSERVED: &[u8] = b"\x33\x33\0\0\0\x01\0\0\0\0\0\0\x03bad\x07example\0\0\x01\0\x01";

/// Its reply: QR and RA 1, RD 0, rcode 5, and the question.
pub const REFUSAL: &[u8] = b"\x33\x33\x80\x85\0\x01\0\0\0\0\0\0\x03bad\x07example\0\0\x01\0\x01";

/// A query of the ID 4444 for the address of `x.example`, which no rule hits.
pub const ASKED: &[u8] = b"\x44\x44\x01\0\0\x01\0\0\0\0\0\0\x01x\x07example\0\0\x01\0\x01";

/// Its reply, since the upstream gives no answer: QR, RD and RA 1, rcode 2, and the question.
pub const FAILURE: &[u8] = b"\x44\x44\x81\x82\0\x01\0\0\0\0\0\0\x01x\x07example\0\0\x01\0\x01";

/// The same query behind its length, and behind it the one with RD 0.
pub const ASKED_AND_UNSERVED: &[u8] =
    b"\0\x1b\x44\x44\x01\0\0\x01\0\0\0\0\0\0\x01x\x07example\0\0\x01\0\x01\
    \0\x1d\x33\x33\0\0\0\x01\0\0\0\0\0\0\x03bad\x07example\0\0\x01\0\x01";

/// Eleven bytes, one fewer than a header has.
pub const SHORT: &[u8] = b"\x11\x11\x01\0\0\x01\0\0\0\0\0";

/// The query for `gone.example` twice and the one with RD 0, each behind its length (RFC 1035, section 4.2.2).
pub const THREE: &[u8] = b"\0\x1e\x22\x22\x01\0\0\x01\0\0\0\0\0\0\x04gone\x07example\0\0\x01\0\x01\
    \0\x1e\x22\x22\x01\0\0\x01\0\0\0\0\0\0\x04gone\x07example\0\0\x01\0\x01\
    \0\x1d\x33\x33\0\0\0\x01\0\0\0\0\0\0\x03bad\x07example\0\0\x01\0\x01";

/// The reply to the query with RD 0, behind its length.
pub const ONE_REPLY: &[u8] =
    b"\0\x1d\x33\x33\x80\x85\0\x01\0\0\0\0\0\0\x03bad\x07example\0\0\x01\0\x01";

/// The query with RD 0 and the one of the ID 1111, of 31 bytes each with their lengths.
pub const TWO: &[u8] = b"\0\x1d\x33\x33\0\0\0\x01\0\0\0\0\0\0\x03bad\x07example\0\0\x01\0\x01\
    \0\x1d\x11\x11\x01\0\0\x01\0\0\0\0\0\0\x03bad\x07example\0\0\x01\0\x01";

/// Their replies, of 31 and 69 bytes with their lengths.
pub const TWO_REPLIES: &[u8] =
    b"\0\x1d\x33\x33\x80\x85\0\x01\0\0\0\0\0\0\x03bad\x07example\0\0\x01\0\x01\
    \0\x43\x11\x11\x81\x83\0\x01\0\0\0\0\0\x01\x03bad\x07example\0\0\x01\0\x01\
    \x03rpz\xc0\x10\0\x06\0\x01\0\0\0<\0\x16\0\0\0\0\0\x01\0\0\x0e\x10\0\0\x02X\0\x01Q\x80\0\0\0<";

/// The query with RD 0 behind its length, and the first byte of a length.
pub const CUT_IN_LENGTH: &[u8] =
    b"\0\x1d\x33\x33\0\0\0\x01\0\0\0\0\0\0\x03bad\x07example\0\0\x01\0\x01\0";

/// The query with RD 0 behind its length, and the first three bytes of a message of 29.
pub const CUT_IN_MESSAGE: &[u8] =
    b"\0\x1d\x33\x33\0\0\0\x01\0\0\0\0\0\0\x03bad\x07example\0\0\x01\0\x01\0\x1d\x11\x11\x01";
