//! What the header of a message says, but for its counts.

ghost use Rattle.std.specs.Prelude.{◌≡◌};
ghost use Rattle.dns_message.specs.Request.{request_header};

/// What the header of a message says, but for its counts (RFC 1035, section 4.1.1).
#[derive(Clone, Copy, Debug, PartialEq, Eq)]
pub struct Header {
    /// Ties an answer to its question.
    pub id: u16,
    /// Whether it is a response.
    pub qr: bool,
    /// The kind of question: 4 bits, of which no higher ones are written.
    pub opcode: u8,
    /// Whether the answer is authoritative.
    pub aa: bool,
    /// Whether the message was truncated.
    pub tc: bool,
    /// Whether recursion is desired.
    pub rd: bool,
    /// Whether recursion is available.
    pub ra: bool,
    /// How it went: 4 bits, of which no higher ones are written.
    pub rcode: u8,
}

impl Header {
    /// The header of a request with this ID for records, which desires recursion or doesn't.
    pub fn request(id: u16, rd: bool) -> Self
        ensures { result ≡ request_header id rd }
    {
        Header {
            id,
            qr: false,
            opcode: 0,
            aa: false,
            tc: false,
            rd,
            ra: false,
            rcode: 0,
        }
    }
}
