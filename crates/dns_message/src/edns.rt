//! What an OPT record says (EDNS, RFC 6891).

ghost use Rattle.std.specs.Prelude.{◌≡◌, option_copied};
ghost use Rattle.dns_message.specs.Request.{reply_edns as told_edns};

/// The version of the extension that is served (RFC 6891, section 6.1.3).
pub const EDNS_VERSION: u8 = 0;

/// The size in bytes in OPT records of replies, and the most that a reply over UDP has. Such a packet
/// passes networks without being cut into fragments.
pub const UDP_PAYLOAD: u16 = 1232;

/// The higher 8 bits of the response code BADVERS, 16 (RFC 6891, section 9); its lower 4 bits are 0.
pub const BAD_VERSION: u8 = 1;

/// What the OPT record of a message says (RFC 6891, section 6.1), but for its flags and its options, which
/// are dropped.
#[derive(Clone, Copy, Debug, PartialEq, Eq)]
pub struct Edns {
    /// The size in bytes of the largest message over UDP that the sender takes.
    pub payload: u16,
    /// The version of the extension.
    pub version: u8,
    /// The higher 8 bits of the response code, whose lower 4 bits the header has.
    pub extended: u8,
}

/// What the OPT record of a reply says: there is one exactly where the request had one (RFC 6891, section
/// 6.1.1). It has the higher 8 bits of the response code.
pub fn reply_edns(extended: u8, edns: Option<&Edns>) -> Option<Edns>
    ensures { result ≡ told_edns extended (option_copied edns.entry) }
{
    match edns {
        None => None,
        Some(_) => Some(Edns {
            payload: UDP_PAYLOAD,
            version: EDNS_VERSION,
            extended,
        }),
    }
}
