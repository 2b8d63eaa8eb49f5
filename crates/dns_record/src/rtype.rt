//! Types of records (RFC 1035, sections 3.2.2 and 3.2.3, and the standards that are named beside each).

/// An address of 32 bits.
pub const A: u16 = 1;

/// A name server of a zone.
pub const NS: u16 = 2;

/// A mail destination; obsolete.
pub const MD: u16 = 3;

/// A mail forwarder; obsolete.
pub const MF: u16 = 4;

/// The canonical name of an alias.
pub const CNAME: u16 = 5;

/// The start of a zone of authority.
pub const SOA: u16 = 6;

/// A mailbox.
pub const MB: u16 = 7;

/// A member of a mail group.
pub const MG: u16 = 8;

/// The new name of a mailbox.
pub const MR: u16 = 9;

/// A pointer to another name.
pub const PTR: u16 = 12;

/// The mailboxes that are responsible for a mailbox or mail list.
pub const MINFO: u16 = 14;

/// A mail exchange.
pub const MX: u16 = 15;

/// Text.
pub const TXT: u16 = 16;

/// An address of 128 bits (RFC 3596).
pub const AAAA: u16 = 28;

/// The host and port of a service (RFC 2782).
pub const SRV: u16 = 33;

/// The new name of a subtree of names (RFC 6672).
pub const DNAME: u16 = 39;

/// The extensions of a message (RFC 6891, section 6.1).
pub const OPT: u16 = 41;

/// The digest of a key of a child zone (RFC 4034, section 5).
pub const DS: u16 = 43;

/// A signature of a set of records (RFC 4034, section 3).
pub const RRSIG: u16 = 46;

/// The next owner, and the types at this one (RFC 4034, section 4).
pub const NSEC: u16 = 47;

/// A public key of a zone (RFC 4034, section 2).
pub const DNSKEY: u16 = 48;

/// The hash of the next owner, and the types at this one (RFC 5155, section 3).
pub const NSEC3: u16 = 50;

/// How the owners of a zone are hashed (RFC 5155, section 4).
pub const NSEC3PARAM: u16 = 51;

/// In a question: the changes of a zone (RFC 1995, section 2).
pub const IXFR: u16 = 251;

/// In a question: a whole zone.
pub const AXFR: u16 = 252;

/// In a question: records of all types.
pub const ANY: u16 = 255;
