//! The question of a message.

use dns_name::Name;

/// The question of a message (RFC 1035, section 4.1.2).
#[derive(Clone, Debug, Drop)]
pub struct Question {
    pub name: Name,
    pub qtype: u16,
    pub qclass: u16,
}
