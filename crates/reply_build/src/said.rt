//! What is sent to a client.

use dns_name::Octets;

/// The reply to a client, or silence.
#[derive(Debug, Drop)]
pub enum Said {
    Reply(Octets),
    /// No reply.
    Silent,
}
