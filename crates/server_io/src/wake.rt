// Transfers that are ordered, and what the thread waits for that orders them.
ghost use Rattle.std.specs.Prelude.{◌↔◌, IsTrue};
ghost use Rattle.server_io.specs.Wired.{IsOrderFault};

use crate::Peer;
use dns_name::Octets;
use ip_prefix::Transport;

/// A transfer that was ordered of a primary server.
#[derive(Clone, Copy, Debug, PartialEq, Eq)]
pub struct Order {
    pub number: u64,
}

/// How what came of an order has ended.
#[derive(Clone, Copy, Debug, PartialEq, Eq)]
pub enum OrderEnd {
    /// The primary server has closed the connection between two messages.
    End,
    /// It has closed it inside a message.
    Cut,
    /// A read has failed, or the primary server was too slow.
    ReadFault,
    /// The request could not be written.
    WriteFault,
    /// There was no connection to the primary server.
    FetchFault,
    /// There was no room for a message, which is no fault.
    OutOfMemory,
}

impl OrderEnd {
    /// Whether the connection to the primary server has failed.
    pub fn is_fault(self) -> bool
        ensures { IsTrue result ↔ IsOrderFault self }
    {
        match self {
            OrderEnd::ReadFault | OrderEnd::WriteFault | OrderEnd::FetchFault => true,
            OrderEnd::End | OrderEnd::Cut | OrderEnd::OutOfMemory => false,
        }
    }
}

/// What the thread waits for that has the wires of a server.
#[derive(Drop)]
pub enum Wake {
    /// A second has passed.
    Due,
    /// The next whole message that came of an order.
    Frame {
        order: Order,
        bytes: Octets,
    },
    /// Nothing more comes of an order.
    Over {
        order: Order,
        why: OrderEnd,
    },
    /// A message that is a request with the opcode NOTIFY (RFC 1996), who sent it, and over which transport.
    Notify {
        peer: Peer,
        transport: Transport,
        bytes: Octets,
    },
    /// All inlets have ended, and each NOTIFY was given. So many datagrams were taken, but given to nobody: there was no
    /// room for them, or a NOTIFY came too soon behind others.
    Ended {
        dropped: u64,
    },
}
