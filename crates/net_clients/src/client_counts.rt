//! How many connections each client has.

use ip_prefix::Addr;
use std::alloc::Global;
use std::collections::BTreeMap;

/// A client, as connections are counted: an address of version 4, or a prefix of 64 bits of version 6 (RFC 6177, section 2).
#[derive(Clone, Copy, PartialEq, Eq, PartialOrd, Ord, Drop)]
pub(crate) struct Client {
    version: u8,
    bits: u64,
}

// What stands in front of an IPv4-mapped address (RFC 4291, section 2.5.5.2).
const MAPPED: u128 = 0xffff;

// The first byte of the loopback of version 4 (RFC 1122, section 3.2.1.3), and the address of that of version 6.
const LOOPBACK_V4: u64 = 127;

const LOOPBACK_V6: u128 = 1;

impl Client {
    /// The client of an address; none for the loopback, of which nothing is counted. An IPv4-mapped address is one of version 4.
    pub(crate) fn of(addr: Addr) -> Option<Client> {
        let client = match addr {
            Addr::V4(bits) => Client::of_v4(u64::from(bits)),
            Addr::V6(LOOPBACK_V6) => return None,
            Addr::V6(bits) if bits >> 32 == MAPPED => Client::of_v4((bits % (1 << 32)) as u64),
            Addr::V6(bits) => Client {
                version: 6,
                bits: (bits >> 64) as u64,
            },
        };
        if client.version == 4 && client.bits >> 24 == LOOPBACK_V4 {
            return None;
        }
        Some(client)
    }

    fn of_v4(bits: u64) -> Client {
        Client { version: 4, bits }
    }
}

/// How many connections each client has that has any.
#[derive(Drop)]
pub(crate) struct ClientCounts {
    counts: BTreeMap<Client, u32>,
}

impl ClientCounts {
    /// None has any.
    pub(crate) fn new(alloc: Global) -> Self {
        ClientCounts {
            counts: BTreeMap::new(alloc),
        }
    }

    /// Counts one more of a client, unless it has so many already. `false` says that it isn't counted: it has as many, or there is no
    /// memory.
    pub(crate) fn add(&mut self, client: Client, most: u32) -> bool {
        let before = match self.counts.get(&client) {
            Some(count) => *count,
            None => 0,
        };
        before < most && self.counts.insert(client, before.saturating_add(1)).is_ok()
    }

    /// Counts one less.
    pub(crate) fn remove(&mut self, client: Client) {
        if let Some(count) = self.counts.get_mut(&client) {
            *count = count.saturating_sub(1);
            if *count > 0 {
                return;
            }
        }
        let _ = self.counts.remove(&client);
    }
}
