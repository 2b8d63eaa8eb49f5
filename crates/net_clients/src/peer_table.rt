//! Connections of clients, by peer.

use crate::shared_connection::SharedConnection;
use ip_prefix::Addr;
use server_io::Peer;
use std::alloc::Global;
use std::collections::BTreeMap;
use std::sync::Arc;

// A peer: its address, whose version has a place of its own, its port, and the listener that it has connected to.
#[derive(Clone, Copy, PartialEq, Eq, PartialOrd, Ord, Drop)]
struct PeerKey {
    version: u8,
    bits: u128,
    port: u16,
    listener: usize,
}

impl PeerKey {
    fn of(peer: Peer) -> PeerKey {
        let (version, bits) = match peer.addr {
            Addr::V4(bits) => (4, u128::from(bits)),
            Addr::V6(bits) => (6, bits),
        };
        PeerKey {
            version,
            bits,
            port: peer.port,
            listener: peer.listener,
        }
    }
}

/// The connections of clients that are open, by peer. Whoever has a reply to a message finds its connection here.
#[derive(Drop)]
pub(crate) struct PeerTable {
    connections: BTreeMap<PeerKey, Arc<SharedConnection>>,
}

impl PeerTable {
    /// None is open.
    pub(crate) fn new(alloc: Global) -> Self {
        PeerTable {
            connections: BTreeMap::new(alloc),
        }
    }

    /// The connection of a peer, if one is open.
    pub(crate) fn find(&self, peer: Peer) -> Option<Arc<SharedConnection>> {
        let connection = self.connections.get(&PeerKey::of(peer))?;
        Arc::try_clone(connection).ok()
    }

    /// Adds a connection. `false` says that there is no memory for it, or that its peer has one: where a listener has all addresses of
    /// the host, the same port of a client may lead to two of them.
    pub(crate) fn add(&mut self, connection: Arc<SharedConnection>) -> bool {
        let key = PeerKey::of(connection.peer());
        !self.connections.contains_key(&key) && self.connections.insert(key, connection).is_ok()
    }

    /// Takes the connection of a peer out.
    pub(crate) fn remove(&mut self, peer: Peer) {
        drop(self.connections.remove(&PeerKey::of(peer)));
    }
}
