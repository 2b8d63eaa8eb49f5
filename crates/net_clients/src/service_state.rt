//! What the threads of a server share.

use crate::connection_changes::ConnectionChanges;
use crate::datagram::send_datagram;
use crate::limits::{CLIENT_CONNECTIONS, CONNECTIONS_MOST};
use crate::peer_table::PeerTable;
use crate::shared_connection::SharedConnection;
use edge_io::ConnectionLimits;
use ip_prefix::Transport;
use net_base::{WireState, end_receiving};
use server_io::{Peer, SendError};
use std::alloc::Global;
use std::net::UdpSocket;
use std::sync::atomic::{AtomicBool, AtomicU64, Ordering};
use std::sync::{Arc, Mutex, Wait};

// More than any limit.
const NO_LIMIT: u64 = u64::MAX;

/// What the threads of a server share: the UDP sockets of its endpoints, how many arrivals they still give, and whether they have to
/// end.
#[derive(Drop)]
pub(crate) struct ServiceState {
    /// The socket of each listener, which waits for datagrams.
    pub(crate) sockets: Vec<UdpSocket>,
    /// What workers tell the thread that has the connections of clients.
    pub(crate) changes: Arc<ConnectionChanges>,
    /// The connections of clients. The lock is held for a look into this table, and for nothing that waits.
    pub(crate) peers: Mutex<PeerTable>,
    wires: Arc<WireState>,
    // How many connections of clients may be open, in all and of one client.
    connections: AtomicU64,
    client_connections: AtomicU64,
    // How many arrivals are given in all, or `NO_LIMIT`, and how many were asked for.
    turns: AtomicU64,
    taken: AtomicU64,
    // How many datagrams were taken but given to nobody.
    dropped: AtomicU64,
    is_stopped: AtomicBool,
    has_failed: AtomicBool,
    // The thread that has the connections has nothing more to do.
    has_ended: AtomicBool,
    // The thread that has the connections waits for room in the queue to the workers.
    wants_room: AtomicBool,
}

impl ServiceState {
    /// Nothing was given yet.
    pub(crate) fn new(
        alloc: Global,
        sockets: Vec<UdpSocket>,
        changes: Arc<ConnectionChanges>,
        wires: Arc<WireState>,
    ) -> Self {
        ServiceState {
            sockets,
            changes,
            peers: Mutex::new(PeerTable::new(alloc)),
            wires,
            connections: AtomicU64::new(u64::from(CONNECTIONS_MOST)),
            client_connections: AtomicU64::new(u64::from(CLIENT_CONNECTIONS)),
            turns: AtomicU64::new(NO_LIMIT),
            taken: AtomicU64::new(0),
            dropped: AtomicU64::new(0),
            is_stopped: AtomicBool::new(false),
            has_failed: AtomicBool::new(false),
            has_ended: AtomicBool::new(false),
            wants_room: AtomicBool::new(false),
        }
    }

    /// At most so many arrivals are given from now on.
    pub(crate) fn limit(&self, turns: u32) {
        self.taken.store(0, Ordering::SeqCst);
        self.turns.store(u64::from(turns), Ordering::SeqCst);
        if turns == 0 {
            self.stop();
        }
    }

    /// At most so many connections of clients are open from now on.
    pub(crate) fn admit(&self, limits: ConnectionLimits) {
        let ConnectionLimits { all, of_client } = limits;
        self.connections.store(u64::from(all), Ordering::SeqCst);
        self.client_connections
            .store(u64::from(of_client), Ordering::SeqCst);
    }

    /// How many connections of clients may be open.
    pub(crate) fn connection_limits(&self) -> ConnectionLimits {
        let all = self.connections.load(Ordering::SeqCst);
        let of_client = self.client_connections.load(Ordering::SeqCst);
        ConnectionLimits {
            all: u32::try_from(all).unwrap_or(u32::MAX),
            of_client: u32::try_from(of_client).unwrap_or(u32::MAX),
        }
    }

    /// Sends a reply from the endpoint that its peer sent to: as one datagram, or over TCP as a frame on the connection of the peer. It
    /// doesn't wait. `Failed` comes where there is no such listener, where the datagram didn't go out, where the peer has no connection,
    /// and where that takes no more.
    pub(crate) fn send<R: Wait>(
        &self,
        rt: &R,
        peer: Peer,
        transport: Transport,
        message: &[u8],
    ) -> Result<(), SendError> {
        match transport {
            Transport::Udp if self.send_over_udp(peer, message) => Ok(()),
            Transport::Udp => Err(SendError::Failed),
            Transport::Tcp => match self.connection_of(rt, peer) {
                Some(connection) => connection.put(rt, message),
                None => Err(SendError::Failed),
            },
        }
    }

    // Sends a datagram, and says whether it went out.
    fn send_over_udp(&self, peer: Peer, message: &[u8]) -> bool {
        match self.sockets.get(peer.listener) {
            Some(socket) => send_datagram(socket, peer, message),
            None => false,
        }
    }

    // The connection of a peer. The lock is not held behind this.
    fn connection_of<R: Wait>(&self, rt: &R, peer: Peer) -> Option<Arc<SharedConnection>> {
        self.peers.lock(rt).find(peer)
    }

    /// Whether one more arrival may be given. With the last one the service stops. Without a limit nothing is counted, so that the
    /// threads write nothing that they share.
    pub(crate) fn take_turn(&self) -> bool {
        let turns = self.turns.load(Ordering::SeqCst);
        if turns == NO_LIMIT {
            return true;
        }
        let before = self.taken.fetch_add(1, Ordering::SeqCst);
        if before.saturating_add(1) >= turns {
            self.stop();
        }
        before < turns
    }

    /// Counts a datagram that was taken but is given to nobody.
    pub(crate) fn drop_one(&self) {
        self.dropped.fetch_add(1, Ordering::SeqCst);
    }

    /// How many datagrams were taken but given to nobody.
    pub(crate) fn dropped(&self) -> u64 {
        self.dropped.load(Ordering::SeqCst)
    }

    /// Ends the service: all waits for arrivals end at once. Replies still go out.
    pub(crate) fn stop(&self) {
        self.is_stopped.store(true, Ordering::SeqCst);
        for socket in self.sockets.iter() {
            end_receiving(socket);
        }
        self.wake_connections();
    }

    /// Whether the service has stopped.
    pub(crate) fn is_stopped(&self) -> bool {
        self.is_stopped.load(Ordering::SeqCst)
    }

    /// One of the threads can't go on.
    pub(crate) fn fail(&self) {
        self.has_failed.store(true, Ordering::SeqCst);
        self.wires.signal.raise();
    }

    /// Whether one of the threads couldn't go on.
    pub(crate) fn has_failed(&self) -> bool {
        self.has_failed.load(Ordering::SeqCst)
    }

    /// The thread that has the connections has nothing more to do.
    pub(crate) fn end(&self) {
        self.has_ended.store(true, Ordering::SeqCst);
    }

    /// Whether the thread that has the connections has nothing more to do.
    pub(crate) fn has_ended(&self) -> bool {
        self.has_ended.load(Ordering::SeqCst)
    }

    /// Whether the thread that has the connections wants to be woken by whoever makes room in the queue. It says so before it looks for
    /// room, so that it is woken where there is none.
    pub(crate) fn want_room(&self, is_wanted: bool) {
        self.wants_room.store(is_wanted, Ordering::SeqCst);
    }

    /// There is room in the queue to the workers.
    pub(crate) fn made_room(&self) {
        if self.wants_room.swap(false, Ordering::SeqCst) {
            self.wake_connections();
        }
    }

    /// Wakes the thread that has the connections. It doesn't wait.
    pub(crate) fn wake_connections(&self) {
        self.changes.wake();
    }
}
