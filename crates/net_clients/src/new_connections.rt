//! New connections of clients.

use crate::client_connection::ClientConnection;
use crate::client_counts::Client;
use crate::connection_changes::ConnectionPlace;
use crate::limits::{ACCEPT_RUN, NEW_CONNECTIONS};
use crate::reception::{FIRST, Reception, TurnError};
use crate::shared_connection::SharedConnection;
use mio::unix::SourceFd;
use mio::{Interest, Registry, Token};
use net_base::peer_of;
use server_io::Peer;
use std::net::TcpStream;
use std::os::fd::AsRawFd;
use std::sync::{Arc, Wait};
use std::time::Instant;
use std::{io, time};

impl<R: time::Clock + Wait + Copy + Drop> Reception<R> {
    /// Takes some of the new connections, of all listeners in turn.
    pub(crate) fn accept_some(&mut self, now: Instant) -> Result<(), TurnError> {
        for _ in 0..ACCEPT_RUN {
            let Some(listener) = self.listeners.take_turn() else {
                return Ok(());
            };
            match self.listeners.accept(listener) {
                Ok((stream, address)) => self.take_in(stream, peer_of(address, listener), now),
                Err(error) if error.kind() == io::ErrorKind::WouldBlock => {
                    self.listeners.set_waits(listener, false);
                }
                Err(error) => return Err(TurnError::of(&error)),
            }
        }
        Ok(())
    }

    // Takes a new connection in. It is closed where there is no room for it, or where it can't be served.
    fn take_in(&mut self, stream: TcpStream, peer: Peer, now: Instant) {
        let limits = self.service.connection_limits();
        let client = Client::of(peer.addr);
        let Some(place) = self.table.open(client, limits.of_client) else {
            return;
        };
        if !self.has_room(limits.all, now) {
            self.table.give_up(place.index, client);
            return;
        }
        match self.begin(stream, peer, place) {
            Some(shared) => {
                let connection = ClientConnection::new(self.alloc, shared, client, now);
                self.table.put(place.index, connection);
                self.attend(place.index, now);
            }
            None => self.table.give_up(place.index, client),
        }
    }

    // Whether one more may be open where so many may be. The one that has been idle for longest gives way; while that is new, a little
    // later, unless too many are open.
    fn has_room(&mut self, all: u32, now: Instant) -> bool {
        self.close_beyond(all.saturating_sub(1), now);
        let most = if self.table.is_oldest_idle_new(now) {
            all.saturating_add(NEW_CONNECTIONS)
        } else {
            all
        };
        if self.table.count() >= most
            && let Some(oldest) = self.table.oldest_idle()
        {
            self.close(oldest);
        }
        self.table.count() < most
    }

    /// While more are open than may be, those give way that have been idle for longest and are new no more.
    pub(crate) fn close_surplus(&mut self, now: Instant) {
        let all = self.service.connection_limits().all;
        self.close_beyond(all, now);
    }

    fn close_beyond(&mut self, most: u32, now: Instant) {
        for _ in 0..self.table.len() {
            if self.table.count() <= most || self.table.is_oldest_idle_new(now) {
                return;
            }
            match self.table.oldest_idle() {
                Some(oldest) => self.close(oldest),
                None => return,
            }
        }
    }

    // What workers have of a new connection.
    fn begin(
        &mut self,
        stream: TcpStream,
        peer: Peer,
        place: ConnectionPlace,
    ) -> Option<Arc<SharedConnection>> {
        let token = Token(place.index.saturating_add(FIRST));
        stream.set_nonblocking(true).ok()?;
        register(self.sockets.poll.registry(), &stream, token).ok()?;
        let changes = Arc::try_clone(&self.service.changes).ok()?;
        let shared = SharedConnection::new(self.alloc, stream, peer, place, changes);
        let shared = Arc::new(self.alloc, shared).ok()?;
        let again = Arc::try_clone(&shared).ok()?;
        let is_added = self.service.peers.lock(&self.rt).add(again);
        is_added.then_some(shared)
    }
}

// Both what comes and that more may be written is reported, each time anew.
fn register(registry: &Registry, stream: &TcpStream, token: Token) -> io::Result<()> {
    let fd = stream.as_raw_fd();
    let interest = Interest::READABLE | Interest::WRITABLE;
    registry.register(&mut SourceFd(&fd), token, interest)
}
