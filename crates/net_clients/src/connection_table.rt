//! The connections of clients that are open.

use crate::client_connection::ClientConnection;
use crate::client_counts::{Client, ClientCounts};
use crate::client_phase::Phase;
use crate::connection_changes::ConnectionPlace;
use crate::limits::GATHERED_BYTES;
use crate::place_list::PlaceList;
use std::alloc::{AllocError, Global};
use std::sync::Wait;
use std::time::Instant;

/// The connections of clients that are open, each at a place of its own. No call but those that look at all takes longer where more
/// are open.
#[derive(Drop)]
pub(crate) struct ConnectionTable {
    places: Vec<Option<ClientConnection>>,
    free: Vec<usize>,
    count: u32,
    // How many were opened.
    opened: u64,
    clients: ClientCounts,
    // Those that wait for the first byte of a message, and those that wait for the rest of one; in each the one in front has waited
    // longest.
    idle: PlaceList,
    begun: PlaceList,
    /// Those that have to be looked at.
    pub(crate) pending: PlaceList,
    /// Those whose messages wait for a worker.
    pub(crate) ready: PlaceList,
    // The bytes of memory that the messages take of all.
    gathered: usize,
}

impl ConnectionTable {
    /// None is open.
    pub(crate) fn new(alloc: Global) -> Self {
        ConnectionTable {
            places: Vec::new(alloc),
            free: Vec::new(alloc),
            count: 0,
            opened: 0,
            clients: ClientCounts::new(alloc),
            idle: PlaceList::new(alloc),
            begun: PlaceList::new(alloc),
            pending: PlaceList::new(alloc),
            ready: PlaceList::new(alloc),
            gathered: 0,
        }
    }

    /// How many are open.
    pub(crate) fn count(&self) -> u32 {
        self.count
    }

    /// How many places there are, of which some may be free.
    pub(crate) fn len(&self) -> usize {
        self.places.len()
    }

    /// Whether a connection is at a place.
    pub(crate) fn has(&self, index: usize) -> bool {
        match self.places.get(index) {
            Some(place) => place.is_some(),
            None => false,
        }
    }

    /// The connection at a place.
    pub(crate) fn get_mut(&mut self, index: usize) -> Option<&mut ClientConnection> {
        self.places.get_mut(index)?.as_mut()
    }

    /// A place for one more connection of a client that may have so many. Where it isn't taken, it is given up. `None` comes where the
    /// client has as many, and where there is no memory.
    pub(crate) fn open(&mut self, client: Option<Client>, most: u32) -> Option<ConnectionPlace> {
        let index = self.free_place().ok()?;
        if let Some(client) = client
            && !self.clients.add(client, most)
        {
            let _ = self.free.push(index);
            return None;
        }
        let number = self.opened;
        self.opened = number.saturating_add(1);
        Some(ConnectionPlace { index, number })
    }

    // A free place, which may be a new one.
    fn free_place(&mut self) -> Result<usize, AllocError> {
        if let Some(index) = self.free.pop() {
            return Ok(index);
        }
        // room to give each of them back
        self.free.reserve(self.places.len().saturating_add(1))?;
        self.idle.grow()?;
        self.begun.grow()?;
        self.pending.grow()?;
        self.ready.grow()?;
        let index = self.places.len();
        self.places.push(None)?;
        Ok(index)
    }

    /// Gives a place back that was opened and not taken.
    pub(crate) fn give_up(&mut self, index: usize, client: Option<Client>) {
        if let Some(client) = client {
            self.clients.remove(client);
        }
        let _ = self.free.push(index);
    }

    /// Puts a connection at a place that was opened for it.
    pub(crate) fn put(&mut self, index: usize, connection: ClientConnection) {
        if let Some(free) = self.places.get_mut(index) {
            drop(free.replace(connection));
            self.count = self.count.saturating_add(1);
        }
    }

    /// Takes a connection out.
    pub(crate) fn take(&mut self, index: usize) -> Option<ClientConnection> {
        let connection = self.places.get_mut(index)?.take()?;
        self.count = self.count.saturating_sub(1);
        self.gathered = self.gathered.saturating_sub(connection.gathered());
        self.idle.remove(index);
        self.begun.remove(index);
        self.pending.remove(index);
        self.ready.remove(index);
        self.give_up(index, connection.client());
        Some(connection)
    }

    /// The bytes that the messages of a connection take were so many before.
    pub(crate) fn count_gathered(&mut self, before: usize, after: usize) {
        self.gathered = self.gathered.saturating_sub(before).saturating_add(after);
    }

    /// Whether as much is gathered as may be.
    pub(crate) fn is_full(&self) -> bool {
        self.gathered >= GATHERED_BYTES
    }

    /// Whether a connection would read bytes, where it may.
    pub(crate) fn wants_bytes(&self, index: usize) -> bool {
        match self.places.get(index) {
            Some(Some(connection)) => connection.wants_bytes(),
            _ => false,
        }
    }

    /// Puts a connection among those that wait for the same.
    pub(crate) fn sort(&mut self, index: usize, now: Instant) {
        let Some(connection) = self.get_mut(index) else {
            return;
        };
        let Some(phase) = connection.new_phase(now) else {
            return;
        };
        self.idle.remove(index);
        self.begun.remove(index);
        match phase {
            Phase::Idle | Phase::Lingering => self.idle.push(index),
            Phase::Begun => self.begun.push(index),
            Phase::Busy | Phase::Unanswered | Phase::Writing => {}
        }
    }

    /// The connection that has waited longest for a message, if one does.
    pub(crate) fn oldest_idle(&self) -> Option<usize> {
        self.idle.first()
    }

    /// Whether the connection that has waited longest for a message was opened just now.
    pub(crate) fn is_oldest_idle_new(&self, now: Instant) -> bool {
        let Some(index) = self.oldest_idle() else {
            return false;
        };
        match self.places.get(index) {
            Some(Some(connection)) => connection.is_new(now),
            _ => false,
        }
    }

    /// The connection that has waited longest for the rest of a message, if one does.
    pub(crate) fn oldest_begun(&self) -> Option<usize> {
        self.begun.first()
    }

    /// The connection of which most bytes are to go out. It looks at all.
    pub(crate) fn fullest<R: Wait>(&self, rt: &R) -> Option<usize> {
        let mut most = 0;
        let mut fullest = None;
        for (index, place) in self.places.iter().enumerate() {
            if let Some(connection) = place {
                let len = connection.shared().outbox_len(rt);
                if len > most {
                    most = len;
                    fullest = Some(index);
                }
            }
        }
        fullest
    }
}
