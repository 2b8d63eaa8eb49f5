//! The thread that has the connections of clients.

use crate::client_connection::Next;
use crate::connection_changes::ConnectionPlace;
use crate::connection_table::ConnectionTable;
use crate::limits::{
    LATE_MILLISECONDS, OUTBOX_BYTES_ALL, PASSING_ERRORS, SHORTAGE_MILLISECONDS, STOP_MILLISECONDS,
    TURN_MESSAGES,
};
use crate::listeners::Listeners;
use crate::service_state::ServiceState;
use crate::shared_connection::SharedConnection;
use crate::stretch::Stretch;
use crossbeam_channel::{Sender, TrySendError};
use dns_name::Octets;
use edge_io::LISTEN_LIMIT;
use ip_prefix::Transport;
use mio::event::Event;
use mio::unix::SourceFd;
use mio::{Events, Poll, Registry, Token};
use net_base::{Job, KeptJob, NoticeSender, is_shortage};
use server_io::Peer;
use std::alloc::{AllocError, Global};
use std::os::fd::AsRawFd;
use std::sync::{Arc, Wait};
use std::time::{Duration, Instant};
use std::{io, mem, time};

/// The token of what wakes the thread.
pub(crate) const WAKES: Token = Token(0);

/// The token of the first listener. Those of the others follow.
pub(crate) const FIRST_LISTENER: usize = 1;

/// The token of the first connection.
pub(crate) const FIRST: usize = FIRST_LISTENER + LISTEN_LIMIT;

/// The connections of clients. A thread of its own has them: it takes new ones, reads whole messages, and sends the replies that a client
/// doesn't take at once. A connection with whole messages goes into a queue, from which workers take them, and comes back once they were
/// read. The thread waits for nothing but its sockets, and all of them together.
#[derive(Drop)]
pub struct Reception<R: time::Clock + Wait + Drop> {
    pub(crate) rt: R,
    pub(crate) alloc: Global,
    pub(crate) service: Arc<ServiceState>,
    pub(crate) sockets: ReceptionSockets,
    pub(crate) listeners: Listeners,
    pub(crate) table: ConnectionTable,
    /// To the workers.
    pub(crate) queue: Sender<Stretch<R>>,
    /// `None` once the service has stopped.
    pub(crate) notices: Option<NoticeSender>,
    /// What is received at a time.
    pub(crate) scratch: Vec<u8>,
    /// An empty list, for the connections that changed.
    pub(crate) changed: Vec<ConnectionPlace>,
    /// When all connections are to be looked at next.
    pub(crate) next_look: Option<Instant>,
}

/// What the thread waits for.
#[derive(Drop)]
pub(crate) struct ReceptionSockets {
    pub(crate) poll: Poll,
    pub(crate) events: Events,
}

/// Why a turn was cut short.
#[derive(Clone, Copy)]
pub(crate) enum TurnError {
    /// The system has no descriptor or no memory left, for now.
    Shortage,
    /// Any other error of a socket.
    Socket,
}

impl TurnError {
    /// What an error of a socket comes to.
    pub(crate) fn of(error: &io::Error) -> TurnError {
        if is_shortage(error) {
            TurnError::Shortage
        } else {
            TurnError::Socket
        }
    }
}

impl<R: time::Clock + Wait + Copy + Drop> Reception<R> {
    // Serves until the service stops. After `PASSING_ERRORS` errors in a row it fails; those of a shortage don't count for that.
    fn serve(&mut self) {
        let mut in_a_row = 0u32;
        for _ in 0..u64::MAX {
            if self.service.is_stopped() {
                self.end();
                return;
            }
            match self.turn() {
                Ok(()) => in_a_row = 0,
                Err(TurnError::Shortage) => self.rest(),
                Err(TurnError::Socket) => in_a_row = in_a_row.saturating_add(1),
            }
            if in_a_row >= PASSING_ERRORS {
                self.service.fail();
                return;
            }
        }
    }

    // Waits until something new is there, looks at the connections on which something happened, and takes new ones. Those that have
    // ended give their places up before.
    fn turn(&mut self) -> Result<(), TurnError> {
        let now = self.wait(self.longest_wait())?;
        self.attend_pending(now);
        let accepted = self.accept_some(now);
        self.close_surplus(now);
        self.hand_on(now);
        self.limit_outboxes();
        accepted
    }

    // Where the system is short of something, the connection that has waited longest is closed, and a short wait follows.
    fn rest(&mut self) {
        let oldest = self.table.oldest_idle();
        if let Some(index) = oldest.or(self.table.oldest_begun()) {
            self.close(index);
        }
        let _ = self.wait(Some(Duration::from_millis(SHORTAGE_MILLISECONDS)));
    }

    // How long it may wait for something new.
    fn longest_wait(&self) -> Option<Duration> {
        if self.listeners.any_waits() || self.table.pending.len() > 0 {
            Some(Duration::ZERO)
        } else if self.table.count() == 0 {
            None
        } else {
            Some(Duration::from_millis(LATE_MILLISECONDS))
        }
    }

    // Waits until something new is there, or for so long, and then sees which connections have to be looked at.
    fn wait(&mut self, timeout: Option<Duration>) -> Result<Instant, TurnError> {
        let sockets = &mut self.sockets;
        let polled = sockets.poll.poll(&mut sockets.events, timeout);
        let (Ok(()), Ok(now)) = (polled, Instant::now(&self.rt)) else {
            return Err(TurnError::Socket);
        };
        for event in self.sockets.events.iter() {
            match event.token() {
                WAKES => {}
                token if token.0 < FIRST => {
                    let listener = token.0.saturating_sub(FIRST_LISTENER);
                    self.listeners.set_waits(listener, true);
                }
                token => hear(&mut self.table, token, event),
            }
        }
        self.take_changed();
        self.look_at_all(now);
        Ok(now)
    }

    // Sees which connections workers have changed.
    fn take_changed(&mut self) {
        let empty = mem::replace(&mut self.changed, Vec::new(self.alloc));
        let mut changed = self.service.changes.take(&self.rt, empty);
        for place in changed.iter() {
            if let Some(connection) = self.table.get_mut(place.index)
                && connection.shared().place() == *place
            {
                self.table.pending.push(place.index);
            }
        }
        changed.clear();
        self.changed = changed;
    }

    // Looks at all connections from time to time: which have waited too long, and whether anything was missed.
    fn look_at_all(&mut self, now: Instant) {
        if self.next_look.is_some_and(|next| now < next) {
            return;
        }
        self.next_look = now.checked_add(Duration::from_millis(LATE_MILLISECONDS));
        for index in 0..self.table.len() {
            if self.table.has(index) {
                self.table.pending.push(index);
            }
        }
    }

    // Looks at the connections on which something has happened, each once.
    fn attend_pending(&mut self, now: Instant) {
        for _ in 0..self.table.pending.len() {
            let Some(index) = self.table.pending.take_first() else {
                return;
            };
            self.attend(index, now);
        }
    }

    /// Sends what one client takes, and sees to what it has sent.
    pub(crate) fn attend(&mut self, index: usize, now: Instant) {
        for _ in 0..TURN_MESSAGES {
            match self.step(index, now) {
                Next::Wait => break,
                Next::Again => {
                    self.table.pending.push(index);
                    break;
                }
                Next::Ready => {
                    self.table.ready.push(index);
                    break;
                }
                Next::Notify => {
                    self.pass_on(index, now);
                    self.table.pending.push(index);
                }
                Next::Close => {
                    self.close(index);
                    return;
                }
            }
        }
        self.table.sort(index, now);
    }

    // What has to be done next for a connection.
    fn step(&mut self, index: usize, now: Instant) -> Next {
        let may_gather = self.make_room(index);
        let Some(connection) = self.table.get_mut(index) else {
            return Next::Wait;
        };
        let before = connection.gathered();
        let next = connection.step(&self.rt, now, &mut self.scratch, may_gather);
        let after = connection.gathered();
        let is_late = connection.is_late(now);
        self.table.count_gathered(before, after);
        if is_late { Next::Close } else { next }
    }

    // Whether a connection may gather bytes. Where all have gathered as much as they may, and this one wants more, the one gives way that
    // has waited longest for the rest of a message.
    fn make_room(&mut self, index: usize) -> bool {
        if self.table.is_full()
            && self.table.wants_bytes(index)
            && let Some(oldest) = self.table.oldest_begun()
        {
            self.close(oldest);
        }
        !self.table.is_full()
    }

    // Passes a NOTIFY on to the thread that has the wires. It takes one of the turns, as each arrival does.
    fn pass_on(&mut self, index: usize, now: Instant) {
        let Some((peer, message)) = self.take_notify(index, now) else {
            self.close(index);
            return;
        };
        if !self.service.take_turn() {
            return;
        }
        let is_taken = match &self.notices {
            Some(notices) => notices.pass_on(&self.rt, peer, Transport::Tcp, message),
            None => false,
        };
        if !is_taken {
            self.service.drop_one();
        }
    }

    fn take_notify(&mut self, index: usize, now: Instant) -> Option<(Peer, Octets)> {
        let connection = self.table.get_mut(index)?;
        let before = connection.gathered();
        let message = connection.take_notify(now);
        let after = connection.gathered();
        let peer = connection.peer();
        self.table.count_gathered(before, after);
        match message {
            Ok(Some(message)) => Some((peer, Octets::from_vec(message))),
            _ => None,
        }
    }

    // Hands the connections with whole messages to the workers, as long as there is room in the queue.
    fn hand_on(&mut self, now: Instant) {
        for _ in 0..self.table.ready.len() {
            let Some(index) = self.table.ready.first() else {
                return;
            };
            if !self.offer(index, now) {
                return;
            }
            self.table.ready.remove(index);
            self.table.sort(index, now);
        }
    }

    // Puts the messages of a connection into the queue, where there is room in it, and says whether there was.
    fn offer(&mut self, index: usize, now: Instant) -> bool {
        let Some(connection) = self.table.get_mut(index) else {
            return true;
        };
        let before = connection.gathered();
        let Some((stretch, count)) = connection.take_stretch(self.rt) else {
            return true;
        };
        self.service.want_room(true);
        match self.queue.try_send(&self.rt, stretch) {
            Ok(()) => {
                self.service.want_room(false);
                connection.given_to_worker(count, now);
                let after = connection.gathered();
                self.table.count_gathered(before, after);
                true
            }
            Err(TrySendError::Full(stretch)) => {
                connection.put_stretch(stretch, count);
                false
            }
            Err(TrySendError::Disconnected(_) | TrySendError::OutOfMemory(_)) => false,
        }
    }

    // Closes the connections of which most bytes are to go out, while those of all are too many.
    fn limit_outboxes(&mut self) {
        for _ in 0..self.table.len() {
            if self.service.changes.outbox_bytes() <= OUTBOX_BYTES_ALL {
                return;
            }
            match self.table.fullest(&self.rt) {
                Some(index) => self.close(index),
                None => return,
            }
        }
    }

    /// Closes a connection.
    pub(crate) fn close(&mut self, index: usize) {
        if let Some(connection) = self.table.take(index) {
            self.service.peers.lock(&self.rt).remove(connection.peer());
            forget(self.sockets.poll.registry(), connection.shared());
            connection.shared().close(&self.rt);
            drop(connection);
        }
    }

    // The service has stopped. Replies may still go out for `STOP_MILLISECONDS`.
    fn end(&mut self) {
        self.notices = None;
        let Ok(start) = Instant::now(&self.rt) else {
            return;
        };
        let limit = Duration::from_millis(STOP_MILLISECONDS);
        for _ in 0..u64::MAX {
            let Ok(now) = Instant::now(&self.rt) else {
                return;
            };
            self.close_done(now);
            let left = limit.saturating_sub(now.saturating_duration_since(start));
            if self.table.count() == 0 || left.is_zero() {
                return;
            }
            let pause = left.min(Duration::from_millis(LATE_MILLISECONDS));
            if self.wait(Some(pause)).is_err() {
                return;
            }
        }
    }

    // Sends what clients take, and closes the connections of which nothing is to go out any more.
    fn close_done(&mut self, now: Instant) {
        for index in 0..self.table.len() {
            let is_done = match self.table.get_mut(index) {
                Some(connection) => connection.is_done(&self.rt, now, &mut self.scratch),
                None => false,
            };
            if is_done {
                self.close(index);
            }
        }
    }
}

// The system reports nothing more of a connection, whoever still has a part of it: the next one at its place has its token.
fn forget(registry: &Registry, connection: &SharedConnection) {
    let fd = connection.stream().as_raw_fd();
    let _ = registry.deregister(&mut SourceFd(&fd));
}

// The system has something for a connection.
fn hear(table: &mut ConnectionTable, token: Token, event: &Event) {
    let Some(index) = token.0.checked_sub(FIRST) else {
        return;
    };
    if let Some(connection) = table.get_mut(index) {
        if event.is_error() {
            connection.hear_of_failure();
        } else if event.is_readable() || event.is_read_closed() {
            connection.hear(event.is_read_closed());
        }
        table.pending.push(index);
    }
}

/// A service whose connections a thread has.
#[derive(Drop)]
pub struct ServedConnections {
    service: Arc<ServiceState>,
}

impl KeptJob for ServedConnections {
    fn has_ended(&self) -> bool {
        self.service.has_ended()
    }

    fn end(&self) {
        self.service.stop();
    }

    // Without the thread the service fails.
    fn fail(&self) {
        self.service.fail();
    }
}

impl<R: time::Clock + Wait + Copy + Drop> Job<ServedConnections> for Reception<R> {
    fn kept(&self) -> Result<Option<ServedConnections>, AllocError> {
        Ok(Some(ServedConnections {
            service: Arc::try_clone(&self.service)?,
        }))
    }

    // Serves until the service stops, or fails.
    fn run(self) {
        let mut reception = self;
        reception.serve();
        reception.service.end();
    }

    // Without the thread the service fails.
    fn refuse(self) {
        self.service.fail();
    }
}
