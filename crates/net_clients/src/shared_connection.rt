//! What workers and the thread that has the connections share of one.

use crate::connection_changes::{ConnectionChanges, ConnectionPlace};
use crate::limits::OUTBOX_BYTES_ALL;
use crate::outbox::Outbox;
use server_io::{Peer, SendError};
use std::alloc::Global;
use std::net::{Shutdown, TcpStream};
use std::sync::{Arc, Mutex, Wait};

/// How a worker has given a connection back.
#[derive(Clone, Copy, PartialEq, Eq)]
pub(crate) enum StretchEnd {
    /// It has read all messages that it was given.
    AllRead,
    /// It takes no more messages of this connection.
    Closed,
}

// What is under the lock.
#[derive(Drop)]
struct State {
    outbox: Outbox,
    // How many replies were put into the outbox.
    answered: u64,
    // The thread was told of a change, and has not looked since.
    is_told: bool,
    // The thread is to be told of replies.
    tells_replies: bool,
    given_back: Option<StretchEnd>,
}

/// What the thread that has the connections sees of one.
#[derive(Clone, Copy)]
pub(crate) struct ConnectionView {
    /// Nothing is to go out.
    pub(crate) is_empty: bool,
    /// Nothing can go out any more.
    pub(crate) is_broken: bool,
    /// Something has gone out just now.
    pub(crate) has_moved: bool,
    /// How many replies there were.
    pub(crate) answered: u64,
    /// A worker has given it back since.
    pub(crate) given_back: Option<StretchEnd>,
}

/// A connection of a client, as workers and the thread that has the connections share it. The lock is held for one call of the socket
/// at most, which doesn't wait.
#[derive(Drop)]
pub(crate) struct SharedConnection {
    stream: TcpStream,
    peer: Peer,
    place: ConnectionPlace,
    changes: Arc<ConnectionChanges>,
    state: Mutex<State>,
}

impl SharedConnection {
    /// A new connection of this peer, whose socket doesn't wait.
    pub(crate) fn new(
        alloc: Global,
        stream: TcpStream,
        peer: Peer,
        place: ConnectionPlace,
        changes: Arc<ConnectionChanges>,
    ) -> Self {
        let state = State {
            outbox: Outbox::new(alloc),
            answered: 0,
            is_told: false,
            tells_replies: false,
            given_back: None,
        };
        SharedConnection {
            stream,
            peer,
            place,
            changes,
            state: Mutex::new(state),
        }
    }

    /// The socket.
    pub(crate) fn stream(&self) -> &TcpStream {
        &self.stream
    }

    /// The client.
    pub(crate) fn peer(&self) -> Peer {
        self.peer
    }

    /// Which connection it is.
    pub(crate) fn place(&self) -> ConnectionPlace {
        self.place
    }

    /// Sends a reply. It doesn't wait. `Failed` comes where the connection is closed or too much is to go out already, on this
    /// connection or on all.
    pub(crate) fn put<R: Wait>(&self, rt: &R, message: &[u8]) -> Result<(), SendError> {
        let most = OUTBOX_BYTES_ALL.saturating_mul(2);
        if self.changes.outbox_bytes() > most {
            return Err(SendError::Failed);
        }
        let (result, tells) = self.put_locked(rt, message);
        if tells {
            self.changes.tell(rt, self.place);
        }
        result
    }

    // Puts it in, and says whether the thread has to be told.
    fn put_locked<R: Wait>(&self, rt: &R, message: &[u8]) -> (Result<(), SendError>, bool) {
        let mut guard = self.state.lock(rt);
        let state = &mut *guard;
        let before = state.outbox.len();
        let result = state.outbox.put(&self.stream, message);
        self.changes.count(before, state.outbox.len());
        if result.is_ok() {
            state.answered = state.answered.saturating_add(1);
        }
        (result, state.tells())
    }

    /// A worker gives the connection back.
    pub(crate) fn give_back<R: Wait>(&self, rt: &R, end: StretchEnd) {
        if self.set_given_back(rt, end) {
            self.changes.tell(rt, self.place);
        }
    }

    // Says whether the thread has to be told.
    fn set_given_back<R: Wait>(&self, rt: &R, end: StretchEnd) -> bool {
        let mut guard = self.state.lock(rt);
        let state = &mut *guard;
        state.given_back = Some(end);
        state.tells()
    }

    /// Sends what the socket takes, and says how the connection is. From now on the thread is told of each reply, or only of those that
    /// don't go out at once.
    pub(crate) fn look<R: Wait>(&self, rt: &R, tells_replies: bool) -> ConnectionView {
        let mut guard = self.state.lock(rt);
        let state = &mut *guard;
        let before = state.outbox.len();
        let has_moved = state.outbox.flush(&self.stream);
        self.changes.count(before, state.outbox.len());
        state.is_told = false;
        state.tells_replies = tells_replies;
        ConnectionView {
            is_empty: state.outbox.len() == 0,
            is_broken: state.outbox.is_broken(),
            has_moved,
            answered: state.answered,
            given_back: state.given_back.take(),
        }
    }

    /// How many bytes are to go out.
    pub(crate) fn outbox_len<R: Wait>(&self, rt: &R) -> usize {
        self.state.lock(rt).outbox.len()
    }

    /// Says to the client that nothing more comes. It may still send.
    pub(crate) fn end_writing(&self) {
        let _ = self.stream.shutdown(Shutdown::Write);
    }

    /// Closes the connection, whoever still has a part of it.
    pub(crate) fn close<R: Wait>(&self, rt: &R) {
        let mut guard = self.state.lock(rt);
        let state = &mut *guard;
        self.changes.count(state.outbox.len(), 0);
        state.outbox.close();
        let _ = self.stream.shutdown(Shutdown::Both);
    }
}

impl State {
    // Whether the thread has to be told of what has changed just now.
    fn tells(&mut self) -> bool {
        let is_new = self.tells_replies
            || self.outbox.len() > 0
            || self.outbox.is_broken()
            || self.given_back.is_some();
        let tells = is_new && !self.is_told;
        self.is_told = self.is_told || tells;
        tells
    }
}
