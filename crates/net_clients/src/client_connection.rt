//! A connection of a client, as the thread has it that has all of them.

ghost use Rattle.std.specs.Prelude.{◌≡◌, ◌≤◌, IfOk, IfSome, length};

use crate::client_counts::Client;
use crate::client_phase::{Phase, Unanswered};
use crate::datagram::is_notify;
use crate::limits::{NEW_MILLISECONDS, TURN_MESSAGES, UNANSWERED_MESSAGES};
use crate::message_buffer::{Frames, MessageBuffer};
use crate::shared_connection::{ConnectionView, SharedConnection, StretchEnd};
use crate::stretch::Stretch;
use edge_io::CONNECTION_MESSAGES;
use server_io::Peer;
use std::alloc::{AllocError, Global};
use std::io;
use std::io::Read;
use std::net::TcpStream;
use std::sync::{Arc, Wait};
use std::time::{Duration, Instant};

/// What the thread has to do next for a connection.
#[derive(Clone, Copy)]
pub(crate) enum Next {
    /// Nothing, until something happens.
    Wait,
    /// To look at it again, once others had their turn.
    Again,
    /// To hand its messages to a worker.
    Ready,
    /// To pass on its first message, a NOTIFY.
    Notify,
    Close,
}

/// A connection of a client.
#[derive(Drop)]
pub(crate) struct ClientConnection {
    shared: Arc<SharedConnection>,
    client: Option<Client>,
    received: MessageBuffer,
    // Messages that wait for a worker.
    prepared: Option<Frames>,
    // How many messages are still taken.
    left: u32,
    unanswered: Unanswered,
    // Something may be there to be read.
    may_read: bool,
    // The client sends no more: the system said so, and it was read to its end.
    end_is_near: bool,
    has_ended: bool,
    // The connection is of no more use.
    has_failed: bool,
    is_with_worker: bool,
    // Replies wait for the client.
    is_writing: bool,
    // Nothing more is written, and what comes is of no use.
    is_lingering: bool,
    phase: Phase,
    since: Instant,
    opened: Instant,
}

impl ClientConnection {
    /// A connection that has come now.
    pub(crate) fn new(
        alloc: Global,
        shared: Arc<SharedConnection>,
        client: Option<Client>,
        now: Instant,
    ) -> Self {
        ClientConnection {
            shared,
            client,
            received: MessageBuffer::new(alloc),
            prepared: None,
            left: CONNECTION_MESSAGES,
            unanswered: Unanswered::new(),
            may_read: true,
            end_is_near: false,
            has_ended: false,
            has_failed: false,
            is_with_worker: false,
            is_writing: false,
            is_lingering: false,
            phase: Phase::Busy,
            since: now,
            opened: now,
        }
    }

    /// The part that workers have, too.
    pub(crate) fn shared(&self) -> &SharedConnection {
        &self.shared
    }

    /// The client, where its connections are counted.
    pub(crate) fn client(&self) -> Option<Client> {
        self.client
    }

    /// Who sent its messages.
    pub(crate) fn peer(&self) -> Peer {
        self.shared.peer()
    }

    /// How many bytes of memory its messages take.
    pub(crate) fn gathered(&self) -> usize {
        let prepared = match &self.prepared {
            Some(frames) => frames.bytes.capacity(),
            None => 0,
        };
        self.received.size().saturating_add(prepared)
    }

    /// The system says that something may be read, or that nothing comes behind that.
    pub(crate) fn hear(&mut self, is_end: bool) {
        self.may_read = true;
        self.end_is_near = self.end_is_near || is_end;
    }

    /// The system says that the connection has failed.
    pub(crate) fn hear_of_failure(&mut self) {
        self.has_failed = true;
    }

    /// Whether it would read bytes, where it may.
    pub(crate) fn wants_bytes(&self) -> bool {
        let has_message = self.prepared.is_some() || self.received.first().is_some();
        self.may_read && !has_message && !self.is_with_worker && !self.is_lingering
    }

    /// Sends what the client takes, reads some of what it has sent, where that is wanted, and says what has to be done next. It doesn't
    /// wait.
    pub(crate) fn step<R: Wait>(
        &mut self,
        rt: &R,
        now: Instant,
        scratch: &mut [u8],
        may_gather: bool,
    ) -> Next {
        if self.has_failed {
            return Next::Close;
        }
        if self.is_lingering {
            return self.discard(scratch);
        }
        let is_broken = self.look(rt, now);
        if is_broken || self.unanswered.is_silent() {
            return Next::Close;
        }
        if self.is_with_worker || self.is_writing {
            return Next::Wait;
        }
        self.go_on(scratch, may_gather)
    }

    // Sends what the client takes, and learns what workers did. Says whether nothing can go out any more.
    fn look<R: Wait>(&mut self, rt: &R, now: Instant) -> bool {
        let is_paused = self.unanswered.count() >= UNANSWERED_MESSAGES;
        let tells_replies = is_paused || self.has_ended || self.left == 0;
        let view = self.shared.look(rt, tells_replies);
        self.learn(view, now);
        view.is_broken
    }

    fn learn(&mut self, view: ConnectionView, now: Instant) {
        self.unanswered.learn(view.answered, now);
        self.is_writing = !view.is_empty;
        if view.has_moved {
            self.since = now;
        }
        if let Some(end) = view.given_back {
            self.is_with_worker = false;
            if end == StretchEnd::Closed {
                self.left = 0;
            }
        }
    }

    // What comes next of a connection that is with no worker, and of which nothing waits to go out.
    fn go_on(&mut self, scratch: &mut [u8], may_gather: bool) -> Next {
        if self.prepared.is_some() {
            return Next::Ready;
        }
        if self.left == 0 {
            return self.end();
        }
        if self.unanswered.count() >= UNANSWERED_MESSAGES {
            return Next::Wait;
        }
        if self.received.first().is_none() && self.may_read && may_gather {
            self.receive(scratch);
        }
        match self.received.first() {
            Some(message) if is_notify(message) => Next::Notify,
            Some(_) => self.prepare(),
            None if self.has_ended => self.end(),
            None if self.may_read && may_gather => Next::Again,
            None => Next::Wait,
        }
    }

    // Takes no more messages. Replies may still be to come.
    fn end(&mut self) -> Next {
        if self.unanswered.count() > 0 {
            return Next::Wait;
        }
        if self.has_ended {
            return Next::Close;
        }
        self.shared.end_writing();
        self.is_lingering = true;
        self.may_read = true;
        Next::Again
    }

    // Reads what comes behind the last reply, so that the client isn't told of an error before it has read that (RFC 1122, section
    // 4.2.2.13).
    fn discard(&mut self, scratch: &mut [u8]) -> Next {
        if !self.may_read {
            return Next::Wait;
        }
        match self.read_some(scratch) {
            Some(_) => Next::Again,
            None if self.has_ended => Next::Close,
            None => Next::Wait,
        }
    }

    // Reads once, as much as may be gathered.
    fn receive(&mut self, scratch: &mut [u8]) {
        let most = scratch.len().min(self.received.room());
        if let Some(n) = self.read_some(&mut scratch[..most])
            && self.received.append(&scratch[..n]).is_err()
        {
            self.has_ended = true;
        }
    }

    // Reads once. `None` says that nothing is there for now, or, with `has_ended`, that nothing more comes.
    fn read_some(&mut self, into: &mut [u8]) -> Option<usize>
        ensures within { IfSome result (λ n. n ≤ length into.new) }
        ensures same { length into.new ≡ length into.old }
    {
        match read(self.shared.stream(), into) {
            Ok(0) => {
                self.may_read = false;
                self.has_ended = true;
                None
            }
            Ok(n) => {
                // the system gives all that it has, so that this was all, unless the end is behind it
                self.may_read = n == into.len() || self.end_is_near;
                Some(n)
            }
            Err(error) if error.kind() == io::ErrorKind::WouldBlock => {
                self.may_read = false;
                None
            }
            Err(error) if error.kind() == io::ErrorKind::Interrupted => None,
            Err(_) => {
                self.may_read = false;
                self.has_ended = true;
                None
            }
        }
    }

    // Makes the whole messages in front ready for a worker.
    fn prepare(&mut self) -> Next {
        let unanswered = self.unanswered.count();
        let most = TURN_MESSAGES
            .min(self.left)
            .min(UNANSWERED_MESSAGES.saturating_sub(unanswered));
        match self.received.take_frames(most) {
            Ok(frames) => {
                self.prepared = Some(frames);
                Next::Ready
            }
            Err(_) => Next::Close,
        }
    }

    /// Takes the messages for a worker, where there are some.
    pub(crate) fn take_stretch<R: Wait + Drop>(&mut self, rt: R) -> Option<(Stretch<R>, u32)> {
        let shared = Arc::try_clone(&self.shared).ok()?;
        let Frames { bytes, count } = self.prepared.take()?;
        Some((Stretch::new(rt, shared, bytes), count))
    }

    /// Takes them back, where no worker could be given them.
    pub(crate) fn put_stretch<R: Wait + Drop>(&mut self, stretch: Stretch<R>, count: u32) {
        let bytes = stretch.into_frames();
        drop(self.prepared.replace(Frames { bytes, count }));
    }

    /// So many messages are with a worker.
    pub(crate) fn given_to_worker(&mut self, count: u32, now: Instant) {
        self.is_with_worker = true;
        self.give(count, now);
    }

    fn give(&mut self, count: u32, now: Instant) {
        self.left = self.left.saturating_sub(count);
        self.unanswered.give(count, now);
    }

    /// Takes the first message, a NOTIFY.
    pub(crate) fn take_notify(&mut self, now: Instant) -> Result<Option<Vec<u8>>, AllocError> {
        self.give(1, now);
        self.received.take_first()
    }

    /// Sends what the client takes, and says whether the connection may be closed where the service ends: nothing is to go out, and no
    /// message is with anybody. What has come by then is of no use.
    pub(crate) fn is_done<R: Wait>(&mut self, rt: &R, now: Instant, scratch: &mut [u8]) -> bool {
        self.left = 0;
        if self.look(rt, now) {
            return true;
        }
        if self.is_with_worker || self.is_writing || self.unanswered.count() > 0 {
            return false;
        }
        self.shared.end_writing();
        let _ = self.read_some(scratch);
        true
    }

    /// What it waits for from now on, where that is something else than before.
    pub(crate) fn new_phase(&mut self, now: Instant) -> Option<Phase> {
        let phase = self.current_phase();
        if phase == self.phase {
            return None;
        }
        self.phase = phase;
        self.since = now;
        Some(phase)
    }

    fn current_phase(&self) -> Phase {
        let unanswered = self.unanswered.count();
        if self.is_lingering {
            Phase::Lingering
        } else if self.is_writing {
            Phase::Writing
        } else if self.is_with_worker || self.prepared.is_some() {
            Phase::Busy
        } else if unanswered >= UNANSWERED_MESSAGES || self.has_ended || self.left == 0 {
            Phase::Unanswered
        } else if !self.received.is_empty() {
            Phase::Begun
        } else if unanswered > 0 {
            Phase::Unanswered
        } else {
            Phase::Idle
        }
    }

    /// Whether it was opened just now, so that its first query may be on its way.
    pub(crate) fn is_new(&self, now: Instant) -> bool {
        now.saturating_duration_since(self.opened) < Duration::from_millis(NEW_MILLISECONDS)
    }

    /// Whether it has waited too long.
    pub(crate) fn is_late(&self, now: Instant) -> bool {
        match self.phase.limit() {
            Some(limit) => now.saturating_duration_since(self.since) >= limit,
            None => false,
        }
    }
}

// One call of the socket.
fn read(mut stream: &TcpStream, into: &mut [u8]) -> io::Result<usize>
    ensures within { IfOk result (λ n. n ≤ length into.new) }
    ensures same { length into.new ≡ length into.old }
{
    stream.read(into)
}
