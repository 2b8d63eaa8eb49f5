// Where replies go, and a place for them in memory.
ghost use Rattle.std.specs.Prelude.{◌≡◌, ◌≤◌, ℕ, List, [], Option, Some, None, Err};
ghost use Rattle.std.specs.Option.{option_map};
ghost use Rattle.edge_io.specs.Edge.{Rose};
ghost use Rattle.edge_io.specs.Told.{more_if_ok};
ghost use Rattle.server_io.specs.Told.{PlainReply, Closings, closed_more};
ghost use Rattle.server_io.specs.declared.replies.SendError.TheVariants.{OutOfMemory};

use crate::Peer;
use dns_name::Octets;
use edge_io::{Schedule, Sink, Source};
use ip_prefix::Transport;
use std::alloc::{AllocError, AllocFailed, Global};
use std::marker::Model;

/// How a connection ended.
#[derive(Clone, Copy, Debug, PartialEq, Eq)]
pub enum StreamEnd {
    /// It ended between two messages.
    End,
    /// It had as many messages as a connection may have.
    Limit,
    /// It ended inside a message.
    Cut,
    /// A read has failed.
    ReadFault,
    /// A write has failed.
    WriteFault,
    OutOfMemory,
}

/// Why a reply was not sent.
#[derive(Clone, Copy, Debug, PartialEq, Eq)]
pub enum SendError {
    /// There was no room for it. That is no fault: the count of faults stands still.
    OutOfMemory,
    /// A fault of sending. The count of faults has risen in this call.
    Failed,
}

impl From<AllocError> for SendError {
    ghost from_gives = { λ _ e. e ≡ OutOfMemory };

    fn from(_: AllocError) -> Self {
        SendError::OutOfMemory
    }
}

impl<T: Drop> From<AllocFailed<T>> for SendError {
    ghost from_gives = { λ _ e. e ≡ OutOfMemory };

    fn from(_: AllocFailed<T>) -> Self {
        SendError::OutOfMemory
    }
}

/// Where replies go, and where connections are closed.
///
/// Of those in memory contracts know what was sent and which connection was closed last, and not of those over sockets.
pub trait Replies<S: Source, K: Sink> {
    /// The replies that were sent, in order, where they are known. One that was not sent is not among them.
    ghost sent: { Self → Option (List PlainReply) };

    /// How many connections were closed, and the last of them, where it is known.
    ghost closings: { Self → Option (Closings S K) };

    /// How often a send has failed. It never falls, and stands still at 2^64 - 1.
    ghost faults: { Self → ℕ };

    /// Sends a reply from the endpoint that its peer sent to: as one datagram, or over TCP as a frame on the connection of this peer.
    fn send(&mut self, peer: Peer, transport: Transport, bytes: &[u8]) -> Result<(), SendError>
        ensures sent { sent self.new ≡
            more_if_ok (sent self.old) result
            (record { peer = peer; transport = transport; bytes = bytes.now }) }
        ensures closings { closings self.new ≡ closings self.old }
        ensures count { faults self.old ≤ faults self.new }
        ensures failed { result ≡ Err SendError.Failed → Rose (faults self.old) (faults self.new) }
        ensures no_room { result ≡ Err SendError.OutOfMemory → faults self.new ≡ faults self.old };

    /// Closes a connection that has ended. It never fails.
    fn close(&mut self, source: S, sink: K, end: StreamEnd)
        ensures sent { sent self.new ≡ sent self.old }
        ensures closings { closings self.new ≡
            closed_more (closings self.old) (record { source = source; sink = sink; why = end }) }
        ensures count { faults self.new ≡ faults self.old };
}

/// A reply that was sent. Contracts see its peer, its transport and its bytes.
#[derive(Drop)]
pub struct SentReply {
    pub peer: Peer,
    pub transport: Transport,
    pub bytes: Octets,
}

impl Model for SentReply {
    ghost Value = { PlainReply };

    ghost view = { λ r. record { peer = r.peer; transport = r.transport; bytes = r.bytes } };
}

impl SentReply {
    pub(crate) fn new(peer: Peer, transport: Transport, bytes: Octets) -> Self
        ensures peer { result.peer ≡ peer }
        ensures transport { result.transport ≡ transport }
        ensures bytes { result.bytes ≡ bytes }
    {
        SentReply {
            peer,
            transport,
            bytes,
        }
    }
}

/// Replies in memory: it keeps what is sent, counts the connections that are closed, at most 2^64 - 1, and keeps the
/// last of them. A send fails where it is told to; one that finds no memory is no fault.
#[derive(Drop)]
pub struct ListReplies<S: Source + Drop, K: Sink + Drop> {
    alloc: Global,
    /// What was sent, in order.
    pub sent: Vec<SentReply>,
    /// How many connections were closed.
    pub closed: u64,
    /// The connection that was closed last, and how it ended.
    pub last: Option<(S, K, StreamEnd)>,
    schedule: Schedule,
}

impl<S: Source + Drop, K: Sink + Drop> ListReplies<S, K> {
    /// Nothing is sent yet. The sends of the numbers in `failing` fail, and the first send is send 0.
    pub fn new(alloc: Global, failing: Vec<u64>) -> Self
        ensures sent { ⟦<ListReplies<S, K> as Replies<S, K>>⟧.sent result ≡ Some [] }
        ensures closings { ⟦<ListReplies<S, K> as Replies<S, K>>⟧.closings result ≡
            Some (record { count = 0; last = None }) }
        ensures no_fault { ⟦<ListReplies<S, K> as Replies<S, K>>⟧.faults result ≡ 0 }
    {
        ListReplies {
            alloc,
            sent: Vec::new(alloc),
            closed: 0,
            last: None,
            schedule: Schedule::new(failing),
        }
    }
}

impl<S: Source + Drop, K: Sink + Drop> Replies<S, K> for ListReplies<S, K> {
    ghost sent = { λ r. Some r.sent.items };

    ghost closings = { λ r. Some (record {
      count = r.closed;
      last = option_map (λ e. record { source = e.0; sink = e.1; why = e.2 }) r.last;
    }) };

    ghost faults = { λ r. r.schedule.faults };

    fn send(&mut self, peer: Peer, transport: Transport, bytes: &[u8]) -> Result<(), SendError> {
        if self.schedule.fails_now() {
            return Err(SendError::Failed);
        }
        let bytes = Octets::from_slice(self.alloc, bytes)?;
        self.sent.push(SentReply::new(peer, transport, bytes))?;
        Ok(())
    }

    fn close(&mut self, source: S, sink: K, end: StreamEnd) {
        self.closed = self.closed.saturating_add(1);
        self.last = Some((source, sink, end));
    }
}
