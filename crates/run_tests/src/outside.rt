//! Replies of a server that come back over a channel.

ghost use Rattle.std.specs.Prelude.{◌≡◌, None};

use crossbeam_channel::Sender;
use dns_name::Octets;
use edge_io::{ListSink, ListSource};
use ip_prefix::Transport;
use server_io::{Peer, Replies, SendError, StreamEnd};
use std::alloc::{AllocError, Global};
use std::sync::Wait;

/// Replies that a channel takes, and what was written on connections.
#[derive(Drop)]
pub struct Posts<R: Wait + Drop> {
    pub rt: R,
    pub alloc: Global,
    pub sender: Sender<Octets>,
    pub faults: u64,
}

impl<R: Wait + Drop> Replies<ListSource, ListSink> for Posts<R> {
    ghost sent = { λ _. None };

    ghost closings = { λ _. None };

    ghost faults = { λ r. r.faults };

    fn send(&mut self, _peer: Peer, _transport: Transport, bytes: &[u8]) -> Result<(), SendError> {
        if self.post(bytes)? {
            return Ok(());
        }
        self.faults = self.faults.saturating_add(1);
        Err(SendError::Failed)
    }

    fn close(&mut self, _source: ListSource, sink: ListSink, _end: StreamEnd) {
        let _ = self.post(&sink.bytes);
    }
}

impl<R: Wait + Drop> Posts<R> {
    // Posts these bytes, and says whether somebody takes them.
    fn post(&mut self, bytes: &[u8]) -> Result<bool, AllocError>
        ensures { self.new.faults ≡ self.old.faults }
    {
        let reply = Octets::from_slice(self.alloc, bytes)?;
        Ok(self.sender.send(&self.rt, reply).is_ok())
    }
}
