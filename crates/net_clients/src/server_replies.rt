//! Replies to clients, and the end of their connections.

ghost use Rattle.std.specs.Prelude.{◌≡◌, None};

use crate::client_sink::ClientSink;
use crate::client_source::ClientSource;
use crate::service_state::ServiceState;
use ip_prefix::Transport;
use server_io::{Peer, Replies, SendError, StreamEnd};
use std::sync::{Arc, Wait};
use std::time;

/// Sends replies over the UDP socket of the endpoint that a client sent to and the connections of clients, and gives these back once
/// their messages were read. It doesn't tell what it sends.
///
/// No reply waits. Over UDP each error of the socket is a fault, and so is a full send buffer, at which the reply is lost, as UDP may
/// lose it. Over TCP it goes out as a frame on the connection of the peer, and what the client doesn't take at once goes out later. It
/// is a fault where the peer has no connection, and where too much waits for it already. A connection that is closed with `End` goes
/// on, and one that is closed otherwise ends once its replies have gone out.
#[derive(Drop)]
pub struct ServerReplies<R: time::Clock + Wait + Drop> {
    rt: R,
    service: Arc<ServiceState>,
    /// How many replies were not sent. It never falls, and stands still at 2^64 - 1.
    pub faults: u64,
}

impl<R: time::Clock + Wait + Drop> ServerReplies<R> {
    // Sends from this service. No send has failed yet.
    pub(crate) fn new(rt: R, service: Arc<ServiceState>) -> Self
        ensures no_fault { result.faults ≡ 0 }
    {
        ServerReplies {
            rt,
            service,
            faults: 0,
        }
    }
}

impl<R: time::Clock + Wait + Drop> Replies<ClientSource<R>, ClientSink<R>> for ServerReplies<R> {
    ghost sent = { λ _. None };

    ghost closings = { λ _. None };

    ghost faults = { λ r. r.faults };

    fn send(&mut self, peer: Peer, transport: Transport, bytes: &[u8]) -> Result<(), SendError> {
        match self.service.send(&self.rt, peer, transport, bytes) {
            Err(SendError::Failed) => {
                self.faults = self.faults.saturating_add(1);
                Err(SendError::Failed)
            }
            sent => sent,
        }
    }

    fn close(&mut self, source: ClientSource<R>, sink: ClientSink<R>, end: StreamEnd) {
        drop(sink);
        source.end(end == StreamEnd::End);
    }
}
