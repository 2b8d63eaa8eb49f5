//! The writing side of a connection of a client.

ghost use Rattle.std.specs.Prelude.{◌≡◌, ◌≤◌, None, IfOk, length};

use crate::shared_connection::SharedConnection;
use edge_io::{Sink, SinkError};
use net_base::FrameGauge;
use server_io::SendError;
use std::alloc::Global;
use std::sync::{Arc, Wait};

/// The writing side of a connection of a client. It doesn't tell its bytes. The call that is given the last byte of a frame sends the
/// frame, and no write waits: what the socket doesn't take is sent later by the thread that has the connections.
///
/// A write fails where the connection is closed, and where more than `OUTBOX_BYTES` would wait for the client, or more than twice
/// `OUTBOX_BYTES_ALL` wait for all.
#[derive(Drop)]
pub struct ClientSink<R: Wait + Drop> {
    writing: Writing<R>,
    faults: u64,
}

// All of it but the count of faults.
#[derive(Drop)]
struct Writing<R: Wait + Drop> {
    rt: R,
    connection: Arc<SharedConnection>,
    gauge: FrameGauge,
    // The part of a message that was given, where that isn't all of it.
    message: Vec<u8>,
}

impl<R: Wait + Drop> ClientSink<R> {
    /// Writes to this connection. No write has failed yet.
    pub(crate) fn new(rt: R, alloc: Global, connection: Arc<SharedConnection>) -> Self
        ensures no_fault { ⟦<ClientSink<R> as Sink>⟧.faults result ≡ 0 }
    {
        let writing = Writing {
            rt,
            connection,
            gauge: FrameGauge::new(),
            message: Vec::new(alloc),
        };
        ClientSink { writing, faults: 0 }
    }
}

impl<R: Wait + Drop> Writing<R> {
    // Takes some of a piece, all of it within one length or one message.
    fn take(&mut self, piece: &[u8]) -> Result<usize, SinkError>
        ensures within { IfOk result (λ n. n ≤ length piece.now) }
    {
        let part = &piece[..piece.len().min(self.gauge.part())];
        let in_message = self.gauge.is_in_message();
        self.gauge.pass(part);
        if self.gauge.is_between_frames() {
            self.end_frame(if in_message { part } else { &[] })?;
        } else if in_message && self.message.extend_from_slice(part).is_err() {
            return Err(SinkError::OutOfMemory);
        }
        Ok(part.len())
    }

    // Sends the message whose last part this is.
    fn end_frame(&mut self, part: &[u8]) -> Result<(), SinkError> {
        if self.message.is_empty() {
            return sent(self.connection.put(&self.rt, part));
        }
        if self.message.extend_from_slice(part).is_err() {
            return Err(SinkError::OutOfMemory);
        }
        let result = sent(self.connection.put(&self.rt, self.message.as_slice()));
        self.message.clear();
        result
    }
}

fn sent(put: Result<(), SendError>) -> Result<(), SinkError> {
    match put {
        Ok(()) => Ok(()),
        Err(SendError::OutOfMemory) => Err(SinkError::OutOfMemory),
        Err(SendError::Failed) => Err(SinkError::WriteFault),
    }
}

impl<R: Wait + Drop> Sink for ClientSink<R> {
    ghost held = { λ _. None };

    ghost faults = { λ s. s.faults };

    ghost steady = { λ _. ⊥ };

    fn write(&mut self, piece: &[u8]) -> Result<usize, SinkError> {
        match self.writing.take(piece) {
            Ok(n) if n > 0 => Ok(n),
            Err(SinkError::OutOfMemory) => Err(SinkError::OutOfMemory),
            _ => {
                self.faults = self.faults.saturating_add(1);
                Err(SinkError::WriteFault)
            }
        }
    }
}
