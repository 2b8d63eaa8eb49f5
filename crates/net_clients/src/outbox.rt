//! Replies that have not gone out.

ghost use Rattle.std.specs.Prelude.{◌≤◌, vec_len};

use crate::limits::OUTBOX_BYTES;
use server_io::SendError;
use std::alloc::{AllocError, Global};
use std::io;
use std::io::{IoSlice, Write};
use std::net::TcpStream;

/// Frames of a connection that the system has not taken yet, in order.
#[derive(Drop)]
pub(crate) struct Outbox {
    alloc: Global,
    bytes: Vec<u8>,
    // So many of them, in front, have gone out.
    gone: usize,
    // The socket has failed, or a part of a frame went out whose rest is lost.
    is_broken: bool,
    ghost within: { gone ≤ vec_len bytes },
}

impl Outbox {
    /// Nothing is kept.
    pub(crate) fn new(alloc: Global) -> Self {
        Outbox {
            alloc,
            bytes: Vec::new(alloc),
            gone: 0,
            is_broken: false,
        }
    }

    /// How many bytes are still to go out.
    pub(crate) fn len(&self) -> usize {
        self.bytes.len() - self.gone
    }

    /// Whether nothing can go out any more.
    pub(crate) fn is_broken(&self) -> bool {
        self.is_broken
    }

    /// Lets everything go that is still to go out. Nothing goes out any more.
    pub(crate) fn close(&mut self) {
        self.is_broken = true;
        self.clear();
    }

    fn clear(&mut self) {
        self.gone = 0;
        self.bytes = Vec::new(self.alloc);
    }

    /// Sends a message as a frame: what the socket takes at once, where nothing is to go out before it, and the rest later. It doesn't
    /// wait. `Failed` comes where the socket has failed, for a message of more than 65,535 bytes, and where more than `OUTBOX_BYTES`
    /// would be kept.
    pub(crate) fn put(&mut self, stream: &TcpStream, message: &[u8]) -> Result<(), SendError> {
        let Ok(size) = u16::try_from(message.len()) else {
            return Err(SendError::Failed);
        };
        let kept = self.len().saturating_add(message.len()).saturating_add(2);
        if self.is_broken || kept > OUTBOX_BYTES {
            return Err(SendError::Failed);
        }
        let length = size.to_be_bytes();
        let sent = if self.len() == 0 {
            self.send_frame(stream, &length, message)?
        } else {
            0
        };
        self.keep_rest(&length, message, sent)
    }

    // One call of the system, which takes some bytes of a frame. Says how many.
    fn send_frame(
        &mut self,
        stream: &TcpStream,
        length: &[u8; 2],
        message: &[u8],
    ) -> Result<usize, SendError> {
        let pieces = [IoSlice::new(length), IoSlice::new(message)];
        match taken(stream.write_vectored(&pieces)) {
            Ok(sent) => Ok(sent),
            Err(_) => {
                self.is_broken = true;
                Err(SendError::Failed)
            }
        }
    }

    // Keeps what is left of a frame of which so many bytes were sent.
    fn keep_rest(
        &mut self,
        length: &[u8; 2],
        message: &[u8],
        sent: usize,
    ) -> Result<(), SendError> {
        let of_length = sent.min(2);
        let of_message = (sent - of_length).min(message.len());
        if of_length == 2 && of_message == message.len() {
            return Ok(());
        }
        match self.keep(&length[of_length..], &message[of_message..]) {
            Ok(()) => Ok(()),
            Err(_) => {
                self.is_broken = sent > 0;
                Err(SendError::OutOfMemory)
            }
        }
    }

    // Lets the room go of what has gone out.
    fn close_up(&mut self) {
        if self.gone > 0 {
            self.bytes.copy_within(self.gone.., 0);
            self.bytes.truncate(self.bytes.len() - self.gone);
            self.gone = 0;
        }
    }

    // Keeps both pieces, or neither where there is no room for them.
    fn keep(&mut self, first: &[u8], second: &[u8]) -> Result<(), AllocError> {
        self.close_up();
        let before = self.bytes.len();
        self.bytes
            .reserve_exact(first.len().saturating_add(second.len()))?;
        self.bytes.extend_from_slice(first)?;
        let kept = self.bytes.extend_from_slice(second);
        if kept.is_err() {
            self.bytes.truncate(before);
        }
        kept
    }

    /// Sends what the socket takes at once, and says whether that is anything. It doesn't wait.
    pub(crate) fn flush(&mut self, mut stream: &TcpStream) -> bool {
        if self.len() == 0 || self.is_broken {
            return false;
        }
        match taken(stream.write(&self.bytes[self.gone..])) {
            Ok(sent) => {
                self.pass(sent);
                sent > 0
            }
            Err(_) => {
                self.is_broken = true;
                false
            }
        }
    }

    // So many bytes more have gone out.
    fn pass(&mut self, sent: usize) {
        if sent < self.bytes.len() - self.gone {
            self.gone += sent;
        } else {
            self.clear();
        }
    }
}

// How many bytes a call of the system took; none where it would wait, or a signal came.
fn taken(sent: io::Result<usize>) -> io::Result<usize> {
    match sent {
        Err(error) if error.kind() == io::ErrorKind::WouldBlock => Ok(0),
        Err(error) if error.kind() == io::ErrorKind::Interrupted => Ok(0),
        sent => sent,
    }
}
