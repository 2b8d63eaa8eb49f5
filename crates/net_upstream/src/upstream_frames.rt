//! The messages that come on a connection to the upstream.

ghost use Rattle.std.specs.Prelude.{◌≤◌, length, vec_len};

use crate::limits::UPSTREAM_BUFFER;
use edge_io::FRAME_MAX;
use std::alloc::{AllocError, Global};
use std::io;
use std::io::Read;
use std::net::TcpStream;

// The bytes of the longest frame: the length of a message, and the message (RFC 1035, section 4.2.2).
const LONGEST: usize = FRAME_MAX + 2;

/// Bytes of frames that were received and not yet taken. The room for them grows with a frame that is longer, up to the longest one.
#[derive(Drop)]
pub(crate) struct UpstreamFrames {
    bytes: Vec<u8>,
    // Those from here on, and before there, are to be taken.
    start: usize,
    end: usize,
    ghost in_order: { start ≤ end },
    ghost within: { end ≤ vec_len bytes },
}

impl UpstreamFrames {
    /// Nothing was received.
    pub(crate) fn new(alloc: Global) -> Result<Self, AllocError> {
        Ok(UpstreamFrames {
            bytes: vec![in alloc; 0; UPSTREAM_BUFFER]?,
            start: 0,
            end: 0,
        })
    }

    // Moves what was not yet taken to the front, and makes room behind it where there is none.
    fn make_room(&mut self) -> io::Result<()> {
        self.bytes.copy_within(self.start..self.end, 0);
        self.end -= self.start;
        self.start = 0;
        if self.end < self.bytes.len() {
            return Ok(());
        }
        let more = self.bytes.len().saturating_mul(2).min(LONGEST);
        if more > self.bytes.len() && self.bytes.resize(more, 0).is_err() {
            return Err(io::Error::from(io::ErrorKind::OutOfMemory));
        }
        Ok(())
    }

    /// Receives what the stream has, at most as much as there is room for, and says how many bytes: 0 at its end. It waits as long as
    /// the stream does.
    pub(crate) fn receive(&mut self, mut stream: &TcpStream) -> io::Result<usize> {
        self.make_room()?;
        let received = stream.read(&mut self.bytes[self.end..])?;
        self.end += received;
        Ok(received)
    }

    /// The message of the frame in front, where that has come whole.
    pub(crate) fn message(&self) -> Option<&[u8]> {
        match &self.bytes[self.start..self.end] {
            [high, low, rest @ ..] => rest.get(..message_len(*high, *low)),
            _ => None,
        }
    }

    /// Drops the frame in front, where it has come whole.
    pub(crate) fn pass(&mut self) {
        if let Some(message) = self.message() {
            let next = self.start.saturating_add(message.len()).saturating_add(2);
            self.start = next.min(self.end);
        }
    }
}

fn message_len(high: u8, low: u8) -> usize {
    usize::from(high) * 256 + usize::from(low)
}
