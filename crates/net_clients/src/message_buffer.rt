//! Bytes of a connection of a client that no worker has yet.

use crate::datagram::is_notify;
use edge_io::FRAME_MAX;
use std::alloc::{AllocError, Global};
use std::mem;

// The bytes of a length (RFC 1035, section 4.2.2).
const LENGTH: usize = 2;

/// Bytes that came from a client, at most as many as the longest frame has. There is room for those that came, and mostly for no more
/// than as many again.
#[derive(Drop)]
pub(crate) struct MessageBuffer {
    alloc: Global,
    bytes: Vec<u8>,
}

/// Whole frames.
#[derive(Drop)]
pub(crate) struct Frames {
    pub(crate) bytes: Vec<u8>,
    pub(crate) count: u32,
}

impl MessageBuffer {
    /// No byte has come.
    pub(crate) fn new(alloc: Global) -> Self {
        MessageBuffer {
            alloc,
            bytes: Vec::new(alloc),
        }
    }

    /// Whether there is none.
    pub(crate) fn is_empty(&self) -> bool {
        self.bytes.is_empty()
    }

    /// How many bytes of memory it has.
    pub(crate) fn size(&self) -> usize {
        self.bytes.capacity()
    }

    /// How many more bytes may come.
    pub(crate) fn room(&self) -> usize {
        (FRAME_MAX + LENGTH).saturating_sub(self.bytes.len())
    }

    /// Adds bytes that came.
    pub(crate) fn append(&mut self, more: &[u8]) -> Result<(), AllocError> {
        self.bytes.extend_from_slice(more)
    }

    /// The first message, where it is there whole.
    pub(crate) fn first(&self) -> Option<&[u8]> {
        match self.bytes.as_slice() {
            [high, low, rest @ ..] => rest.get(..message_len(*high, *low)),
            _ => None,
        }
    }

    /// Takes the whole frames in front, at most so many, and none from the first on whose message is a NOTIFY.
    pub(crate) fn take_frames(&mut self, most: u32) -> Result<Frames, AllocError> {
        let mut end = 0;
        let mut count = 0u32;
        for _ in 0..most {
            match query_len(self.bytes.get(end..)) {
                Some(len) => end = len.saturating_add(end),
                None => break,
            }
            count = count.saturating_add(1);
        }
        let bytes = self.take(end)?;
        Ok(Frames { bytes, count })
    }

    /// Takes the first message, where it is there whole.
    pub(crate) fn take_first(&mut self) -> Result<Option<Vec<u8>>, AllocError> {
        let Some(message) = self.first() else {
            return Ok(None);
        };
        let taken = Vec::from_slice(self.alloc, message)?;
        let len = taken.len().saturating_add(LENGTH);
        self.pass(len);
        Ok(Some(taken))
    }

    // Takes so many bytes in front.
    fn take(&mut self, len: usize) -> Result<Vec<u8>, AllocError> {
        if len >= self.bytes.len() {
            return Ok(mem::replace(&mut self.bytes, Vec::new(self.alloc)));
        }
        let taken = Vec::from_slice(self.alloc, &self.bytes[..len])?;
        self.pass(len);
        Ok(taken)
    }

    // Goes over so many bytes in front. The memory of the last one is given up.
    fn pass(&mut self, len: usize) {
        if len >= self.bytes.len() {
            self.bytes = Vec::new(self.alloc);
            return;
        }
        self.bytes.copy_within(len.., 0);
        self.bytes.truncate(self.bytes.len() - len);
    }
}

fn message_len(high: u8, low: u8) -> usize {
    usize::from(high) * 256 + usize::from(low)
}

// The length of the frame in front, where it is there whole and its message is no NOTIFY.
fn query_len(bytes: Option<&[u8]>) -> Option<usize> {
    let [high, low, rest @ ..] = bytes? else {
        return None;
    };
    let message = rest.get(..message_len(*high, *low))?;
    if is_notify(message) {
        return None;
    }
    Some(message.len().saturating_add(LENGTH))
}
