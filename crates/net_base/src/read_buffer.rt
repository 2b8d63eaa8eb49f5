//! Bytes that were received and not yet read.

ghost use Rattle.std.specs.Prelude.{◌≤◌, length, vec_len};

use std::alloc::{AllocError, Global};
use std::io;
use std::io::Read;
use std::net::TcpStream;

/// Bytes that were received and not yet read.
#[derive(Drop)]
pub struct ReadBuffer {
    bytes: Vec<u8>,
    // Those from here on, and before there, are to be read.
    start: usize,
    end: usize,
    ghost in_order: { start ≤ end },
    ghost within: { end ≤ vec_len bytes },
}

impl ReadBuffer {
    /// Room for so many bytes.
    pub fn new(alloc: Global, capacity: usize) -> Result<Self, AllocError> {
        Ok(ReadBuffer {
            bytes: vec![in alloc; 0; capacity]?,
            start: 0,
            end: 0,
        })
    }

    /// Whether all bytes were read.
    pub fn is_empty(&self) -> bool {
        self.start == self.end
    }

    /// Receives what the stream has, at most as much as there is room for. What was not yet read is lost. At the end of the stream
    /// the buffer stays empty.
    pub fn receive(&mut self, mut stream: &TcpStream) -> io::Result<()> {
        self.start = 0;
        self.end = 0;
        self.end = stream.read(&mut self.bytes)?;
        Ok(())
    }

    /// Reads into the front of `into`, and says how many bytes.
    pub fn take(&mut self, into: &mut [u8]) -> usize
        ensures { result ≤ length into.new }
    {
        let n = into.len().min(self.end - self.start);
        into[..n].copy_from_slice(&self.bytes[self.start..self.start + n]);
        self.start += n;
        n
    }
}
