//! The writing side of a connection.

ghost use Rattle.std.specs.Prelude.{◌≡◌, ◌≤◌, None, length, IfOk};

use crate::frame_gauge::FrameGauge;
use crate::time_limit::TimeLimit;
use edge_io::{Sink, SinkError};
use std::alloc::{AllocError, Global};
use std::io::IoSlice;
use std::net::TcpStream;
use std::sync::Arc;
use std::{io, time};

/// The writing side of a TCP connection to a server. It doesn't tell its bytes. It holds back the length of a frame and sends it with the message
/// that follows, so that a frame mostly costs one system call and no packet of two bytes. The call that is given the last byte of a
/// frame has sent all of it.
///
/// Each error of the socket is a fault, and so is a wait that runs into a limit. A primary server may take
/// `TRANSFER_IDLE_SECONDS` for each write, and the upstream the time of the exchange.
#[derive(Drop)]
pub struct TcpSink<R: time::Clock + Drop> {
    // In a place of its own, as the reading side has it.
    writing: Box<Writing<R>>,
    faults: u64,
}

// All of it but the count of faults.
#[derive(Drop)]
struct Writing<R: time::Clock + Drop> {
    rt: R,
    stream: Arc<TcpStream>,
    gauge: FrameGauge,
    // The bytes of a length that have not gone out, so many, stand in front.
    length: [u8; 2],
    held_back: usize,
    time: TimeLimit,
    ghost within: { held_back ≤ 2 },
}

impl<R: time::Clock + Drop> TcpSink<R> {
    // Writes to a server over a socket whose writes wait as the limit says.
    pub fn new(
        rt: R,
        alloc: Global,
        stream: Arc<TcpStream>,
        time: TimeLimit,
    ) -> Result<Self, AllocError>
        ensures no_fault { IfOk result (λ s. ⟦<TcpSink<R> as Sink>⟧.faults s ≡ 0) }
    {
        let writing = Writing {
            rt,
            stream,
            gauge: FrameGauge::new(),
            length: [0; 2],
            held_back: 0,
            time,
        };
        Ok(TcpSink {
            writing: Box::new(alloc, writing)?,
            faults: 0,
        })
    }
}

impl<R: time::Clock + Drop> Writing<R> {
    // Takes some of a piece, all of it within one length or one message.
    fn take(&mut self, piece: &[u8]) -> io::Result<usize>
        ensures within { IfOk result (λ n. n ≤ length piece.now) }
    {
        let part = &piece[..piece.len().min(self.gauge.part())];
        let taken = if self.gauge.is_in_message() {
            self.send(part)?
        } else {
            self.hold_back(part);
            part.len()
        };
        self.gauge.pass(&part[..taken]);
        if self.gauge.is_between_frames() {
            self.end_frame()?;
        }
        Ok(taken)
    }

    fn hold_back(&mut self, part: &[u8]) {
        match part {
            [high, low, ..] => {
                self.length = [*high, *low];
                self.held_back = 2;
            }
            [high] if self.held_back == 0 => {
                self.length[0] = *high;
                self.held_back = 1;
            }
            [low] => {
                self.length[1] = *low;
                self.held_back = 2;
            }
            [] => {}
        }
    }

    // Sends what is still held back, which is the length of a message of no bytes.
    fn end_frame(&mut self) -> io::Result<()> {
        if self.held_back > 0 {
            self.send(&[])?;
        }
        Ok(())
    }

    // Sends all that is held back, and some of the part, where that has any bytes. Says how many of these.
    fn send(&mut self, part: &[u8]) -> io::Result<usize>
        ensures within { IfOk result (λ n. n ≤ length part.now) }
    {
        for _ in 0..u64::MAX {
            let sent = self.send_once(part)?;
            let of_part = self.release(sent).min(part.len());
            if self.held_back == 0 && (of_part > 0 || part.is_empty()) {
                return Ok(of_part);
            }
        }
        Err(io::Error::from(io::ErrorKind::TimedOut))
    }

    // One call of the system: how many bytes went out, of those that are held back and then of the part. A signal lets none go out.
    fn send_once(&mut self, part: &[u8]) -> io::Result<usize> {
        if let Some(wait) = self.time.next_wait(&self.rt)? {
            self.stream.set_write_timeout(Some(wait))?;
        }
        let pieces = [
            IoSlice::new(&self.length[..self.held_back]),
            IoSlice::new(part),
        ];
        match self.stream.write_vectored(&pieces) {
            Err(error) if error.kind() == io::ErrorKind::Interrupted => Ok(0),
            sent => sent,
        }
    }

    // So many bytes have gone out. Says how many of them were not held back.
    fn release(&mut self, sent: usize) -> usize {
        let gone = sent.min(self.held_back);
        if gone == 1 {
            self.length[0] = self.length[1];
        }
        self.held_back -= gone;
        sent - gone
    }
}

impl<R: time::Clock + Drop> Sink for TcpSink<R> {
    ghost held = { λ _. None };

    ghost faults = { λ s. s.faults };

    ghost steady = { λ _. ⊥ };

    fn write(&mut self, piece: &[u8]) -> Result<usize, SinkError> {
        match self.writing.take(piece) {
            Ok(n) if n > 0 => Ok(n),
            _ => {
                self.faults = self.faults.saturating_add(1);
                Err(SinkError::WriteFault)
            }
        }
    }
}
