//! The reading side of a connection.

ghost use Rattle.std.specs.Prelude.{◌≡◌, ◌≤◌, None, IfOk, length};

use crate::frame_gauge::FrameGauge;
use crate::read_buffer::ReadBuffer;
use crate::time_limit::TimeLimit;
use edge_io::{Failed, Source};
use std::alloc::{AllocError, Global};
use std::net::TcpStream;
use std::sync::Arc;
use std::{io, time};

/// The reading side of a TCP connection to a server. It doesn't tell its bytes. It reads ahead, so that a frame mostly costs one system
/// call, and gives at most the length or the message of one frame a call.
///
/// Each error of the socket is a fault, and so is a wait that runs into a limit. From a primary server each wait may take
/// `TRANSFER_IDLE_SECONDS`, and all together `TRANSFER_SECONDS`. From the upstream everything must come within the limit of the
/// exchange.
#[derive(Drop)]
pub struct TcpSource<R: time::Clock + Drop> {
    reading: Box<Reading<R>>,
    faults: u64,
}

// All of it but the count of faults.
#[derive(Drop)]
struct Reading<R: time::Clock + Drop> {
    rt: R,
    stream: Arc<TcpStream>,
    buffer: ReadBuffer,
    gauge: FrameGauge,
    time: TimeLimit,
}

impl<R: time::Clock + Drop> TcpSource<R> {
    // Reads from a server over a socket whose reads wait as the limit says.
    pub fn new(
        rt: R,
        alloc: Global,
        stream: Arc<TcpStream>,
        buffer: ReadBuffer,
        time: TimeLimit,
    ) -> Result<Self, AllocError>
        ensures no_fault { IfOk result (λ s. ⟦<TcpSource<R> as Source>⟧.faults s ≡ 0) }
    {
        let reading = Reading {
            rt,
            stream,
            buffer,
            gauge: FrameGauge::new(),
            time,
        };
        Ok(TcpSource {
            reading: Box::new(alloc, reading)?,
            faults: 0,
        })
    }

    /// Another handle to the socket.
    pub fn handle(&self) -> Result<Arc<TcpStream>, AllocError> {
        Arc::try_clone(&self.reading.stream)
    }
}

impl<R: time::Clock + Drop> Reading<R> {
    // Receives what there is. At the end of the stream the buffer stays empty.
    fn fill(&mut self) -> io::Result<()> {
        for _ in 0..u64::MAX {
            if let Some(wait) = self.time.next_wait(&self.rt)? {
                self.stream.set_read_timeout(Some(wait))?;
            }
            match self.buffer.receive(&self.stream) {
                Err(error) if error.kind() == io::ErrorKind::Interrupted => {}
                received => return received,
            }
        }
        Err(io::Error::from(io::ErrorKind::TimedOut))
    }

    // The next bytes, at most those of one length or one message.
    fn read(&mut self, into: &mut [u8]) -> io::Result<usize>
        ensures within { IfOk result (λ n. n ≤ length into.old) }
        ensures same { length into.new ≡ length into.old }
    {
        if self.buffer.is_empty() {
            self.fill()?;
        }
        let most = into.len().min(self.gauge.part());
        let n = self.buffer.take(&mut into[..most]);
        self.gauge.pass(&into[..n]);
        Ok(n)
    }
}

impl<R: time::Clock + Drop> Source for TcpSource<R> {
    ghost left = { λ _. None };

    ghost faults = { λ s. s.faults };

    ghost steady = { λ _. ⊥ };

    fn read(&mut self, into: &mut [u8]) -> Result<usize, Failed> {
        match self.reading.read(into) {
            Ok(n) => Ok(n),
            Err(_) => {
                self.faults = self.faults.saturating_add(1);
                Err(Failed)
            }
        }
    }
}
