//! Standard output.

ghost use Rattle.std.specs.Prelude.{◌≡◌, ◌≤◌, ◌<◌, None, IfOk, length};

use edge_io::{LineSink, Sink, SinkError, WriterSink};
use std::io;
use std::io::Write;
use std::sync::Wait;
use std::time::Clock;

/// Where the output goes: to a writer at once, or to a thread that writes it, so that nobody waits.
#[derive(Drop)]
pub enum Way<W: Write + Drop, R: Wait + Drop> {
    AtOnce(WriterSink<W>),
    ByThread(LineSink<R>),
}

/// Standard output, of which contracts don't know the bytes. The first write that fails is said on standard error at once, since a
/// server goes on without its lines.
#[derive(Drop)]
pub struct Output<W: Write + Drop, R: Wait + Drop, E: Write + Drop> {
    way: Way<W, R>,
    errors: E,
    faults: u64,
    /// A write has failed, and that was said.
    pub is_told: bool,
}

impl<W: Write + Drop, R: Wait + Drop, E: Write + Drop> Output<W, R, E> {
    /// Writes this way, and says on the writer where that fails.
    pub fn new(way: Way<W, R>, errors: E) -> Self {
        Output {
            way,
            errors,
            faults: 0,
            is_told: false,
        }
    }

    /// Waits until all was written, a second at most, and says whether it was, as far as that isn't known by the writes.
    pub fn end(&self) -> bool
    where
        R: Clock,
    {
        match &self.way {
            Way::AtOnce(_) => true,
            Way::ByThread(lines) => lines.end(),
        }
    }

    // One write, the way that it goes.
    fn write_on(&mut self, piece: &[u8]) -> Result<usize, SinkError>
        requires { 0 < length piece.now }
        ensures within { IfOk result (λ n. n ≤ length piece.now) }
        ensures faults { self.new.faults ≡ self.old.faults }
    {
        match &mut self.way {
            Way::AtOnce(sink) => sink.write(piece),
            Way::ByThread(lines) => lines.write(piece),
        }
    }
}

// Says that a write has failed.
fn tell<E: Write>(errors: &mut E) -> io::Result<()> {
    errors.write_all(b"rpz: write fault\n")
}

impl<W: Write + Drop, R: Wait + Drop, E: Write + Drop> Sink for Output<W, R, E> {
    ghost held = { λ _. None };

    ghost faults = { λ o. o.faults };

    ghost steady = { λ _. ⊥ };

    fn write(&mut self, piece: &[u8]) -> Result<usize, SinkError> {
        match self.write_on(piece) {
            Ok(n) if n > 0 => Ok(n),
            Err(SinkError::OutOfMemory) => Err(SinkError::OutOfMemory),
            _ => {
                self.faults = self.faults.saturating_add(1);
                if !self.is_told {
                    self.is_told = true;
                    let _ = tell(&mut self.errors);
                }
                Err(SinkError::WriteFault)
            }
        }
    }
}
