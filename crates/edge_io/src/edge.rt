// The two traits, and a write of many bytes.
ghost use Rattle.std.specs.Prelude.{◌≡◌, ◌≢◌, ◌≤◌, ◌<◌, ℕ, List, [], Option, length, take, Ok, Err, IfOk, IsOk, OnOk, OnErr};
ghost use Rattle.edge_io.specs.Edge.{prepended, appended, moved, IsAtEnd, Rose, WritesPrefix};

/// A read that has failed: a fault. The source's count of faults has risen in this call.
#[derive(Clone, Copy, Debug, PartialEq, Eq)]
pub struct Failed;

/// What bytes are read from.
///
/// Of a source in memory contracts know which bytes are left, and not of one over std's readers.
pub trait Source {
    /// The bytes that are left, where they are known.
    ghost left: { Self → Option (List ℕ) };

    /// How often a read has failed. It never falls, and stands still at 2^64 - 1.
    ghost faults: { Self → ℕ };

    /// No read fails from now on, and it stays so.
    ghost steady: { Self → Type 0 };

    /// Reads some of the bytes that are left into the front of `into`, and says how many.
    /// `Ok(0)` comes only at the end. After a fault no byte is taken, and `into` may hold anything.
    fn read(&mut self, into: &mut [u8]) -> Result<usize, Failed>
        requires { 0 < length into.old }
        ensures within { IfOk result (λ n. n ≤ length into.new) }
        ensures bytes { left self.old ≡ prepended (moved into.new result) (left self.new) }
        ensures end { result ≡ Ok 0 → IsAtEnd (left self.new) }
        ensures count { faults self.old ≤ faults self.new }
        ensures failed { OnErr result (Rose (faults self.old) (faults self.new)) }
        ensures steady { steady self.old → IsOk result × steady self.new };
}

/// Why bytes were not written.
#[derive(Clone, Copy, Debug, PartialEq, Eq)]
pub enum SinkError {
    /// The sink found no room for them. That is no fault: its count of faults stands still.
    OutOfMemory,
    /// A fault of the sink, whose count of faults has risen in this call.
    WriteFault,
}

/// What bytes are written to.
///
/// Of a sink in memory contracts know which bytes it was given, and not of one over std's writers.
pub trait Sink {
    /// The bytes that it was given, where they are known.
    ghost held: { Self → Option (List ℕ) };

    /// How often a write has failed. It never falls, and stands still at 2^64 - 1.
    ghost faults: { Self → ℕ };

    /// No write fails from now on, and it stays so. It says nothing of memory.
    ghost steady: { Self → Type 0 };

    /// Takes the first of the bytes, and says how many. `Ok(0)` is a fault too. After an error no byte
    /// is taken.
    fn write(&mut self, piece: &[u8]) -> Result<usize, SinkError>
        requires { 0 < length piece.now }
        ensures within { IfOk result (λ n. n ≤ length piece.now) }
        ensures bytes { held self.new ≡ appended (held self.old) (moved piece.now result) }
        ensures count { faults self.old ≤ faults self.new }
        ensures none { result ≡ Ok 0 → Rose (faults self.old) (faults self.new) }
        ensures failed { result ≡ Err SinkError.WriteFault →
            Rose (faults self.old) (faults self.new) }
        ensures no_room { result ≡ Err SinkError.OutOfMemory → faults self.new ≡ faults self.old }
        ensures steady { steady self.old →
            (result ≢ Ok 0) × (result ≢ Err SinkError.WriteFault) × steady self.new };
}

/// Writes all the bytes, in as many calls as the sink takes. After an error a prefix of them, from
/// none to all, has gone out.
pub fn write_all<K: Sink>(sink: &mut K, bytes: &[u8]) -> Result<(), SinkError>
    ensures ok { OnOk result (K.held sink.new ≡ appended (K.held sink.old) bytes.now) }
    ensures err { OnErr result (WritesPrefix bytes.now (K.held sink.old) (K.held sink.new)) }
    ensures count { K.faults sink.old ≤ K.faults sink.new }
    ensures failed { result ≡ Err SinkError.WriteFault →
        Rose (K.faults sink.old) (K.faults sink.new) }
    ensures steady { K.steady sink.old → (result ≢ Err SinkError.WriteFault) × K.steady sink.new }
{
    let mut done = 0;
    while done < bytes.len() {
        match sink.write(&bytes[done..]) {
            Ok(0) => return Err(SinkError::WriteFault),
            Ok(n) => done += n,
            Err(error) => return Err(error),
        }
    }
    Ok(())
}
