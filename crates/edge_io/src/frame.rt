// Messages on a stream, each behind its length in two bytes.
ghost use Rattle.std.specs.Prelude.{◌≡◌, ◌≢◌, ◌≤◌, ◌<◌, ℕ, List, length, take, Err, IsOk, IfOk, IfErr, OnOk, OnErr};
ghost use Rattle.edge_io.specs.Edge.{prepended, appended, IsAtEnd, Rose, WritesPrefix};
ghost use Rattle.edge_io.specs.Frame.{size_octets, frame_octets, TakesSome, ReadsSize, ReadsFrame, Blames, BlamesSource};
ghost use Rattle.edge_io.specs.declared.frame.FrameFault.TheVariants.{ReadFault as AReadFault};
ghost use Rattle.edge_io.specs.declared.frame.FrameError.TheVariants.{OutOfMemory, Fault as AFault};

use crate::{Failed, Sink, SinkError, Source, write_all};
use dns_name::Octets;
use std::alloc::{AllocError, Global};

/// The most bytes that a message on a stream has.
pub const FRAME_MAX: usize = 65_535;

/// What is wrong with a stream of messages.
#[derive(Clone, Copy, Debug, PartialEq, Eq)]
pub enum FrameFault {
    /// A read has failed.
    ReadFault,
    /// The source ended inside a frame: behind the first byte of a length and before the last byte of
    /// its message.
    Cut,
}

/// Why no message was read: a fault of the stream, or no memory.
#[derive(Clone, Copy, Debug, PartialEq, Eq)]
pub enum FrameError {
    OutOfMemory,
    Fault(FrameFault),
}

impl From<Failed> for FrameFault {
    ghost from_gives = { λ _ e. e ≡ AReadFault };

    fn from(_: Failed) -> Self {
        FrameFault::ReadFault
    }
}

impl From<Failed> for FrameError {
    ghost from_gives = { λ _ e. e ≡ AFault AReadFault };

    fn from(_: Failed) -> Self {
        FrameError::Fault(FrameFault::ReadFault)
    }
}

impl From<FrameFault> for FrameError {
    ghost from_gives = { λ fault e. e ≡ AFault fault };

    fn from(fault: FrameFault) -> Self {
        FrameError::Fault(fault)
    }
}

impl From<AllocError> for FrameError {
    ghost from_gives = { λ _ e. e ≡ OutOfMemory };

    fn from(_: AllocError) -> Self {
        FrameError::OutOfMemory
    }
}

/// Reads until `into` is full or the source ends, and says how many bytes were read. After a fault
/// `into` has the bytes that came before it, and then anything.
pub fn read_full<S: Source>(source: &mut S, into: &mut [u8]) -> Result<usize, Failed>
    ensures within { IfOk result (λ n. n ≤ length into.new) }
    ensures bytes { IfOk result (λ n.
        S.left source.old ≡ prepended (take n into.new) (S.left source.new)) }
    ensures end { IfOk result (λ n. n < length into.new → IsAtEnd (S.left source.new)) }
    ensures err { OnErr result (TakesSome (S.left source.old) (S.left source.new)) }
    ensures count { S.faults source.old ≤ S.faults source.new }
    ensures failed { OnErr result (Rose (S.faults source.old) (S.faults source.new)) }
    ensures steady { S.steady source.old → IsOk result × S.steady source.new }
{
    let mut done = 0;
    while done < into.len() {
        match source.read(&mut into[done..]) {
            Ok(0) => return Ok(done),
            Ok(n) => done += n,
            Err(Failed) => return Err(Failed),
        }
    }
    Ok(done)
}

// Reads the length of a message; `None` where the source has ended.
fn read_size<S: Source>(source: &mut S) -> Result<Option<usize>, FrameFault>
    ensures taken { ReadsSize result (S.left source.old) (S.left source.new) }
    ensures fault { IfErr result (λ fault.
        Blames fault (Rose (S.faults source.old) (S.faults source.new))) }
    ensures count { S.faults source.old ≤ S.faults source.new }
    ensures steady { S.steady source.old → (result ≢ Err AReadFault) × S.steady source.new }
{
    let mut size = [0; 2];
    match read_full(source, &mut size)? {
        0 => Ok(None),
        1 => Err(FrameFault::Cut),
        _ => {
            let [high, low] = size;
            Ok(Some(usize::from(high) * 256 + usize::from(low)))
        }
    }
}

/// Reads a message behind its length in two bytes, the higher first (RFC 1035, section 4.2.2); `None`
/// where the source has ended before the length. `Cut` comes where the source ends later inside the
/// frame.
pub fn read_frame<S: Source>(alloc: Global, source: &mut S) -> Result<Option<Octets>, FrameError>
    ensures taken { ReadsFrame result (S.left source.old) (S.left source.new) }
    ensures fault { IfErr result (λ error.
        BlamesSource error (Rose (S.faults source.old) (S.faults source.new))) }
    ensures count { S.faults source.old ≤ S.faults source.new }
    ensures steady { S.steady source.old →
        (result ≢ Err (AFault AReadFault)) × S.steady source.new }
{
    let Some(count) = read_size(source)? else {
        return Ok(None);
    };
    let mut message = vec![in alloc; 0; count]?;
    if read_full(source, &mut message)? < count {
        return Err(FrameError::Fault(FrameFault::Cut));
    }
    Ok(Some(Octets::from_vec(message)))
}

// The length of a message as it is written.
fn size_bytes(count: usize) -> [u8; 2]
    requires { count ≤ FRAME_MAX }
    ensures { result ≡ size_octets count }
{
    [(count / 256) as u8, (count % 256) as u8]
}

/// Writes a message behind its length in two bytes, the higher first (RFC 1035, section 4.2.2). After
/// an error a prefix of this frame has gone out.
pub fn write_frame<K: Sink>(sink: &mut K, payload: &[u8]) -> Result<(), SinkError>
    requires { length payload.now ≤ FRAME_MAX }
    ensures ok { OnOk result
        (K.held sink.new ≡ appended (K.held sink.old) (frame_octets payload.now)) }
    ensures err { OnErr result
        (WritesPrefix (frame_octets payload.now) (K.held sink.old) (K.held sink.new)) }
    ensures count { K.faults sink.old ≤ K.faults sink.new }
    ensures failed { result ≡ Err SinkError.WriteFault →
        Rose (K.faults sink.old) (K.faults sink.new) }
    ensures steady { K.steady sink.old → (result ≢ Err SinkError.WriteFault) × K.steady sink.new }
{
    write_all(sink, &size_bytes(payload.len()))?;
    write_all(sink, payload)
}
