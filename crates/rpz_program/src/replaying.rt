//! The command `replay`.

ghost use Rattle.std.specs.Prelude.{◌≡◌, ◌≢◌, ◌+◌, ◌-◌, ◌≤◌, ◌^◌, ℕ, Err, Some, IfErr, IfOk, IsOk};
ghost use Rattle.edge_io.specs.Edge.{Rose};
ghost use Rattle.script_loop.specs.Replay.{Blames, Moves, ReadsNoFurther};
ghost use Rattle.rpz_program.specs.Run.{BeginsTranscript, Ends, IsVerdict};
ghost use Rattle.rpz_program.specs.Script.{script_transcript, script_verdict};

use crate::stage::Stage;
use crate::status::Status;
use edge_io::{Bytes, Sink, SinkError, Source};
use script_codec::LineFault;
use script_loop::replay::{Stop, replay};
use std::alloc::Global;

/// Answers the lines of a script in turn, and writes a line for each output. Each line is answered before more is read than the chunk
/// that it came in.
pub(crate) fn replay_script<S: Source, K: Sink>(
    alloc: Global,
    script: &mut S,
    out: &mut K,
) -> Result<(), Stop<LineFault>>
    ensures ends { Ends result (S.left script.old) (S.left script.new) (K.held out.old)
        (K.held out.new) }
    ensures no_further { (line : ℕ) (why : LineFault) → result ≡ Err (Stop.BadLine line why) →
        ReadsNoFurther line (S.left script.old) (S.left script.new) }
    ensures prefix { Moves (S.left script.old) (S.left script.new) (K.held out.old) (K.held out.new)
        BeginsTranscript }
    ensures fault { IfErr result
        (λ stop. Blames stop (Rose (S.faults script.old) (S.faults script.new))
        (Rose (K.faults out.old) (K.faults out.new))) }
{
    let mut stage = Stage::new(alloc);
    replay(alloc, &mut stage, script, out)
}

// A transcript in memory. A write fails only where memory runs out, which is no fault.
#[derive(Drop)]
struct Transcript {
    bytes: Vec<u8>,
}

impl Sink for Transcript {
    ghost held = { λ t. Some t.bytes.items };

    ghost faults = { λ _. 0 };

    ghost steady = { λ _. Unit {0} };

    fn write(&mut self, piece: &[u8]) -> Result<usize, SinkError> {
        if self.bytes.extend_from_slice(piece).is_err() {
            return Err(SinkError::OutOfMemory);
        }
        Ok(piece.len())
    }
}

/// The transcript of a script in memory, if no line of it is refused.
pub fn replayed(alloc: Global, script: Vec<u8>) -> Result<Vec<u8>, Status>
    ensures ok { IfOk result (λ out. IsOk (script_verdict script.items) ×
        (out.items ≡ script_transcript script.items)) }
    ensures bad_line { (line : ℕ) (why : _) → result ≡ Err (Status.BadLine line why) →
        script_verdict script.items ≡ Err (line, why) }

    // It ends with no other status than out of memory and the one that says what the verdict on the script says.
    ensures only { IfErr result (λ status. status ≢ Status.OutOfMemory →
        IsVerdict (script_verdict script.items) status) }
    ensures not_done { result ≢ Err Status.Done }
{
    let mut source = Bytes::new(script);
    let mut transcript = Transcript {
        bytes: Vec::new(alloc),
    };
    match replay_script(alloc, &mut source, &mut transcript) {
        Ok(()) => Ok(transcript.bytes),
        Err(stop) => Err(Status::of_stop(stop)),
    }
}
