//! A script is read, and each line is answered before the next is read.

ghost use Rattle.std.specs.Prelude.{◌≡◌, ◌+◌, ◌-◌, ◌<◌, ◌≤◌, ◌^◌, ℕ, List, [], Result, Ok, Err, IfErr, OnOk};
ghost use Rattle.edge_io.specs.Edge.{Rose};
ghost use Rattle.script_loop.specs.Fold.{why_unread};
ghost use Rattle.script_loop.specs.Replay.{Moves, Answers, BeginsTranscript, Ends, Blames, BlamesSink, ReadsNoFurther, StopsAt};

use crate::limits::{LINE_BYTES, LINES};
use crate::machine::{AnswerError, Machine};
use crate::reader::{LineReader, Next, SourceError};
use edge_io::{Sink, SinkError, Source, write_all};
use std::alloc::Global;

/// What stops a script before its end.
#[derive(Clone, Copy, Debug, PartialEq, Eq)]
pub enum Stop<W> {
    /// The first line that is refused, by its number, and why. Line 1 is the first.
    BadLine { line: u64, why: W },
    /// A read of the script has failed.
    ReadFault,
    /// A write of the output has failed.
    WriteFault,
    /// There is no memory for a line or its answer, or no room for it in the sink.
    OutOfMemory,
}

impl<W> From<SourceError> for Stop<W> {
    ghost from_gives = { λ error stop. StopsAt error stop };

    fn from(error: SourceError) -> Self {
        match error {
            SourceError::ReadFault => Stop::ReadFault,
            SourceError::OutOfMemory => Stop::OutOfMemory,
        }
    }
}

/// Answers the lines of a script in turn.
///
/// A line is refused first for its number, over 4,294,967,295, then for its length, over 200,000
/// bytes without the line feed, and then by the machine. The first line that is refused stops the
/// script, so at most 4,294,967,296 lines are read.
///
/// Each line is answered before the source is read again. What was read and isn't answered is at
/// most one line and the 8,192 bytes of one read.
pub fn replay<M: Machine, S: Source, K: Sink>(
    alloc: Global,
    machine: &mut M,
    script: &mut S,
    out: &mut K,
) -> Result<(), Stop<M::Cause>>
    // What it reads and writes, by how it ends.
    ensures ends { Ends M.too_many M.too_long M.step result machine.old machine.new
        (S.left script.old) (S.left script.new) (K.held out.old) (K.held out.new) }

    // Where a line is refused, no more was read than the chunk in which it ends.
    ensures no_further { (line : ℕ) (why : M.Cause) → result ≡ Err (Stop.BadLine line why) →
        ReadsNoFurther line (S.left script.old) (S.left script.new) }

    // However it ends, what was written begins the transcript of what was read.
    ensures prefix { Moves (S.left script.old) (S.left script.new) (K.held out.old) (K.held out.new)
        (BeginsTranscript M.too_many M.too_long M.step machine.old) }

    // It names a fault of the source or the sink only where its count rose in this call.
    ensures fault { IfErr result (λ stop. Blames stop
        (Rose (S.faults script.old) (S.faults script.new))
        (Rose (K.faults out.old) (K.faults out.new))) }
{
    let mut reader = LineReader::new();
    let mut line = Vec::new(alloc);
    let mut reply = Vec::new(alloc);
    let mut number = 1;
    loop {
        match reader.next(script, &mut line)? {
            Next::Cut => return Err(refused_unread::<M>(number)),
            Next::Last if line.is_empty() => return Ok(()),
            Next::Last => return answer(alloc, machine, number, &line, &mut reply, out),
            Next::Whole => {
                answer(alloc, machine, number, &line, &mut reply, out)?;
                number += 1;
            }
        }
    }
}

// Answers one line.
fn answer<M: Machine, K: Sink>(
    alloc: Global,
    machine: &mut M,
    number: u64,
    line: &[u8],
    reply: &mut Vec<u8>,
    out: &mut K,
) -> Result<(), Stop<M::Cause>>
    ensures answers { Answers M.too_many M.too_long M.step result number machine.old line.now
        machine.new (K.held out.old) (K.held out.new) }
    ensures fault { IfErr result (λ stop. BlamesSink stop
        (Rose (K.faults out.old) (K.faults out.new))) }
    ensures count { K.faults out.old ≤ K.faults out.new }
    ensures more { OnOk result (number < 2 ^ 32) }
{
    if number > LINES || line.len() > LINE_BYTES {
        return Err(refused_unread::<M>(number));
    }
    reply.clear();
    match machine.answer(alloc, line, reply) {
        Ok(()) => match write_all(out, reply) {
            Ok(()) => Ok(()),
            Err(SinkError::WriteFault) => Err(Stop::WriteFault),
            Err(SinkError::OutOfMemory) => Err(Stop::OutOfMemory),
        },
        Err(AnswerError::Refused(why)) => Err(Stop::BadLine { line: number, why }),
        Err(AnswerError::OutOfMemory) => Err(Stop::OutOfMemory),
    }
}

// Refuses a line whatever it says, for its number or else for its length.
fn refused_unread<M: Machine>(number: u64) -> Stop<M::Cause>
    ensures { result ≡ Stop.BadLine number (why_unread M.too_many M.too_long number) }
{
    let why = if number > LINES {
        M::too_many()
    } else {
        M::too_long()
    };
    Stop::BadLine { line: number, why }
}
