//! `bench queries`: a core of zones that it reads from streams, which may be longer than a line of a script, and the lines
//! `query` and `give` of a script, done as a replay does them.
//!
//! Its words are the origins of the zones. Standard input has the transfer of each, its messages behind their lengths in
//! two bytes and an empty one at the end, and then the lines, each behind its length in two bytes; an empty one ends a part
//! of them. It says on standard error how many rows are loaded, and when a part is answered, the last one before it gives up
//! the memory of the zones.
//!
//! For each line one message goes to standard output, behind its length in two bytes as over TCP (RFC 1035, section 4.2.2):
//! the reply, or what is asked of the upstream. It is empty where a query gets no reply. Many are written at once.

use crate::bench_error::BenchError;
use crate::stream::read_stream;
use crate::tried::beside;
use dns_name::Octets;
use edge_io::{FRAME_MAX, Sink, Source, WriterSink, read_frame, write_all};
use networks::AllowList;
use policy_override::ZoneSets;
use rpz_core::{Core, Event, Output};
use script_codec::{Line, ScriptState, read_unnumbered};
use std::alloc::Global;
use std::io;
use zone_rows::ZONE_LIMIT;

// So many bytes of messages, and no more than the longest one beyond, are written at once.
const PIECE: usize = 262_144;

// Room for these, with their lengths.
const ROOM: usize = 327_680;

// The zone of a number takes the next transfer; how many rows it has.
fn load<S: Source>(
    alloc: Global,
    core: &mut Core,
    zone: u32,
    source: &mut S,
) -> Result<usize, BenchError> {
    let stream = read_stream(alloc, source)?;
    match core.step(Event::Transfer { zone, stream })? {
        Output::Taken { rows, .. } => Ok(rows),
        _ => Err(BenchError::NotTaken),
    }
}

// The same of so many zones; how many rows they have together.
fn load_all<S: Source>(
    alloc: Global,
    core: &mut Core,
    zones: u32,
    source: &mut S,
) -> Result<usize, BenchError> {
    let mut total = 0usize;
    for zone in 0..zones {
        total = total.saturating_add(load(alloc, core, zone + 1, source)?);
    }
    Ok(total)
}

// A core of these zones, and how many rows they have together.
fn start<S: Source>(
    alloc: Global,
    zones: &ZoneSets,
    source: &mut S,
) -> Result<(Core, usize), BenchError> {
    if zones.len() > ZONE_LIMIT {
        return Err(BenchError::NotTaken);
    }
    let primaries = [None; ZONE_LIMIT];
    let mut core = Core::start(
        alloc,
        zones.as_slice(),
        &primaries[..zones.len()],
        AllowList::everyone(alloc),
    )?;
    let total = load_all(alloc, &mut core, zones.len() as u32, source);
    beside(core, total)
}

// The event of a line `query` or `give`.
fn event(alloc: Global, core: &Core, line: &[u8]) -> Result<Event, BenchError> {
    let state = ScriptState::Running {
        zones: core.zone_count(),
        pending: core.pending(),
    };
    match read_unnumbered(alloc, line, &state)? {
        Some(
            Line::Query {
                worker,
                transport,
                client,
                message,
            },
        ) => Ok(Event::Query {
            worker,
            transport,
            client,
            message,
        }),
        Some(Line::Give { worker, message }) => Ok(Event::Give { worker, message }),
        _ => Err(BenchError::OtherLine),
    }
}

// The message of an output; it is empty where a query gets no reply.
fn message_of(alloc: Global, output: Output) -> Result<Octets, BenchError> {
    match output {
        Output::Ask { message, .. } => Ok(message),
        Output::Reply { message, .. } => Ok(message),
        Output::Silent { .. } => Ok(Octets::new(alloc)),
        _ => Err(BenchError::OtherLine),
    }
}

// Puts a message at the end, behind its length.
fn push_frame(frames: &mut Octets, message: &[u8]) -> Result<(), BenchError> {
    if message.len() > FRAME_MAX {
        return Err(BenchError::Long);
    }
    frames.append(&(message.len() as u16).to_be_bytes())?;
    Ok(frames.append(message)?)
}

fn push_output(alloc: Global, frames: &mut Octets, output: Output) -> Result<(), BenchError> {
    let message = message_of(alloc, output)?;
    push_frame(frames, message.as_slice())
}

// What a line outputs goes behind the messages that are still to be written, and is written with them where they are many.
fn answer<K: Sink>(
    alloc: Global,
    core: &mut Core,
    line: &[u8],
    frames: &mut Octets,
    out: &mut K,
) -> Result<(), BenchError> {
    let event = event(alloc, core, line)?;
    push_output(alloc, frames, core.step(event)?)?;
    if frames.len() >= PIECE {
        write_all(out, frames.as_slice())?;
        // a new one, since to clear this one takes as long as it has bytes
        *frames = Octets::with_capacity(alloc, ROOM)?;
    }
    Ok(())
}

// Answers the lines of a part; whether the input goes on behind it.
fn answer_lines<S: Source, K: Sink>(
    alloc: Global,
    core: &mut Core,
    source: &mut S,
    frames: &mut Octets,
    out: &mut K,
) -> Result<bool, BenchError> {
    for _turn in 0..u64::MAX {
        let Some(line) = read_frame(alloc, source)? else {
            break;
        };
        if line.len() == 0 {
            return Ok(true);
        }
        answer(alloc, core, line.as_slice(), frames, out)?;
    }
    Ok(false)
}

// The same, and writes what is still to be written.
fn answer_part<S: Source, K: Sink>(
    alloc: Global,
    core: &mut Core,
    source: &mut S,
    out: &mut K,
) -> Result<bool, BenchError> {
    let mut frames = Octets::with_capacity(alloc, ROOM)?;
    let more = answer_lines(alloc, core, source, &mut frames, out)?;
    write_all(out, frames.as_slice())?;
    Ok(more)
}

// Answers all lines, and says when each part is answered.
fn answer_all<R: Eprint, S: Source, K: Sink>(
    rt: &R,
    alloc: Global,
    core: &mut Core,
    source: &mut S,
    out: &mut K,
) -> Result<(), BenchError> {
    for _turn in 0..u64::MAX {
        let more = answer_part(alloc, core, source, out)?;
        eprintln!(rt; "answered")?;
        if !more {
            break;
        }
    }
    Ok(())
}

/// Loads these zones, and answers all lines.
pub fn run<R: Print + Eprint, S: Source>(
    rt: &R,
    alloc: Global,
    zones: &ZoneSets,
    source: &mut S,
) -> Result<(), BenchError> {
    let (mut core, rows) = start(alloc, zones, source)?;
    eprintln!(rt; "rows {rows}")?;
    answer_all(
        rt,
        alloc,
        &mut core,
        source,
        &mut WriterSink::new(io::writer(rt)),
    )
}
