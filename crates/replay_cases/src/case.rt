// One script, how it is to be run, and what it gives.

ghost use Rattle.std.specs.Prelude.{◌<◌};

use edge_io::{ListClock, ListIds, ListLink, ListSink, ListSource, TaskSpawner};
use rpz_program::run::run;
use rpz_program::status::Status;
use rpz_workers::Report;
use server_io::{ListReplies, ListWires};
use std::alloc::{AllocError, Global};
use std::collections::VecDeque;
use std::hash::RandomState;
use std::sync::Wait;
use std::thread::Threads;
use std::time::Clock;

// Wires on which nothing comes.
type NoWires<R> = ListWires<ListSource, ListSink, ListLink, ListReplies<ListSource, ListSink>, R>;

/// What the line before a script says of it.
#[derive(Drop)]
pub struct Case {
    name: String,
    /// The most bytes of a read and of a write, at least 1.
    piece: usize,
    /// The bytes of the script.
    pub length: usize,
    words: Vec<String>,
    ghost some: { 0 < piece },
}

// A number in decimal digits; `None` where there is none.
fn number(text: Option<&String>) -> Option<usize> {
    text?.as_str().parse::<usize>().ok()
}

impl Case {
    /// Reads the line; `None` where it isn't of the form.
    pub fn read(alloc: Global, line: &str) -> Result<Option<Case>, AllocError> {
        let mut fields = Vec::new(alloc);
        for field in line.split_whitespace() {
            fields.push(String::from_str(alloc, field)?)?;
        }
        if fields.len() < 4 {
            return Ok(None);
        }
        let (Some(piece), Some(length)) = (number(fields.get(2)), number(fields.get(3))) else {
            return Ok(None);
        };
        let words = fields.split_off(4)?;
        let name = fields.swap_remove(1);
        let piece = if piece == 0 { usize::MAX } else { piece };
        Ok(Some(Case {
            name,
            piece,
            length,
            words,
        }))
    }

    /// Runs the script, and gives its name, its transcript and its status in lines.
    pub fn run<R: Threads + Wait + Clock + Copy + Drop + Send + Sync + 'static>(
        &self,
        rt: R,
        alloc: Global,
        script: Vec<u8>,
        hashers: RandomState,
    ) -> Result<Vec<u8>, AllocError> {
        let mut source = ListSource::new(script, self.piece, Vec::new(alloc));
        let mut sink = ListSink::new(Vec::new(alloc), self.piece, Vec::new(alloc));
        let status = run_alone(rt, alloc, &self.words, &mut source, &mut sink, hashers)?;
        self.shown(alloc, &sink.bytes, status)
    }

    // The name, the transcript and the status in lines.
    fn shown(
        &self,
        alloc: Global,
        transcript: &[u8],
        status: Status,
    ) -> Result<Vec<u8>, AllocError> {
        let first = format!(in alloc; "case {}\n", self.name)?;
        let mut out = Vec::from_slice(alloc, first.as_bytes())?;
        out.extend_from_slice(transcript)?;
        out.extend_from_slice(status_line(alloc, status)?.as_bytes())?;
        Ok(out)
    }
}

// Runs words over a script and an output, without a network.
fn run_alone<R: Threads + Wait + Clock + Copy + Drop + Send + Sync + 'static>(
    rt: R,
    alloc: Global,
    words: &[String],
    source: &mut ListSource,
    sink: &mut ListSink,
    hashers: RandomState,
) -> Result<Status, AllocError> {
    let mut wires: NoWires<R> = ListWires::new(
        rt,
        alloc,
        VecDeque::new(alloc),
        VecDeque::new(alloc),
        VecDeque::new(alloc),
        Vec::new(alloc),
        Vec::new(alloc),
    )?;
    let mut spawner: TaskSpawner<Report, R> = TaskSpawner::new(rt, alloc, true, Vec::new(alloc));
    let mut clock = ListClock::new(alloc, VecDeque::new(alloc));
    let mut ids = ListIds::new(alloc, VecDeque::new(alloc));
    Ok(run(
        &rt,
        alloc,
        words,
        source,
        sink,
        &mut wires,
        &mut spawner,
        &mut clock,
        &mut ids,
        hashers,
    ))
}

// The line `status CODE TEXT`, or without a text where the status has none.
fn status_line(alloc: Global, status: Status) -> Result<String, AllocError> {
    let code = status.code();
    match status.text(alloc)? {
        Some(text) => Ok(format!(in alloc; "status {code} {text}\n")?),
        None => Ok(format!(in alloc; "status {code}\n")?),
    }
}
