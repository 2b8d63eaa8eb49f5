//! Statuses of runs: their numbers and texts.

ghost use Rattle.std.specs.Prelude.{◌≡◌, IfOk, option_map, string_bytes};
ghost use Rattle.rpz_program.specs.Status.{code_of, status_of_replay, status_of_server, status_of_stop, status_of_written, text_of};

use crate::serve_error::ServeError;
use edge_io::SinkError;
use rpz_words::{USAGE, UsageCause};
use script_codec::LineFault;
use script_loop::replay::Stop;
use std::alloc::{AllocError, Global};

/// What a run ends with.
#[derive(Clone, Copy, Debug, PartialEq, Eq)]
pub enum Status {
    /// The script was read to its end, the server took all its turns, the load was answered, or the page was shown.
    Done,
    /// The words of the command line ask for nothing, and why.
    Usage { cause: UsageCause },
    /// The first line that is refused, by its number, and why. Line 1 is the first.
    BadLine { line: u64, why: LineFault },
    /// A read of the script has failed.
    ReadFault,
    /// A write of the output has failed.
    WriteFault,
    /// A call on a socket has failed: an endpoint could not be bound, or no arrival comes.
    SocketFault,
    /// A worker could not be started.
    StartFault,
    /// There was no memory.
    OutOfMemory,
}

impl Status {
    /// How a script ends a run that stops before the script's end.
    pub(crate) fn of_stop(stop: Stop<LineFault>) -> Status
        ensures { result ≡ status_of_stop stop }
    {
        match stop {
            Stop::BadLine { line, why } => Status::BadLine { line, why },
            Stop::ReadFault => Status::ReadFault,
            Stop::WriteFault => Status::WriteFault,
            Stop::OutOfMemory => Status::OutOfMemory,
        }
    }

    /// How a script ends a run.
    pub(crate) fn of_replay(ended: Result<(), Stop<LineFault>>) -> Status
        ensures { result ≡ status_of_replay ended }
    {
        match ended {
            Ok(()) => Status::Done,
            Err(stop) => Status::of_stop(stop),
        }
    }

    /// How a server ends a run.
    pub(crate) fn of_server(ended: Result<(), ServeError>) -> Status
        ensures { result ≡ status_of_server ended }
    {
        match ended {
            Ok(()) => Status::Done,
            Err(ServeError::WriteFault) => Status::WriteFault,
            Err(ServeError::SocketFault) => Status::SocketFault,
            Err(ServeError::StartFault) => Status::StartFault,
            Err(ServeError::OutOfMemory) => Status::OutOfMemory,
        }
    }

    /// How a load run, or a page, ends a run: by how its writing ended.
    pub(crate) fn of_written(ended: Result<(), SinkError>) -> Status
        ensures { result ≡ status_of_written ended }
    {
        match ended {
            Ok(()) => Status::Done,
            Err(SinkError::WriteFault) => Status::WriteFault,
            Err(SinkError::OutOfMemory) => Status::OutOfMemory,
        }
    }

    /// The number that the process ends with.
    pub fn code(self) -> u8
        ensures { result ≡ code_of self }
    {
        match self {
            Status::Done => 0,
            Status::Usage { .. } => 2,
            Status::BadLine { .. } => 3,
            Status::ReadFault => 4,
            Status::WriteFault => 5,
            Status::SocketFault => 6,
            Status::StartFault => 7,
            Status::OutOfMemory => 9,
        }
    }

    /// What is told on standard error; nothing where the run is done. After a usage error it is the cause, and the usage in short.
    pub fn text(self, alloc: Global) -> Result<Option<String>, AllocError>
        ensures { IfOk result (λ text. option_map string_bytes text ≡ text_of self) }
    {
        match self {
            Status::Done => Ok(None),
            Status::Usage { cause } => {
                let usage = USAGE;
                Ok(Some(format!(in alloc; "rpz: {cause}\n{usage}")?))
            }
            Status::BadLine { line, why } => {
                Ok(Some(format!(in alloc; "rpz: line {line}: {why}")?))
            }
            Status::ReadFault => Ok(Some(String::from_str(alloc, "rpz: read fault")?)),
            Status::WriteFault => Ok(Some(String::from_str(alloc, "rpz: write fault")?)),
            Status::SocketFault => Ok(Some(String::from_str(alloc, "rpz: socket fault")?)),
            Status::StartFault => Ok(Some(String::from_str(alloc, "rpz: start fault")?)),
            Status::OutOfMemory => Ok(Some(String::from_str(alloc, "rpz: out of memory")?)),
        }
    }
}
