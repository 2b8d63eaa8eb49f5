//! The command `load`.

ghost use Rattle.std.specs.Prelude.{◌≡◌, Err, IfOk, OnErr, OnOk};
ghost use Rattle.edge_io.specs.Edge.{Rose, WritesPrefix, appended};
ghost use Rattle.rpz_program.specs.Loading.{load_line};
ghost use Rattle.rpz_words.specs.Limits.{IsLoadable};

use dns_name::Octets;
use edge_io::{Sink, SinkError, write_all};
use load_gen::{answer_all, make, write_summary};
use rpz_words::LoadSettings;
use std::alloc::{AllocError, Global};
use std::thread::Threads;

// The line of a load run.
fn line_of<R: Threads + Sync>(
    rt: &R,
    alloc: Global,
    settings: LoadSettings,
) -> Result<Octets, AllocError>
    requires { IsLoadable settings }
    ensures { IfOk result (λ line. line ≡ load_line settings) }
{
    let load = make(alloc, settings.seed, settings.rules, settings.queries)?;
    let summary = answer_all(rt, alloc, &load, settings.workers)?;
    write_summary(alloc, &summary)
}

/// Makes a load from its seed, answers it, and writes the line of its summary. An `Err` leaves what was written before, and maybe
/// the first bytes of the line behind it; `OutOfMemory` comes also where the load finds no memory.
pub(crate) fn load<R: Threads + Sync, K: Sink>(
    rt: &R,
    alloc: Global,
    settings: LoadSettings,
    out: &mut K,
) -> Result<(), SinkError>
    requires { IsLoadable settings }
    ensures ok { OnOk result (K.held out.new ≡ appended (K.held out.old) (load_line settings)) }
    ensures err { OnErr result
        (WritesPrefix (load_line settings) (K.held out.old) (K.held out.new)) }
    ensures failed { result ≡ Err SinkError.WriteFault →
        Rose (K.faults out.old) (K.faults out.new) }
{
    match line_of(rt, alloc, settings) {
        Ok(line) => write_all(out, line.as_slice()),
        Err(AllocError) => Err(SinkError::OutOfMemory),
    }
}
