//! An event of the core as a line of the transcript.

ghost use Rattle.std.specs.Prelude.{◌≡◌, []};
ghost use Rattle.script_loop.specs.Replay.{Steps};
ghost use Rattle.rpz_core.specs.State.{core_step};
ghost use Rattle.rpz_program.specs.Script.{shown_outcome, why_of as why};

use crate::showing::shown;
use rpz_core::{Core, CoreError, CoreFault, Event};
use script_codec::{LineFault, write_shown};
use script_loop::AnswerError;
use std::alloc::Global;

const _: () = prove!(rpz_core::WORKERS == script_codec::WORKERS);

/// What an event does to the core, and what its line of the transcript is; the reply is empty before.
pub(crate) fn answer_event(
    alloc: Global,
    core: &mut Core,
    event: Event,
    reply: &mut Vec<u8>,
) -> Result<(), AnswerError<LineFault>>
    requires { reply.old.items ≡ [] }
    ensures { Steps (shown_outcome (core_step core.old event)) result core.new reply.new.items }
{
    match core.step(event) {
        Ok(output) => {
            if let Some(line) = shown(output) {
                *reply = write_shown(alloc, &line)?.into_vec();
            }
            Ok(())
        }
        Err(CoreError::Fault(fault)) => Err(AnswerError::Refused(why_of(fault))),
        Err(CoreError::OutOfMemory) => Err(AnswerError::OutOfMemory),
    }
}

// Why the line of an event is refused that the core refuses.
fn why_of(fault: CoreFault) -> LineFault
    ensures { result ≡ why fault }
{
    match fault {
        CoreFault::NoZone => LineFault::NoZone,
        CoreFault::NoWorker => LineFault::NoWorker,
        CoreFault::Pending => LineFault::Busy,
        CoreFault::NotPending => LineFault::Idle,
    }
}
