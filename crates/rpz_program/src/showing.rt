//! What the transcript shows of an output.

ghost use Rattle.std.specs.Prelude.{◌≡◌};
ghost use Rattle.rpz_program.specs.Script.{shown_of, zone_fault_of as zone_fault_by};

use ixfr_apply::Refusal;
use rpz_core::Output;
use script_codec::{Shown, ZoneFault};

/// What the transcript shows of an output; `None` where there is nothing to show.
pub(crate) fn shown(output: Output) -> Option<Shown>
    ensures { result ≡ shown_of output }
{
    match output {
        Output::Taken { zone, serial, rows } => Some(Shown::Taken { zone, serial, rows }),
        Output::Current { zone, serial } => Some(Shown::Current { zone, serial }),
        Output::Refused { zone, refusal } => Some(Shown::Refused {
            zone,
            why: zone_fault_of(refusal),
        }),
        Output::Ask { worker, message } => Some(Shown::Ask { worker, message }),
        Output::Reply { worker, message } => Some(Shown::Reply { worker, message }),
        Output::Silent { worker } => Some(Shown::Silent { worker }),
        Output::Notified { message } => Some(Shown::Notified { message }),
        Output::Hush => Some(Shown::Hush),
        Output::Due { zone } => Some(Shown::Due { zone }),
        Output::None => None,
    }
}

fn zone_fault_of(refusal: Refusal) -> ZoneFault
    ensures { result ≡ zone_fault_by refusal }
{
    match refusal {
        Refusal::Transfer(fault) => ZoneFault::Transfer(fault),
        Refusal::Apply(fault) => ZoneFault::Apply(fault),
    }
}
