//! The serials of SOA records, one after another.

ghost use Rattle.std.specs.Prelude.{◌≡◌, Ok};
ghost use Rattle.axfr_apply.specs.Checks.{IsCurrentAt, fault_or};
ghost use Rattle.axfr_apply.specs.Reading.{begin_fault, behind_step_fault, close_fault, first_soa_end, forward_fault};

use crate::fault::TransferFault;
use crate::transfer_request::Wanted;
use dns_record::serial_newer;

/// Whether the first SOA, of this serial, says that we are current: `alone` is whether it is the only answer record of its
/// message. An `Err` is a serial that isn't newer than ours.
pub(crate) fn is_current(wanted: Wanted, alone: bool, theirs: u32) -> Result<bool, TransferFault>
    ensures { IsCurrentAt theirs result (first_soa_end wanted alone theirs) }
{
    let (ours, takes_older) = match wanted {
        Wanted::Whole { have: None } => return Ok(false),
        Wanted::Whole { have: Some(ours) } => (ours, false),
        Wanted::Newer { have } => (have, alone),
    };
    if theirs == ours || (takes_older && !serial_newer(ours, theirs)) {
        return Ok(true);
    }
    check_forward(ours, theirs)?;
    Ok(false)
}

/// A serial is to be newer than the one before it.
pub(crate) fn check_forward(ours: u32, theirs: u32) -> Result<(), TransferFault>
    ensures { result ≡ fault_or (forward_fault ours theirs) (Ok tt) }
{
    if serial_newer(ours, theirs) {
        Ok(())
    } else {
        Err(TransferFault::SerialNotNewer { ours, theirs })
    }
}

/// The SOA that closes a transfer has the serial of the first.
pub(crate) fn check_close(newest: u32, found: u32) -> Result<(), TransferFault>
    ensures { result ≡ fault_or (close_fault newest found) (Ok tt) }
{
    if found == newest {
        Ok(())
    } else {
        Err(TransferFault::SoaDiffers {
            first: newest,
            last: found,
        })
    }
}

/// The SOA that begins a step has this serial.
pub(crate) fn check_begin(expected: u32, found: u32) -> Result<(), TransferFault>
    ensures { result ≡ fault_or (begin_fault expected found) (Ok tt) }
{
    if found == expected {
        Ok(())
    } else {
        Err(TransferFault::Gap { expected, found })
    }
}

/// The SOA behind a step to the version `new` closes the transfer, or begins the next step.
pub(crate) fn check_behind_step(newest: u32, new: u32, found: u32) -> Result<(), TransferFault>
    ensures { result ≡ fault_or (behind_step_fault newest new found) (Ok tt) }
{
    if new == newest {
        check_close(newest, found)
    } else {
        check_begin(new, found)
    }
}
