//! Why a zone doesn't take a transfer.

ghost use Rattle.std.specs.Prelude.{◌≡◌};
ghost use Rattle.script_codec.specs.ZoneFault.{apply_numbers, apply_word, numbers_of, transfer_numbers, transfer_word, word_of};

use axfr_apply::TransferFault;
use zone_rows::ApplyFault;

/// Why a zone doesn't take a transfer.
#[derive(Clone, Copy, Debug, PartialEq, Eq)]
pub enum ZoneFault {
    /// No connection to the primary could be opened.
    Fetch,
    /// The request for the transfer could not be written.
    Write,
    /// The messages are no transfer of the zone.
    Transfer(TransferFault),
    /// The zone can't take the transfer.
    Apply(ApplyFault),
}

/// The numbers that a fault keeps, in their order.
#[derive(Clone, Copy, Debug, PartialEq, Eq)]
pub(crate) enum Numbers {
    Without,
    One(u32),
    Two(u32, u32),
}

impl ZoneFault {
    /// The name of the fault.
    pub(crate) fn word(self) -> &'static str
        ensures { result.now ≡ word_of self }
    {
        match self {
            ZoneFault::Fetch => "FetchFault",
            ZoneFault::Write => "WriteFault",
            ZoneFault::Transfer(fault) => word_of_transfer(fault),
            ZoneFault::Apply(fault) => word_of_apply(fault),
        }
    }

    /// The numbers that it keeps.
    pub(crate) fn numbers(self) -> Numbers
        ensures { result ≡ numbers_of self }
    {
        match self {
            ZoneFault::Fetch | ZoneFault::Write => Numbers::Without,
            ZoneFault::Transfer(fault) => numbers_of_transfer(fault),
            ZoneFault::Apply(fault) => numbers_of_apply(fault),
        }
    }
}

fn word_of_transfer(fault: TransferFault) -> &'static str
    ensures { result.now ≡ transfer_word fault }
{
    match fault {
        TransferFault::ReadFault => "ReadFault",
        TransferFault::Cut => "Cut",
        TransferFault::EndedEarly => "EndedEarly",
        TransferFault::BadMessage => "BadMessage",
        TransferFault::WrongId => "WrongId",
        TransferFault::NotResponse => "NotResponse",
        TransferFault::Truncated => "Truncated",
        TransferFault::Rcode(_) => "Rcode",
        TransferFault::WrongQuestion => "WrongQuestion",
        TransferFault::NoLeadingSoa => "NoLeadingSoa",
        TransferFault::WrongClass => "WrongClass",
        TransferFault::OutOfZone => "OutOfZone",
        TransferFault::WrongSoaOwner => "WrongSoaOwner",
        TransferFault::SoaDiffers { .. } => "SoaDiffers",
        TransferFault::Gap { .. } => "Gap",
        TransferFault::SerialNotNewer { .. } => "SerialNotNewer",
        TransferFault::TrailingRecord => "TrailingRecord",
        TransferFault::TooManyRecords { .. } => "TooManyRecords",
        TransferFault::Finished => "Finished",
    }
}

fn numbers_of_transfer(fault: TransferFault) -> Numbers
    ensures { result ≡ transfer_numbers fault }
{
    match fault {
        TransferFault::Rcode(rcode) => Numbers::One(u32::from(rcode)),
        TransferFault::SoaDiffers { first, last } => Numbers::Two(first, last),
        TransferFault::Gap { expected, found } => Numbers::Two(expected, found),
        TransferFault::SerialNotNewer { ours, theirs } => Numbers::Two(ours, theirs),
        TransferFault::TooManyRecords { at } => Numbers::One(at),
        _ => Numbers::Without,
    }
}

fn word_of_apply(fault: ApplyFault) -> &'static str
    ensures { result.now ≡ apply_word fault }
{
    match fault {
        ApplyFault::SerialNotNewer { .. } => "SerialNotNewer",
        ApplyFault::Gap { .. } => "Gap",
        ApplyFault::DeleteAbsent { .. } => "DeleteAbsent",
        ApplyFault::AddPresent { .. } => "AddPresent",
        ApplyFault::TooManyRows { .. } => "TooManyRows",
    }
}

fn numbers_of_apply(fault: ApplyFault) -> Numbers
    ensures { result ≡ apply_numbers fault }
{
    match fault {
        ApplyFault::SerialNotNewer { ours, theirs } => Numbers::Two(ours, theirs),
        ApplyFault::Gap { expected, found } => Numbers::Two(expected, found),
        ApplyFault::DeleteAbsent { step, row } => Numbers::Two(step, row),
        ApplyFault::AddPresent { step, row } => Numbers::Two(step, row),
        ApplyFault::TooManyRows { at } => Numbers::One(at),
    }
}
