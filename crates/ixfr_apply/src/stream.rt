//! Transfers out of a source.

ghost use Rattle.std.specs.Prelude.{◌≡◌, ◌≢◌, ◌≤◌, [], Err, IfErr};
ghost use Rattle.edge_io.specs.Edge.{Rose};
ghost use Rattle.edge_io.specs.Frame.{TakesSome};
ghost use Rattle.axfr_apply.specs.declared.transfer_request.TheConstants.{MOST};
ghost use Rattle.axfr_apply.specs.declared.fault.TransferError.TheVariants.{Fault as AFault};
ghost use Rattle.axfr_apply.specs.declared.fault.TransferFault.TheVariants.{ReadFault as AReadFault};
ghost use Rattle.ixfr_apply.specs.Feeding.{Waits};
ghost use Rattle.ixfr_apply.specs.Stream.{BlamesSource, Reads, TakesMessage};

use crate::reader::{Fed, TransferReader};
use axfr_apply::{Taken, TransferError, TransferFault, Wanted};
use dns_name::{Name, Octets};
use edge_io::{Source, read_frame};
use std::alloc::Global;

// Reads the next message.
fn next_message<S: Source>(alloc: Global, source: &mut S) -> Result<Octets, TransferError>
    ensures takes { TakesMessage result (S.left source.old) (S.left source.new) }
    ensures fault { IfErr result (λ error.
        BlamesSource error (Rose (S.faults source.old) (S.faults source.new))) }
    ensures count { S.faults source.old ≤ S.faults source.new }
    ensures steady { S.steady source.old →
        (result ≢ Err (AFault AReadFault)) × S.steady source.new }
{
    match read_frame(alloc, source)? {
        None => Err(TransferError::Fault(TransferFault::EndedEarly)),
        Some(message) => Ok(message),
    }
}

/// Reads a transfer out of a source: the answers to a request of this ID for the zone of an origin, of which this is wanted. One
/// message is held at a time. What it gives depends on the bytes of the source alone, in whatever pieces they come, unless a
/// read fails. What stands behind the message that ends the transfer is left unread.
pub fn read_transfer<S: Source>(
    alloc: Global,
    source: &mut S,
    id: u16,
    origin: &Name,
    wanted: Wanted,
) -> Result<Taken, TransferError>
    ensures reads { Reads (record { id = id; origin = origin.now; wanted = wanted; most = MOST })
        result
        (S.left source.old) (S.left source.new) }
    ensures taken { TakesSome (S.left source.old) (S.left source.new) }
    ensures fault { IfErr result (λ error.
        BlamesSource error (Rose (S.faults source.old) (S.faults source.new))) }
    ensures count { S.faults source.old ≤ S.faults source.new }
    ensures steady { S.steady source.old →
        (result ≢ Err (AFault AReadFault)) × S.steady source.new }
{
    let mut reader = TransferReader::start(alloc, id, origin, wanted)?;
    let taken = read_on(alloc, source, &mut reader);
    drop(reader);
    taken
}

// Reads a transfer of which nothing was read yet.
fn read_on<S: Source>(
    alloc: Global,
    source: &mut S,
    reader: &mut TransferReader,
) -> Result<Taken, TransferError>
    requires { Waits reader.old [] }
    ensures reads { Reads reader.old.asked result (S.left source.old) (S.left source.new) }
    ensures taken { TakesSome (S.left source.old) (S.left source.new) }
    ensures fault { IfErr result (λ error.
        BlamesSource error (Rose (S.faults source.old) (S.faults source.new))) }
    ensures count { S.faults source.old ≤ S.faults source.new }
    ensures steady { S.steady source.old →
        (result ≢ Err (AFault AReadFault)) × S.steady source.new }
{
    loop {
        let message = next_message(alloc, source)?;
        match reader.feed(message.as_slice())? {
            Fed::More => {}
            Fed::Current { theirs } => return Ok(Taken::Current { theirs }),
            Fed::Done(transfer) => return Ok(Taken::New(transfer)),
        }
    }
}
