//! A reader of a transfer.

ghost use Rattle.std.specs.Prelude.{◌≡◌, ℕ, List, [], ◌∷◌, ◌++◌, Some, None, Ok, Err, IfOk, IfErr};
ghost use Rattle.axfr_apply.specs.declared.transfer_request.TheConstants.{MOST};
ghost use Rattle.axfr_apply.specs.declared.fault.TransferError.TheVariants as errors;
ghost use Rattle.axfr_apply.specs.declared.fault.TransferFault.TheVariants as faults;
ghost use Rattle.axfr_apply.specs.Block.{transfer_of};
ghost use Rattle.axfr_apply.specs.Reading.{outcome_of};
ghost use Rattle.ixfr_apply.specs.Feeding.{Falls, Feeds, IsFinished, IsOfReader, Meets, Waits, feed_outcome, left_of, new_reader, transfer_outcome};

use crate::progress::Progress;
use axfr_apply::laws::a_record_is_a_block_or_a_row;
use axfr_apply::{AtEnd, MOST, TransferError, TransferFault, TransferRequest, Wanted};
use dns_name::Name;
use std::alloc::{AllocError, Global};
use std::marker::Model;
use zone_rows::Transfer;

/// What a message did to a transfer.
#[derive(Debug, Drop)]
pub enum Fed {
    /// More messages are to come.
    More,
    /// We have what the primary has, of this serial.
    Current { theirs: u32 },
    /// The transfer is whole.
    Done(Transfer),
}

/// Reads a transfer, message after message (RFC 5936, section 2.2; RFC 1995, section 4). Of the messages it keeps what they
/// say of the zone.
#[derive(Debug, Drop)]
pub struct TransferReader {
    alloc: Global,
    asked: TransferRequest,
    progress: Option<Progress>,
}

impl Model for TransferReader {
    ghost use Rattle.ixfr_apply.specs.Feeding.{Reader};

    ghost Value = { Reader };

    ghost view = { λ r. record { asked = r.asked; progress = r.progress } };
}

impl TransferReader {
    /// A reader of the answers to a request of this ID for the zone of an origin, of which this is wanted. There may be fewer
    /// than 33,554,432 messages and answer records.
    pub fn start(alloc: Global, id: u16, origin: &Name, wanted: Wanted) -> Result<Self, AllocError>
        ensures reader { IfOk result (λ reader.
            reader
            ≡ new_reader (record { id = id; origin = origin.now; wanted = wanted; most = MOST })) }
        ensures waits { IfOk result (λ reader. Waits reader []) }
    {
        TransferReader::start_within(alloc, id, origin, wanted, MOST)
    }

    /// The same where the message or answer record of this number, counted together from 1, is one too many.
    pub fn start_within(
        alloc: Global,
        id: u16,
        origin: &Name,
        wanted: Wanted,
        most: u32,
    ) -> Result<Self, AllocError>
        ensures reader { IfOk result (λ reader.
            reader
            ≡ new_reader (record { id = id; origin = origin.now; wanted = wanted; most = most })) }
        ensures waits { IfOk result (λ reader. Waits reader []) }
    {
        let origin = origin.clone()?;
        Ok(TransferReader {
            alloc,
            asked: TransferRequest {
                id,
                origin,
                wanted,
                most,
            },
            progress: Some(Progress::new()),
        })
    }

    // Takes a message, where the transfer has come so far and its progress is taken out.
    fn advance(&mut self, mut progress: Progress, message: &[u8]) -> Result<Fed, TransferError>
        requires { self.old.progress ≡ None }
        ensures meets { Meets result self.new.progress
            (feed_outcome self.old.asked (Some progress) message.now) }
        ensures asked { self.new.asked ≡ self.old.asked }
    {
        match progress.take_message(self.alloc, &self.asked, message) {
            Ok(None) => Ok(self.end_message(progress)),
            Ok(Some(theirs)) => {
                drop(progress);
                Ok(Fed::Current { theirs })
            }
            Err(error) => {
                drop(progress);
                Err(error)
            }
        }
    }

    // What the end of a message is, behind which the transfer has come so far.
    fn end_message(&mut self, progress: Progress) -> Fed
        requires { self.old.progress ≡ None }
        ensures meets { Meets (Ok result) self.new.progress
            (Ok (transfer_outcome (transfer_of progress.gathered) progress)) }
        ensures asked { self.new.asked ≡ self.old.asked }
    {
        let Progress { count, gathered } = progress;
        match gathered.into_transfer() {
            AtEnd::Done(transfer) => Fed::Done(transfer),
            AtEnd::Open(gathered) => {
                drop(self.progress.replace(Progress { count, gathered }));
                Fed::More
            }
        }
    }

    /// Takes the next message of the answer. The transfer ends by the first fault, by a first SOA which says that we are
    /// current, at the end of the message in which the SOA stands that closes it, or out of memory. From then on each message
    /// gives the fault `Finished`, which comes in no other case.
    pub fn feed(&mut self, message: &[u8]) -> Result<Fed, TransferError>
        ensures fed { (messages : List (List ℕ)) → Waits self.old messages →
            Feeds result self.new (messages ++ message.now ∷ [])
            (outcome_of self.old.asked (messages ++ message.now ∷ [])) }
        ensures finished { IsFinished self.old →
            (result ≡ Err (errors.Fault faults.Finished)) × IsFinished self.new }
        ensures own { (IsFinished self.old → ⊥) → IfErr result IsOfReader }
        ensures asked { self.new.asked ≡ self.old.asked }
        ensures falls { Falls result (left_of self.old) (left_of self.new) }
    {
        match self.progress.take() {
            None => Err(TransferError::Fault(TransferFault::Finished)),
            Some(progress) => {
                a_record_is_a_block_or_a_row();
                self.advance(progress, message)
            }
        }
    }
}
