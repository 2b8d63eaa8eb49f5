//! How far a transfer has come.

ghost use Rattle.std.specs.Prelude.{◌≡◌, ◌+◌, ◌<◌, IfOk, None, Some};
ghost use Rattle.axfr_apply.specs.Block.{soa_held, transfer_of};
ghost use Rattle.ixfr_apply.specs.Progress.{Counts, Takes, TakesRow, answer_run, answers_run, counted_run, message_run, new_progress, one_more, row_run, soa_run};

use axfr_apply::{
    Gathered, NextSoa, TransferError, TransferFault, TransferRequest, check_place, read_checked,
};
use dns_record::{Record, Row, Soa, soa_of};
use std::alloc::{AllocError, Global};
use std::mem;

/// How far a transfer has come.
#[derive(Debug, Drop)]
pub(crate) struct Progress {
    /// How many messages and answer records there were, counted together.
    pub(crate) count: u32,
    /// The records so far.
    pub(crate) gathered: Gathered,
}

impl Progress {
    /// Nothing came yet.
    pub(crate) fn new() -> Self
        ensures { result ≡ new_progress }
    {
        Progress {
            count: 0,
            gathered: Gathered::new(),
        }
    }

    // Counts a message or a record.
    fn count_one(&mut self, asked: &TransferRequest) -> Result<(), TransferFault>
        ensures { Counts result self.new (one_more asked.now self.old) }
    {
        let most = asked.most;
        match self.count.checked_add(1) {
            Some(count) if count < most => {
                self.count = count;
                Ok(())
            }
            _ => Err(TransferFault::TooManyRecords { at: most }),
        }
    }

    // Takes an answer record that is no SOA record.
    fn take_row(
        &mut self,
        alloc: Global,
        asked: &TransferRequest,
        rr: &Record,
    ) -> Result<(), TransferError>
        requires open { transfer_of self.old.gathered ≡ None }
        requires row { soa_held rr.now ≡ None }
        ensures { TakesRow result self.new
            (row_run asked.now self.old rr.now) }
    {
        if self.gathered.is_empty() {
            return Err(TransferError::Fault(TransferFault::NoLeadingSoa));
        }
        check_place(&asked.origin, false, rr)?;
        self.gathered.push(Row::of(alloc, rr)?)?;
        Ok(())
    }

    // Takes an answer record that holds this SOA. The serial is given where we are current.
    fn take_soa(
        &mut self,
        alloc: Global,
        asked: &TransferRequest,
        alone: bool,
        rr: &Record,
        soa: Soa,
    ) -> Result<Option<u32>, TransferError>
        requires open { transfer_of self.old.gathered ≡ None }
        requires soa { soa_held rr.now ≡ Some soa }
        ensures { Takes result self.new
            (soa_run asked.now alone self.old rr.now soa) }
    {
        check_place(&asked.origin, true, rr)?;
        let gathered = mem::replace(&mut self.gathered, Gathered::new());
        match gathered.next_soa(alloc, asked.wanted, alone, soa)? {
            NextSoa::On(next) => {
                drop(mem::replace(&mut self.gathered, next));
                Ok(None)
            }
            NextSoa::Current(theirs) => Ok(Some(theirs)),
        }
    }

    // Takes an answer record, where `alone` is whether it is the only one of its message. The serial is given where we are
    // current.
    fn take_answer(
        &mut self,
        alloc: Global,
        asked: &TransferRequest,
        alone: bool,
        rr: &Record,
    ) -> Result<Option<u32>, TransferError>
        ensures { Takes result self.new (answer_run asked.now alone self.old rr.now) }
    {
        self.count_one(asked)?;
        self.take_counted(alloc, asked, alone, rr)
    }

    // The same of one that was counted.
    fn take_counted(
        &mut self,
        alloc: Global,
        asked: &TransferRequest,
        alone: bool,
        rr: &Record,
    ) -> Result<Option<u32>, TransferError>
        ensures { Takes result self.new (counted_run asked.now alone self.old rr.now) }
    {
        if self.gathered.is_closed() {
            return Err(TransferError::Fault(TransferFault::TrailingRecord));
        }
        match held(alloc, rr)? {
            None => {
                self.take_row(alloc, asked, rr)?;
                Ok(None)
            }
            Some(soa) => self.take_soa(alloc, asked, alone, rr, soa),
        }
    }

    // Takes answer records of one message, where `alone` is whether it has no other. The serial is given where we are current.
    fn take_answers(
        &mut self,
        alloc: Global,
        asked: &TransferRequest,
        alone: bool,
        answers: &[Record],
    ) -> Result<Option<u32>, TransferError>
        ensures { Takes result self.new (answers_run asked.now alone self.old answers.now) }
    {
        for rr in answers {
            if let Some(theirs) = self.take_answer(alloc, asked, alone, rr)? {
                return Ok(Some(theirs));
            }
        }
        Ok(None)
    }

    /// Takes a message. The serial is given where we are current.
    #[tactic(auto, unfolding(crate::specs::Progress::message_run))]
    pub(crate) fn take_message(
        &mut self,
        alloc: Global,
        asked: &TransferRequest,
        bytes: &[u8],
    ) -> Result<Option<u32>, TransferError>
        ensures { Takes result self.new (message_run asked.now self.old bytes.now) }
    {
        let is_first = self.count == 0;
        self.count_one(asked)?;
        let message = read_checked(alloc, asked, is_first, bytes)?;
        let answers = message.answer.as_slice();
        self.take_answers(alloc, asked, answers.len() == 1, answers)
    }
}

// The SOA that a record holds, if it is a SOA record.
fn held(alloc: Global, rr: &Record) -> Result<Option<Soa>, AllocError>
    ensures { IfOk result (λ soa. soa ≡ soa_held rr.now) }
{
    soa_of(alloc, rr)
}
