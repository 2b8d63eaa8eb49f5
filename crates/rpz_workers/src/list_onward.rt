//! Messages that are passed on into memory, and nowhere.

ghost use Rattle.std.specs.Prelude.{◌≡◌, [], Some, IfOk};

use crate::item::Job;
use crate::onward::Onward;
use dns_message::Question;
use dns_name::Octets;
use edge_io::Schedule;
use policy_publish::{PolicyReader, StoreName, Told};
use std::alloc::{AllocError, Global};
use std::marker::Model;

/// A message that was passed on. Contracts see what `pass_on` was given.
#[derive(Drop)]
pub struct Passed<N: StoreName> {
    pub job: Job,
    pub question: Question,
    pub now: u32,
    pub seen: Told<N>,
}

impl<N: StoreName> Model for Passed<N> {
    ghost use Rattle.rpz_workers.specs.Passed.{PlainPassed};

    ghost Value = { PlainPassed };

    ghost view = { λ p. record { job = p.job; question = p.question; now = p.now; seen = p.seen } };

    ghost invariant = { λ p. Unit {0} };
}

/// Messages that are passed on into memory. There is no room for one where it is told so, and where memory runs out.
#[derive(Drop)]
pub struct ListOnward<N: StoreName> {
    alloc: Global,
    /// What was passed on, in order.
    pub passed: Vec<Passed<N>>,
    schedule: Schedule,
}

/// A copy of a job.
pub(crate) fn job_again(alloc: Global, job: &Job) -> Result<Job, AllocError>
    ensures { IfOk result (λ again. again ≡ job.now) }
{
    Ok(Job {
        peer: job.peer,
        transport: job.transport,
        message: Octets::from_slice(alloc, job.message.as_slice())?,
    })
}

impl<N: StoreName> ListOnward<N> {
    /// Nothing is passed on yet. There is no room in the calls of the numbers in `failing`, the first of which is call 0.
    pub fn new(alloc: Global, failing: Vec<u64>) -> Self
        ensures { ⟦<ListOnward<N> as Onward<N>>⟧.passed result ≡ Some [] }
    {
        ListOnward {
            alloc,
            passed: Vec::new(alloc),
            schedule: Schedule::new(failing),
        }
    }
}

impl<N: StoreName> Onward<N> for ListOnward<N> {
    ghost passed = { λ list. Some list.passed.items };

    fn pass_on(
        &mut self,
        job: &Job,
        question: Question,
        now: u32,
        reader: &PolicyReader<N>,
    ) -> Result<(), AllocError> {
        if self.schedule.fails_now() {
            return Err(AllocError);
        }
        let job = job_again(self.alloc, job)?;
        self.passed.push(Passed {
            job,
            question,
            now,
            seen: reader.tell_seen(),
        })?;
        Ok(())
    }
}

/// Takes nothing: for a worker that asks for itself.
#[derive(Clone, Copy, Debug, PartialEq, Eq)]
pub struct NoOnward;

impl<N: StoreName> Onward<N> for NoOnward {
    ghost passed = { λ _. Some [] };

    fn pass_on(
        &mut self,
        _job: &Job,
        _question: Question,
        _now: u32,
        _reader: &PolicyReader<N>,
    ) -> Result<(), AllocError> {
        Err(AllocError)
    }
}
