//! What stands under the lock of the request list.

use crate::list_onward::Passed;
use crate::request_list::idle::Idle;
use crate::request_list::in_hand::InHand;
use crate::request_list::waiting::{Waiting, WaitingQueries};
use edge_io::Deadline;
use policy_publish::StoreName;
use std::alloc::{AllocError, Global};
use std::time::Instant;

/// A query that an asker has taken.
#[derive(Drop)]
pub(crate) struct Taken<N: StoreName> {
    pub(crate) passed: Box<Passed<N>>,
    /// When its time is over; `None` where the clock couldn't be read.
    pub(crate) end: Option<Instant>,
    /// Whether more than half of the askers were busy.
    pub(crate) is_crowded: bool,
}

/// What an asker finds.
#[derive(Drop)]
pub(crate) struct Turn<N: StoreName> {
    pub(crate) taken: Option<Taken<N>>,
    /// Whether nothing waits now.
    pub(crate) is_empty: bool,
    /// Whether another asker is to be woken.
    pub(crate) calls: bool,
}

/// The queries that wait and those that askers have in hand.
#[derive(Drop)]
pub(crate) struct ListState<N: StoreName> {
    waiting: WaitingQueries<N>,
    in_hand: InHand,
    idle: Idle,
    // For how many queries much was asked when these were last looked for.
    much: u64,
}

impl<N: StoreName> ListState<N> {
    /// Nothing waits yet, for so many askers.
    pub(crate) fn open(alloc: Global, askers: usize) -> Result<Self, AllocError> {
        Ok(ListState {
            waiting: WaitingQueries::open(alloc)?,
            in_hand: InHand::open(alloc, askers)?,
            idle: Idle::new(),
            much: 0,
        })
    }

    /// One more asker with this deadline, and its number.
    pub(crate) fn enter(&mut self, deadline: Deadline) -> Result<usize, AllocError> {
        self.in_hand.enter(deadline)
    }

    /// Puts a query behind those that wait, and says whether an asker is to be woken. An error gives it back, where there is no room.
    pub(crate) fn put(&mut self, mut query: Waiting<N>) -> Result<bool, Waiting<N>> {
        query.is_held = self.in_hand.has(query.marks.question);
        self.waiting.put(query)?;
        Ok(self.idle.calls(self.waiting.free()))
    }

    // The asker of this number is done with what it had.
    fn end(&mut self, asker: usize, was_asleep: bool) {
        if was_asleep {
            self.idle.leave();
        }
        if let Some(marks) = self.in_hand.end(asker) {
            self.waiting.release(marks.question);
        }
    }

    /// The asker of this number takes nothing more. It says whether another one is to be woken.
    pub(crate) fn leave(&mut self, asker: usize, was_asleep: bool) -> bool {
        self.end(asker, was_asleep);
        self.idle.calls(self.waiting.free())
    }

    // Looks for those for which much was asked, where there are more of them than when that was last done.
    fn weigh(&mut self, much: u64) {
        if much != self.much {
            self.much = much;
            self.in_hand.weigh();
        }
    }

    /// The asker of this number is done with what it had, and takes what goes next, while much was asked for so many queries. It sleeps
    /// where there is nothing.
    pub(crate) fn turn(
        &mut self,
        asker: usize,
        was_asleep: bool,
        much: u64,
        now: Option<Instant>,
    ) -> Turn<N> {
        self.end(asker, was_asleep);
        self.weigh(much);
        let taken = self.take(asker, now);
        if taken.is_none() {
            self.idle.enter();
        }
        Turn {
            taken,
            is_empty: self.waiting.is_empty(),
            calls: self.idle.calls(self.waiting.free()),
        }
    }

    // Gives the asker the query that goes next, if there is one.
    fn take(&mut self, asker: usize, now: Option<Instant>) -> Option<Taken<N>> {
        let place = self.waiting.next(&self.in_hand, now)?;
        let query = self.waiting.remove(place)?;
        let is_crowded = self.in_hand.is_crowded();
        self.in_hand.begin(asker, query.marks);
        self.waiting.hold(query.marks.question);
        Some(Taken {
            passed: query.passed,
            end: query.end,
            is_crowded,
        })
    }
}
