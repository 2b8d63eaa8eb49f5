//! The queries that wait for an asker, in order.

use crate::list_onward::Passed;
use crate::request_list::in_hand::InHand;
use crate::request_list::limits::{WAITING_OCTETS, WAITING_QUERIES};
use crate::request_list::marks::Marks;
use crate::request_list::tally::Tally;
use policy_publish::StoreName;
use std::alloc::{AllocError, Global};
use std::collections::VecDeque;
use std::time::Instant;

/// A query that waits for an asker.
#[derive(Drop)]
pub(crate) struct Waiting<N: StoreName> {
    pub(crate) passed: Box<Passed<N>>,
    pub(crate) marks: Marks,
    /// How many octets its message has.
    pub(crate) octets: usize,
    /// When its time is over; `None` where the clock couldn't be read.
    pub(crate) end: Option<Instant>,
    /// Whether an asker has its question in hand, so that it waits for that one.
    pub(crate) is_held: bool,
    /// Whether it has waited for its question once, and does so no more.
    pub(crate) is_released: bool,
}

impl<N: StoreName> Waiting<N> {
    /// A query that was passed on, with this end of its time.
    pub(crate) fn new(passed: Box<Passed<N>>, marks: Marks, end: Option<Instant>) -> Self {
        let octets = passed.job.message.len();
        Waiting {
            passed,
            marks,
            octets,
            end,
            is_held: false,
            is_released: false,
        }
    }
}

/// The queries that wait for an asker, the oldest first. It takes its memory when it is opened.
#[derive(Drop)]
pub(crate) struct WaitingQueries<N: StoreName> {
    queries: VecDeque<Waiting<N>>,
    // How many of each question wait.
    questions: Tally,
    // How many octets their messages have.
    octets: usize,
    // How many of them wait for no question.
    free: usize,
}

impl<N: StoreName> WaitingQueries<N> {
    /// Nothing waits yet.
    pub(crate) fn open(alloc: Global) -> Result<Self, AllocError> {
        Ok(WaitingQueries {
            queries: VecDeque::with_capacity(alloc, WAITING_QUERIES)?,
            questions: Tally::open(alloc)?,
            octets: 0,
            free: 0,
        })
    }

    /// Whether nothing waits.
    pub(crate) fn is_empty(&self) -> bool {
        self.queries.is_empty()
    }

    /// How many an asker may take now.
    pub(crate) fn free(&self) -> usize {
        self.free
    }

    // Whether there is room for one more, with a message of so many octets.
    fn has_room(&self, octets: usize) -> bool {
        self.queries.len() < WAITING_QUERIES && octets <= WAITING_OCTETS.saturating_sub(self.octets)
    }

    /// Puts a query behind the others; an error gives it back, where there is no room.
    pub(crate) fn put(&mut self, query: Waiting<N>) -> Result<(), Waiting<N>> {
        if !self.has_room(query.octets) {
            return Err(query);
        }
        let octets = query.octets;
        let question = query.marks.question;
        let is_held = query.is_held;
        match self.queries.push_back(query) {
            Err(failed) => Err(failed.value),
            Ok(()) => {
                self.octets = self.octets.saturating_add(octets);
                self.questions.add(question);
                if !is_held {
                    self.free = self.free.saturating_add(1);
                }
                Ok(())
            }
        }
    }

    // Whether the time of the oldest is over.
    fn is_late(&self, now: Option<Instant>) -> bool {
        match (self.queries.front(), now) {
            (Some(query), Some(now)) => match query.end {
                Some(end) => end <= now,
                None => false,
            },
            _ => false,
        }
    }

    /// Where the query stands that goes next: the oldest, if its time is over; else the oldest whose client and whose domain have no
    /// more than their share of the askers, and where there is none, the oldest. One that waits for its question is passed over.
    pub(crate) fn next(&self, in_hand: &InHand, now: Option<Instant>) -> Option<usize> {
        if self.is_late(now) {
            return Some(0);
        }
        if self.free == 0 {
            return None;
        }
        let mut oldest = None;
        for place in 0..self.queries.len() {
            if let Some(query) = self.queries.get(place) {
                if !query.is_held {
                    if in_hand.admits(&query.marks) {
                        return Some(place);
                    }
                    oldest = oldest.or(Some(place));
                }
            }
        }
        oldest
    }

    /// Takes the query out that stands there.
    pub(crate) fn remove(&mut self, place: usize) -> Option<Waiting<N>> {
        let query = self.queries.remove(place)?;
        self.octets = self.octets.saturating_sub(query.octets);
        self.questions.remove(query.marks.question);
        if !query.is_held {
            self.free = self.free.saturating_sub(1);
        }
        Some(query)
    }

    /// Holds those back that have this question, since an asker has it now, but for those that were held back before.
    pub(crate) fn hold(&mut self, question: u64) {
        if self.questions.count(question) == 0 {
            return;
        }
        let mut held: usize = 0;
        for query in self.queries.iter_mut() {
            if query.marks.question == question && !query.is_released && !query.is_held {
                query.is_held = true;
                held = held.saturating_add(1);
            }
        }
        self.free = self.free.saturating_sub(held);
    }

    /// Lets those go that have this question, since the asker that had it is done.
    pub(crate) fn release(&mut self, question: u64) {
        if self.questions.count(question) == 0 {
            return;
        }
        let mut released: usize = 0;
        for query in self.queries.iter_mut() {
            if query.marks.question == question && query.is_held {
                query.is_held = false;
                query.is_released = true;
                released = released.saturating_add(1);
            }
        }
        self.free = self.free.saturating_add(released);
    }
}
