//! The queries that askers have in hand.

use crate::request_list::marks::Marks;
use crate::request_list::tally::Tally;
use edge_io::Deadline;
use std::alloc::{AllocError, Global};

// An asker, with the query that it has in hand, if any.
#[derive(Drop)]
struct Asker {
    deadline: Deadline,
    marks: Option<Marks>,
    // Whether the query counts twice for its client.
    is_double: bool,
}

/// The queries that askers have in hand, by asker, with how many there are of each client, domain and question.
#[derive(Drop)]
pub(crate) struct InHand {
    // How many askers there are to be, 1 at least.
    askers: usize,
    by_asker: Vec<Asker>,
    busy: usize,
    questions: Tally,
    clients: Tally,
    domains: Tally,
}

impl InHand {
    /// No asker has entered yet.
    pub(crate) fn open(alloc: Global, askers: usize) -> Result<Self, AllocError> {
        Ok(InHand {
            askers: askers.max(1),
            by_asker: Vec::with_capacity(alloc, askers)?,
            busy: 0,
            questions: Tally::open(alloc)?,
            clients: Tally::open(alloc)?,
            domains: Tally::open(alloc)?,
        })
    }

    /// One more asker with this deadline, and its number. It takes memory only where there are more than were told.
    pub(crate) fn enter(&mut self, deadline: Deadline) -> Result<usize, AllocError> {
        let number = self.by_asker.len();
        self.by_asker.push(Asker {
            deadline,
            marks: None,
            is_double: false,
        })?;
        Ok(number)
    }

    /// Whether more than half of the askers are busy.
    pub(crate) fn is_crowded(&self) -> bool {
        self.busy.saturating_mul(2) > self.askers
    }

    /// Whether one asker more may work for this client and for this domain while others wait: each has at most half of them, and one
    /// at least.
    pub(crate) fn admits(&self, marks: &Marks) -> bool {
        let share = (self.askers / 2).max(1);
        self.clients.count(marks.client) < share && self.domains.count(marks.domain) < share
    }

    /// Whether an asker has a query with this question. The askers are gone through only where one may have it.
    pub(crate) fn has(&self, question: u64) -> bool {
        if self.questions.count(question) == 0 {
            return false;
        }
        for asker in &self.by_asker {
            if let Some(marks) = asker.marks {
                if marks.question == question {
                    return true;
                }
            }
        }
        false
    }

    /// Gives a query to the asker of this number, which has none.
    pub(crate) fn begin(&mut self, asker: usize, marks: Marks) {
        if let Some(asker) = self.by_asker.get_mut(asker) {
            asker.deadline.forget_questions();
            asker.marks = Some(marks);
            self.busy = self.busy.saturating_add(1);
            self.questions.add(marks.question);
            self.clients.add(marks.client);
            self.domains.add(marks.domain);
        }
    }

    // The client of the query that this asker has, where it counts twice for it from now on.
    fn double(&mut self, asker: usize) -> Option<u64> {
        let asker = self.by_asker.get_mut(asker)?;
        let marks = asker.marks?;
        if asker.is_double || !asker.deadline.is_much_asked() {
            return None;
        }
        asker.is_double = true;
        Some(marks.client)
    }

    /// From now on each query for which much was asked counts twice for its client.
    pub(crate) fn weigh(&mut self) {
        for asker in 0..self.by_asker.len() {
            if let Some(client) = self.double(asker) {
                self.clients.add(client);
            }
        }
    }

    /// Takes the query back that the asker of this number has, if any.
    pub(crate) fn end(&mut self, asker: usize) -> Option<Marks> {
        let asker = self.by_asker.get_mut(asker)?;
        let marks = asker.marks.take()?;
        let was_double = asker.is_double;
        asker.is_double = false;
        self.busy = self.busy.saturating_sub(1);
        self.questions.remove(marks.question);
        self.clients.remove(marks.client);
        if was_double {
            self.clients.remove(marks.client);
        }
        self.domains.remove(marks.domain);
        Some(marks)
    }
}
