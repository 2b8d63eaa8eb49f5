//! Passing queries on to the request list.

ghost use Rattle.std.specs.Prelude.{None};

use crate::item::Job;
use crate::list_onward::{Passed, job_again};
use crate::onward::Onward;
use crate::request_list::limits::QUERY_SECONDS;
use crate::request_list::list::OpenList;
use crate::request_list::marks::{Marks, marks_of};
use crate::request_list::waiting::Waiting;
use dns_message::Question;
use ip_prefix::Addr;
use policy_publish::{PolicyReader, StoreName};
use std::alloc::{AllocError, Global};
use std::sync::Wait;
use std::time;
use std::time::{Duration, Instant};

/// Passes queries on to a request list. It waits only while another thread has the list's lock; there is no room where the list is
/// full.
#[derive(Drop)]
pub struct RequestOnward<N: StoreName, R: Wait + time::Clock + Drop> {
    rt: R,
    alloc: Global,
    list: OpenList<N>,
}

impl<N: StoreName, R: Wait + time::Clock + Drop> RequestOnward<N, R> {
    /// Passes on to the list that this handle keeps open.
    pub(crate) fn new(rt: R, alloc: Global, list: OpenList<N>) -> Self {
        RequestOnward { rt, alloc, list }
    }

    // When the time of a query is over that is passed on now.
    fn end(&self) -> Option<Instant> {
        match Instant::now(&self.rt) {
            Ok(now) => now.checked_add(Duration::from_secs(QUERY_SECONDS)),
            Err(_) => None,
        }
    }

    // What a query is known by.
    fn marks(&self, question: &Question, client: Addr) -> Marks {
        marks_of(self.list.shared().hashers(), question, client)
    }

    // The query of a message, as it waits. All memory that it needs is taken here.
    fn query(
        &self,
        job: &Job,
        question: Question,
        now: u32,
        reader: &PolicyReader<N>,
    ) -> Result<Waiting<N>, AllocError> {
        let marks = self.marks(&question, job.peer.addr);
        let job = job_again(self.alloc, job)?;
        let passed = Passed {
            job,
            question,
            now,
            seen: reader.tell_seen(),
        };
        let passed = Box::new(self.alloc, passed)?;
        Ok(Waiting::new(passed, marks, self.end()))
    }
}

impl<N: StoreName, R: Wait + time::Clock + Drop> Onward<N> for RequestOnward<N, R> {
    ghost passed = { λ _. None };

    fn pass_on(
        &mut self,
        job: &Job,
        question: Question,
        now: u32,
        reader: &PolicyReader<N>,
    ) -> Result<(), AllocError> {
        let query = self.query(job, question, now, reader)?;
        match self.list.shared().put(&self.rt, query) {
            Ok(()) => Ok(()),
            Err(_) => Err(AllocError),
        }
    }
}
