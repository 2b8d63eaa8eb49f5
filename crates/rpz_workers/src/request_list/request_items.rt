//! Queries of the request list, as items of a worker that asks.

ghost use Rattle.std.specs.Prelude.{None};

use crate::item::{Item, Items, Job};
use crate::list_onward::Passed;
use crate::request_list::limits::{IDLE_SECONDS, JOSTLE_MILLISECONDS, QUERY_SECONDS};
use crate::request_list::list::SharedList;
use crate::request_list::list_state::Taken;
use edge_io::{Deadline, Sink, Source};
use policy_publish::{Latest, StoreName, Told};
use std::alloc::Global;
use std::sync::{Arc, Wait};
use std::time;
use std::time::{Duration, Instant};

// What an asker finds.
#[derive(Drop)]
enum Found<N: StoreName> {
    // A list of transfers that is to be learned: that of the worker which passed a query on, or the one that was published last.
    Told(Told<N>),
    // Nothing. With this count it may sleep.
    Nothing(u64),
    // Nothing comes any more.
    End,
}

/// Queries out of a request list, of which contracts know nothing. Before a query comes the list of transfers that the worker had seen
/// which passed it on. Where nothing comes for [`IDLE_SECONDS`](crate::IDLE_SECONDS), the list that was published last comes, unless the
/// worker has learned it. A list on which nobody passes on any more, and where nothing waits, reads as `Stop`. An asker is done with a
/// query when it asks for what follows, or when it ends.
pub struct RequestItems<N: StoreName, R: Wait + time::Clock + Copy + Drop> {
    rt: R,
    list: Arc<SharedList<N>, Global>,
    asker: usize,
    latest: Latest<N>,
    deadline: Deadline,
    // The query that comes behind the list of transfers.
    taken: Option<Job>,
    // Whether it counts as asleep.
    is_asleep: bool,
}

impl<N: StoreName, R: Wait + time::Clock + Copy + Drop> Drop for RequestItems<N, R> {
    fn drop(self) {
        let RequestItems {
            rt,
            list,
            asker,
            latest: _latest,
            deadline: _deadline,
            taken: _taken,
            is_asleep,
        } = self;
        list.leave(&rt, asker, is_asleep);
    }
}

// The earlier of two moments, where they are known.
fn earlier(a: Option<Instant>, b: Option<Instant>) -> Option<Instant> {
    match (a, b) {
        (Some(a), Some(b)) => Some(a.min(b)),
        (None, end) | (end, None) => end,
    }
}

// When the time of a query is over that is taken at this moment.
fn end_of(end: Option<Instant>, is_crowded: bool, now: Option<Instant>) -> Option<Instant> {
    let now = now?;
    let whole = match end {
        Some(end) => Some(end),
        None => now.checked_add(Duration::from_secs(QUERY_SECONDS)),
    };
    if is_crowded {
        earlier(
            whole,
            now.checked_add(Duration::from_millis(JOSTLE_MILLISECONDS)),
        )
    } else {
        whole
    }
}

impl<N: StoreName, R: Wait + time::Clock + Copy + Drop> RequestItems<N, R> {
    /// The items of the asker of this number.
    pub(crate) fn new(
        rt: R,
        list: Arc<SharedList<N>, Global>,
        asker: usize,
        latest: Latest<N>,
        deadline: Deadline,
    ) -> Self {
        RequestItems {
            rt,
            list,
            asker,
            latest,
            deadline,
            taken: None,
            is_asleep: false,
        }
    }

    // Sets the end of the time of a query that was taken at this moment, and keeps its job, which comes behind its list.
    fn begin(&mut self, taken: Taken<N>, now: Option<Instant>) -> Told<N> {
        let Taken {
            passed,
            end,
            is_crowded,
        } = taken;
        if let Some(end) = end_of(end, is_crowded, now) {
            self.deadline.set(end);
        }
        let Passed {
            job,
            question: _question,
            now: _now,
            seen,
        } = Box::into_inner(passed);
        self.taken = Some(job);
        seen
    }

    // Looks once for a query. The end and the count are read before, so that neither can come between.
    fn look(&mut self) -> Found<N> {
        let has_ended = self.list.has_ended();
        let count = self.list.woken().count();
        let now = Instant::now(&self.rt).ok();
        let turn = self.list.turn(&self.rt, self.asker, self.is_asleep, now);
        match turn.taken {
            Some(taken) => {
                self.is_asleep = false;
                Found::Told(self.begin(taken, now))
            }
            None => {
                self.is_asleep = true;
                if has_ended && turn.is_empty {
                    Found::End
                } else {
                    Found::Nothing(count)
                }
            }
        }
    }

    // Looks until something is found that an item is made of; `None` at the end.
    fn find(&mut self) -> Option<Told<N>> {
        let rt = self.rt;
        let mut has_slept = false;
        for _ in rt.forever() {
            match self.look() {
                Found::Told(told) => return Some(told),
                Found::End => return None,
                Found::Nothing(count) => {
                    if has_slept {
                        if let Some(told) = self.latest.newer(&rt) {
                            return Some(told);
                        }
                    }
                    has_slept = true;
                    let most = Duration::from_secs(IDLE_SECONDS);
                    self.list.woken().sleep(&rt, count, most);
                }
            }
        }
        unreachable!()
    }
}

impl<N: StoreName, S: Source + Drop, K: Sink + Drop, R: Wait + time::Clock + Copy + Drop> Items<
    N,
    S,
    K,
> for RequestItems<N, R> {
    ghost coming = { λ _. None };

    fn next(&mut self) -> Item<N, S, K> {
        if let Some(job) = self.taken.take() {
            return Item::Job(job);
        }
        match self.find() {
            Some(told) => Item::Told(told),
            None => Item::Stop,
        }
    }
}
