//! A worker as a task.

use crate::asks::Asks;
use crate::item::Items;
use crate::onward::Onward;
use crate::report::Report;
use crate::worker::Worker;
use answer_cache::Keeps;
use edge_io::{Clock, Link, Sink, Source, Task};
use policy_publish::StoreName;
use server_io::Replies;
use std::marker::PhantomData;
use std::sync::Wait;

/// A worker as a task, with its items, the places where its replies go and where it passes messages on, and its clock.
#[derive(Drop)]
pub struct ServeTask<
    N: StoreName,
    L: Link + Drop,
    A: Keeps<L> + Drop,
    B: Asks<L> + Drop,
    S: Source + Drop,
    K: Sink + Drop,
    Q: Items<N, S, K> + Drop,
    P: Replies<S, K> + Drop,
    C: Clock + Drop,
    O: Onward<N> + Drop,
    R: Wait + Drop,
> {
    rt: R,
    worker: Worker<N, L, A, B>,
    items: Q,
    replies: P,
    clock: C,
    onward: O,
    streams: PhantomData<(S, K)>,
}

impl<
    N: StoreName,
    L: Link + Drop,
    A: Keeps<L> + Drop,
    B: Asks<L> + Drop,
    S: Source + Drop,
    K: Sink + Drop,
    Q: Items<N, S, K> + Drop,
    P: Replies<S, K> + Drop,
    C: Clock + Drop,
    O: Onward<N> + Drop,
    R: Wait + Drop,
> ServeTask<N, L, A, B, S, K, Q, P, C, O, R> {
    /// The run of this worker over these.
    pub fn new(
        rt: R,
        worker: Worker<N, L, A, B>,
        items: Q,
        replies: P,
        clock: C,
        onward: O,
    ) -> Self {
        ServeTask {
            rt,
            worker,
            items,
            replies,
            clock,
            onward,
            streams: PhantomData,
        }
    }
}

impl<
    N: StoreName,
    L: Link + Drop,
    A: Keeps<L> + Drop,
    B: Asks<L> + Drop,
    S: Source + Drop,
    K: Sink + Drop,
    Q: Items<N, S, K> + Drop,
    P: Replies<S, K> + Drop,
    C: Clock + Drop,
    O: Onward<N> + Drop,
    R: Wait + Drop,
> Task<Report> for ServeTask<N, L, A, B, S, K, Q, P, C, O, R> {
    ghost use Rattle.rpz_workers.specs.Handling.{stream_views, worker_state};
    ghost use Rattle.rpz_workers.specs.Reports.{counts_of};
    ghost use Rattle.rpz_workers.specs.Working.{EndsRun, run_state};

    ghost ends = { λ task report. EndsRun N.store L.gave B.passes_on
        (stream_views S.left S.faults K.held K.faults)
        (run_state (Q.coming task.items)
        (worker_state task.worker (C.moments task.clock) (O.passed task.onward)
        (P.sent task.replies) (P.closings task.replies) (P.faults task.replies)))
        (counts_of report) };

    fn run(self) -> Report {
        let ServeTask {
            rt,
            mut worker,
            mut items,
            mut replies,
            mut clock,
            mut onward,
            streams: _,
        } = self;
        worker.work(&rt, &mut items, &mut replies, &mut clock, &mut onward)
    }
}
