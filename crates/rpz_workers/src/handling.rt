//! Items, handled one after another.

ghost use Rattle.std.specs.Prelude.{◌≡◌, ◌≤◌, ◌+◌, ◌-◌, ◌^◌, min};
ghost use Rattle.edge_io.specs.Edge.{Rose};
ghost use Rattle.rpz_workers.specs.Handling.{Handles, HandlesJob, Sends, stream_views, took_over as took_over_of, worker_state};
ghost use Rattle.rpz_workers.specs.Reports.{counts_of};
ghost use Rattle.rpz_workers.specs.Working.{Works, run_state};

use crate::asks::Asks;
use crate::bare_reply::bare_reply;
use crate::count::{count, nothing_done};
use crate::item::{Item, Items, Job};
use crate::onward::Onward;
use crate::outcome::Outcome;
use crate::report::Report;
use crate::took::Took;
use crate::worker::Worker;
use answer_cache::Keeps;
use edge_io::{Clock, Link, Sink, Source};
use ip_prefix::Transport;
use policy_publish::StoreName;
use reply_build::Said;
use server_io::{Peer, Replies, SendError};
use std::sync::Wait;

// Sends the reply to a message over its transport, where there is one here, and says what became of the message.
fn send_reply<S: Source, K: Sink, P: Replies<S, K>>(
    replies: &mut P,
    peer: Peer,
    transport: Transport,
    message: &[u8],
    what: &Outcome,
) -> Took
    ensures sends { Sends peer transport message.now what.now result (P.sent replies.old)
        (P.sent replies.new) }
    ensures closings { P.closings replies.new ≡ P.closings replies.old }
    ensures count { P.faults replies.old ≤ P.faults replies.new }
    ensures failed { result ≡ Took.Failed → Rose (P.faults replies.old) (P.faults replies.new) }
{
    match what {
        Outcome::PassedOn => Took::PassedOn,
        Outcome::Said(said) => match said {
            Said::Silent => Took::Silent,
            Said::Reply(bytes) => match replies.send(peer, transport, bytes.as_slice()) {
                Ok(()) => Took::Reply,
                Err(SendError::Failed) => Took::Failed,
                Err(SendError::OutOfMemory) => Took::Memory,
            },
        },
        Outcome::NoMemory => match bare_reply(message) {
            None => Took::Memory,
            Some(bytes) => match replies.send(peer, transport, &bytes) {
                Err(SendError::Failed) => Took::Failed,
                Ok(()) | Err(SendError::OutOfMemory) => Took::Memory,
            },
        },
    }
}

// What an item comes to whose message came over this transport: no job counts one of a connection.
fn took_over(transport: Transport, took: Took) -> Took
    ensures { result ≡ took_over_of transport took }
{
    match transport {
        Transport::Udp => took,
        Transport::Tcp => match took {
            Took::PassedOn => Took::PassedOn,
            _ => Took::Framed,
        },
    }
}

impl<N: StoreName, L: Link + Drop, A: Keeps<L> + Drop, B: Asks<L> + Drop> Worker<N, L, A, B> {
    // Answers a job, or passes it on.
    fn take_job<S: Source, K: Sink, P: Replies<S, K>, C: Clock, O: Onward<N>>(
        &mut self,
        job: &Job,
        replies: &mut P,
        clock: &mut C,
        onward: &mut O,
    ) -> Took
        ensures { HandlesJob N.store L.gave B.passes_on job.now
            (worker_state self.old (C.moments clock.old) (O.passed onward.old)
            (P.sent replies.old) (P.closings replies.old) (P.faults replies.old))
            result
            (worker_state self.new (C.moments clock.new) (O.passed onward.new)
            (P.sent replies.new) (P.closings replies.new) (P.faults replies.new)) }
    {
        let now = clock.now();
        let what = self.settle(job, now, onward);
        let became = send_reply(
            replies,
            job.peer,
            job.transport,
            job.message.as_slice(),
            &what,
        );
        took_over(job.transport, became)
    }

    /// Handles an item: answers a job or passes it on, serves and closes a connection, learns what is told. A job or a message of a
    /// connection is answered at the second that the clock gives for it. A worker that asks the upstream passes nothing on.
    pub fn take<S: Source + Drop, K: Sink + Drop, P: Replies<S, K>, C: Clock, O: Onward<N>>(
        &mut self,
        item: Item<N, S, K>,
        replies: &mut P,
        clock: &mut C,
        onward: &mut O,
    ) -> Took
        ensures { Handles N.store L.gave B.passes_on
            (stream_views S.left S.faults K.held K.faults)
            (worker_state self.old (C.moments clock.old) (O.passed onward.old)
            (P.sent replies.old) (P.closings replies.old) (P.faults replies.old))
            item result
            (worker_state self.new (C.moments clock.new) (O.passed onward.new)
            (P.sent replies.new) (P.closings replies.new) (P.faults replies.new)) }
    {
        match item {
            Item::Job(job) => self.take_job(&job, replies, clock, onward),
            Item::Connection {
                mut source,
                mut sink,
                client,
            } => {
                let end = self.serve_stream(&mut source, &mut sink, client, clock, onward);
                replies.close(source, sink, end);
                Took::Closed
            }
            Item::Told(told) => {
                self.learn(told);
                Took::Learnt
            }
            Item::Stop => Took::Stop,
        }
    }

    /// Handles items up to `Stop`, and says what became of the jobs. It waits for items, so it may never return.
    pub fn work<
        S: Source + Drop,
        K: Sink + Drop,
        Q: Items<N, S, K>,
        P: Replies<S, K>,
        C: Clock,
        O: Onward<N>,
        R: Wait,
    >(&mut self, rt: &R, items: &mut Q, replies: &mut P, clock: &mut C, onward: &mut O) -> Report
        ensures works { Works N.store L.gave B.passes_on
            (stream_views S.left S.faults K.held K.faults)
            (run_state (Q.coming items.old)
            (worker_state self.old (C.moments clock.old) (O.passed onward.old)
            (P.sent replies.old) (P.closings replies.old) (P.faults replies.old)))
            (counts_of result)
            (run_state (Q.coming items.new)
            (worker_state self.new (C.moments clock.new) (O.passed onward.new)
            (P.sent replies.new) (P.closings replies.new) (P.faults replies.new))) }
        ensures failed { min (P.faults replies.old + result.failed) (2 ^ 64 - 1)
            ≤ P.faults replies.new }
    {
        let mut report = nothing_done();
        for _ in rt.forever() {
            match self.take(items.next(), replies, clock, onward) {
                Took::Stop => return report,
                took => report = count(report, took),
            }
        }
        unreachable!()
    }
}
