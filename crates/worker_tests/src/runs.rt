//! Runs of a worker over items in a list and out of an inlet.

use crate::cases::{Case, Input, Stream, all_cases};
use crate::messages::POLICY;
use crate::publishing::{publish, whole};
use crate::stores::{Trial, attempt};
use crate::test_inlet::{InletStage, TestItems, items_of};
use crate::workers::{ListWorker, client, job, list_worker};
use dns_name::Octets;
use edge_io::{ListClock, ListSink, ListSource, read_full};
use ip_prefix::Transport;
use policy_publish::{Latest, PolicyReader, Publisher, StoreName};
use rpz_workers::{Item, Items, ListItems, NoGate, NoOnward};
use server_io::{Arrival, ListReplies, Received, SentReply, StreamEnd};
use std::alloc::Global;
use std::collections::VecDeque;
use std::process::Abort;
use std::sync::Wait;

type ListItem<N> = Item<N, ListSource, ListSink>;

type ListReceived = Received<ListSource, ListSink>;

/// Replies in memory.
pub type Kept = ListReplies<ListSource, ListSink>;

/// The two sides of a connection.
pub fn sides<R: Abort>(rt: &R, alloc: Global, stream: &Stream) -> (ListSource, ListSink) {
    let mut bytes = Vec::new(alloc);
    for _ in 0..stream.times {
        bytes.extend_from_slice(stream.bytes).expect(rt, "no error");
    }
    if stream.most == 0 {
        return panic!(rt; "bytes per call");
    }
    let source = ListSource::new(
        bytes,
        stream.most,
        vec![in alloc; stream.failing_read].expect(rt, "no error"),
    );
    let sink = ListSink::new(
        Vec::new(alloc),
        stream.most,
        vec![in alloc; stream.failing_write].expect(rt, "no error"),
    );
    (source, sink)
}

fn connection<N: StoreName, R: Abort>(rt: &R, alloc: Global, stream: &Stream) -> ListItem<N> {
    let (source, sink) = sides(rt, alloc, stream);
    Item::Connection {
        source,
        sink,
        client: client(1),
    }
}

// An item of a case.
fn item<N: StoreName, R: Abort>(
    rt: &R,
    alloc: Global,
    publisher: &Publisher<N>,
    input: &Input,
) -> ListItem<N> {
    match input {
        Input::Job(port, message) => Item::Job(job(rt, alloc, *port, message)),
        Input::Connection(stream) => connection(rt, alloc, stream),
        Input::Told => Item::Told(publisher.tell()),
        Input::Stop => Item::Stop,
    }
}

// The items of a case in a list.
fn listed<N: StoreName, R: Abort>(
    rt: &R,
    alloc: Global,
    publisher: &Publisher<N>,
    inputs: &[Input],
) -> ListItems<N, ListSource, ListSink> {
    let mut items = VecDeque::new(alloc);
    for input in inputs {
        items
            .push_back(item(rt, alloc, publisher, input))
            .expect(rt, "no error");
    }
    ListItems::new(items)
}

// What an inlet does for an item of a case. Where a list is told, it publishes that, and nothing comes.
fn stage<N: StoreName, R: Abort>(
    rt: &R,
    alloc: Global,
    publisher: &Publisher<N>,
    input: &Input,
) -> InletStage<N> {
    let (told, received) = match input {
        Input::Job(port, message) => (None, datagram(rt, alloc, *port, message)),
        Input::Connection(stream) => (None, opened(rt, alloc, stream)),
        Input::Told => (Some(publisher.tell()), Received::Nothing),
        Input::Stop => (None, Received::End),
    };
    InletStage { told, received }
}

fn datagram<R: Abort>(rt: &R, alloc: Global, port: u16, message: &[u8]) -> ListReceived {
    Received::Arrival(Arrival::Datagram {
        peer: client(port),
        bytes: Octets::from_slice(alloc, message).expect(rt, "no error"),
    })
}

fn opened<R: Abort>(rt: &R, alloc: Global, stream: &Stream) -> ListReceived {
    let (source, sink) = sides(rt, alloc, stream);
    Received::Arrival(Arrival::Connection {
        source,
        sink,
        client: client(1),
    })
}

fn stages<N: StoreName, R: Abort>(
    rt: &R,
    alloc: Global,
    publisher: &Publisher<N>,
    inputs: &[Input],
) -> VecDeque<InletStage<N>> {
    let mut stages = VecDeque::new(alloc);
    for input in inputs {
        stages
            .push_back(stage(rt, alloc, publisher, input))
            .expect(rt, "no error");
    }
    stages
}

// The items of a case out of an inlet. What is published comes before the first of them.
fn received<N: StoreName, R: Abort + Wait + Copy + Drop>(
    rt: &R,
    alloc: Global,
    publisher: &Publisher<N>,
    inputs: &[Input],
) -> TestItems<N, R> {
    let latest = Latest::start(alloc, publisher.tell()).expect(rt, "no error");
    let stages = stages(rt, alloc, publisher, inputs);
    items_of(*rt, &latest, stages)
}

// How a connection ended, and what was written to it and left of it, is what is expected.
fn assert_ended<R: Abort>(
    rt: &R,
    source: &mut ListSource,
    sink: &ListSink,
    end: StreamEnd,
    case: &Case,
) {
    assert!(rt; Some(end) == case.end, "{}", case.name);
    assert!(rt; sink.bytes.as_slice() == case.written, "{}", case.name);
    let mut left = [0; 128];
    assert!(rt;
        read_full(source, &mut left).expect(rt, "no error") == case.left,
        "{}",
        case.name
    );
}

// The replies that were sent are those that are expected, over UDP.
fn assert_sent<R: Abort>(rt: &R, sent: &[SentReply], case: &Case) {
    assert!(rt; sent.len() == case.sent.len(), "{}", case.name);
    for (reply, (port, bytes)) in sent.iter().zip(case.sent) {
        assert!(rt; reply.peer == client(*port), "{}", case.name);
        assert!(rt; reply.transport == Transport::Udp, "{}", case.name);
        assert!(rt; reply.bytes.as_slice() == *bytes, "{}", case.name);
    }
}

// The connections that were closed, and what came of the last of them, are what is expected.
fn assert_closed<R: Abort>(rt: &R, replies: &mut Kept, case: &Case) {
    assert!(rt; replies.closed == case.closed, "{}", case.name);
    match &mut replies.last {
        Some((source, sink, end)) => assert_ended(rt, source, sink, *end, case),
        None => {
            assert!(rt; case.end.is_none(), "{}", case.name);
        }
    }
}

// Runs a worker over items, and says what became of the jobs.
fn work_over<N: StoreName, Q: Items<N, ListSource, ListSink>, R: Wait>(
    rt: &R,
    alloc: Global,
    worker: &mut ListWorker<N, NoGate>,
    items: &mut Q,
    replies: &mut Kept,
) -> [u64; 5] {
    let mut clock = ListClock::new(alloc, VecDeque::new(alloc));
    let report = worker.work(rt, items, replies, &mut clock, &mut NoOnward);
    [
        report.jobs,
        report.replies,
        report.silent,
        report.memory,
        report.failed,
    ]
}

// Runs a worker over items, and looks at all that came of it.
fn run_over<N: StoreName, Q: Items<N, ListSource, ListSink>, R: Wait + Abort>(
    rt: &R,
    alloc: Global,
    worker: &mut ListWorker<N, NoGate>,
    items: &mut Q,
    case: &Case,
) {
    let mut replies: Kept = ListReplies::new(
        alloc,
        vec![in alloc; case.failing_send].expect(rt, "no error"),
    );
    let report = work_over(rt, alloc, worker, items, &mut replies);
    assert_report(rt, report, &replies.sent, case);
    assert_closed(rt, &mut replies, case)
}

fn assert_report<R: Abort>(rt: &R, report: [u64; 5], sent: &[SentReply], case: &Case) {
    assert!(rt; report == case.report, "{}", case.name);
    assert_sent(rt, sent, case);
}

// Serves the first connection of a case by itself.
fn serve_alone<N: StoreName, R: Abort>(
    rt: &R,
    alloc: Global,
    worker: &mut ListWorker<N, NoGate>,
    case: &Case,
) {
    let [input] = case.items else {
        return;
    };
    let Input::Connection(stream) = input else {
        return;
    };
    let (mut source, mut sink) = sides(rt, alloc, stream);
    let mut clock = ListClock::new(alloc, VecDeque::new(alloc));
    let end = worker.serve_stream(&mut source, &mut sink, client(1), &mut clock, &mut NoOnward);
    assert_ended(rt, &mut source, &sink, end, case)
}

fn run_listed<N: StoreName, R: Wait + Abort>(
    rt: &R,
    alloc: Global,
    publisher: &Publisher<N>,
    worker: &mut ListWorker<N, NoGate>,
    case: &Case,
) {
    let mut items = listed(rt, alloc, publisher, case.items);
    run_over(rt, alloc, worker, &mut items, case)
}

fn run_received<N: StoreName, R: Wait + Abort + Copy + Drop>(
    rt: &R,
    alloc: Global,
    publisher: &Publisher<N>,
    worker: &mut ListWorker<N, NoGate>,
    case: &Case,
) {
    let mut items = received(rt, alloc, publisher, case.items);
    run_over(rt, alloc, worker, &mut items, case)
}

/// Runs a case over a list and over an inlet.
pub fn run_case<N: StoreName, R: Wait + Abort + Copy + Drop>(
    rt: &R,
    alloc: Global,
    publisher: &Publisher<N>,
    worker: &mut ListWorker<N, NoGate>,
    case: &Case,
) {
    run_listed(rt, alloc, publisher, worker, case);
    run_received(rt, alloc, publisher, worker, case);
    serve_alone(rt, alloc, worker, case)
}

/// Publishes the policy of the cases, with the serial 1.
pub fn load<N: StoreName, R: Wait + Abort>(rt: &R, alloc: Global, publisher: &mut Publisher<N>) {
    let transfer = whole(alloc, 1, &POLICY).expect(rt, "a transfer");
    assert!(rt; publish(rt, publisher, transfer));
}

#[test]
fn a_worker_runs_over_items(rt: HostRuntime) {
    attempt(rt, rt.alloc(), Trial::Runs)
}

/// Each case is run.
pub fn run_all<N: StoreName, R: Wait + Abort + Copy + Drop>(
    rt: &R,
    alloc: Global,
    publisher: &mut Publisher<N>,
    readers: &mut Vec<PolicyReader<N>>,
) {
    load(rt, alloc, publisher);
    let mut worker = list_worker(rt, alloc, readers, Vec::new(alloc), NoGate);
    run_cases(rt, alloc, publisher, &mut worker);
    drop(worker);
}

fn run_cases<N: StoreName, R: Wait + Abort + Copy + Drop>(
    rt: &R,
    alloc: Global,
    publisher: &Publisher<N>,
    worker: &mut ListWorker<N, NoGate>,
) {
    for case in all_cases() {
        run_case(rt, alloc, publisher, worker, case);
    }
}
