//! Workers that ask nobody: what their cache answers, and what they pass on.

use crate::answers::{FIRST, FRESH, QUERY};
use crate::asserts::assert_same;
use crate::cases::{STREAM, Stream};
use crate::messages::{ASKED, ASKED_AND_UNSERVED, ONE_REPLY};
use crate::runs::{Kept, load, sides};
use crate::stores::{Trial, attempt};
use crate::workers::{Hold, WorkerOver, client, common_cache, job_over, lone_hold, worker_over};
use answer_cache::Shared;
use dns_message::{KNOWN_KEY, Question};
use dns_name::Octets;
use dns_record::{class, rtype};
use edge_io::{ListClock, ListLink, ListSink, ListSource};
use ip_prefix::Transport;
use policy_publish::{PolicyReader, Publisher, StoreName};
use reply_build::Said;
use rpz_workers::{Answered, AsksNobody, Item, Job, ListOnward, NoGate, Passed, Took, Worker};
use server_io::{ListReplies, SentReply, StreamEnd};
use std::alloc::Global;
use std::collections::VecDeque;
use std::process::Abort;
use std::random::RandomSource;
use std::sync::{Arc, Wait};

// The octets of the name `x.example`.
const X: &[u8] = b"\x01x\x07example\0";

// The reply to a query of the ID 4444 for which there is no room: QR, RD and RA 1, rcode 2, and no question.
const BARE: &[u8] = b"\x44\x44\x81\x82\0\0\0\0\0\0\0\0";

// A worker that asks nobody, over a cache that is shared.
type Passing<N, R> = Worker<N, ListLink, Hold<R>, AsksNobody>;

// A worker that asks a link, over the same.
type Asking<N, R> = WorkerOver<N, Hold<R>, NoGate>;

fn passing<N: StoreName, R: Abort + Wait + Drop>(
    rt: &R,
    alloc: Global,
    readers: &mut Vec<PolicyReader<N>>,
    hold: Hold<R>,
) -> Passing<N, R> {
    match readers.pop() {
        Some(reader) => Worker::passing_on(alloc, KNOWN_KEY, reader, hold),
        None => {
            drop(hold);
            panic!(rt; "a reader")
        }
    }
}

// A clock that gives this second first.
fn clock_at<R: Abort>(rt: &R, alloc: Global, now: u32) -> ListClock {
    let mut moments = VecDeque::new(alloc);
    moments.push_back(now).expect(rt, "no error");
    ListClock::new(alloc, moments)
}

// What became of a message that came over this transport at the second 100; `None` where anything but this reply was sent for it.
fn taken<N: StoreName, R: Abort + Wait + Drop>(
    rt: &R,
    alloc: Global,
    worker: &mut Passing<N, R>,
    transport: Transport,
    message: &[u8],
    reply: Option<&[u8]>,
    onward: &mut ListOnward<N>,
) -> Option<Took> {
    let mut clock = clock_at(rt, alloc, 100);
    let item: Item<N, ListSource, ListSink> = Item::Job(job_over(rt, alloc, transport, 1, message));
    let mut replies: Kept = ListReplies::new(alloc, Vec::new(alloc));
    let took = worker.take(item, &mut replies, &mut clock, onward);
    if is_sent(&replies.sent, transport, reply) {
        Some(took)
    } else {
        None
    }
}

// One reply was sent over this transport, with these bytes, or none.
fn is_sent(sent: &[SentReply], transport: Transport, bytes: Option<&[u8]>) -> bool {
    match (sent, bytes) {
        ([], None) => true,
        ([reply], Some(bytes)) => {
            reply.peer == client(1)
                && reply.transport == transport
                && reply.bytes.as_slice() == bytes
        }
        _ => false,
    }
}

// The question is the one for the address of `x.example`.
fn is_asked(question: &Question) -> bool {
    question.name.octets() == X && question.qtype == rtype::A && question.qclass == class::IN
}

#[test]
fn a_worker_answers_from_the_cache_or_passes_on(rt: HostRuntime) {
    attempt(rt, rt.alloc(), Trial::Passing)
}

/// Over an empty cache a message is passed on. Another worker learns the list that was seen, and asks; then the cache answers.
pub fn pass_all<N: StoreName, R: Wait + RandomSource + Abort + Copy + Drop>(
    rt: &R,
    alloc: Global,
    publisher: &mut Publisher<N>,
    readers: &mut Vec<PolicyReader<N>>,
) {
    load(rt, alloc, publisher);
    let cache = common_cache(rt, alloc);
    let hold = Shared::new(*rt, Arc::try_clone(&cache).expect(rt, "no error"));
    let messages = vec![in alloc; Octets::from_slice(alloc, FIRST).expect(rt, "no error")].expect(
        rt, "no error",
    );
    let mut asking = worker_over(rt, alloc, readers, hold, messages, NoGate);
    pass_to(rt, alloc, readers, Shared::new(*rt, cache), &mut asking);
    drop(asking);
}

fn pass_to<N: StoreName, R: Wait + Abort + Drop>(
    rt: &R,
    alloc: Global,
    readers: &mut Vec<PolicyReader<N>>,
    hold: Hold<R>,
    asking: &mut Asking<N, R>,
) {
    let mut passing = passing(rt, alloc, readers, hold);
    let mut onward = ListOnward::new(alloc, Vec::new(alloc));
    pass_and_answer(rt, alloc, &mut passing, asking, &mut onward);
    drop(passing);
    drop(onward);
}

fn pass_and_answer<N: StoreName, R: Wait + Abort + Drop>(
    rt: &R,
    alloc: Global,
    passing: &mut Passing<N, R>,
    asking: &mut Asking<N, R>,
    onward: &mut ListOnward<N>,
) {
    let took = taken(rt, alloc, passing, Transport::Udp, QUERY, None, onward);
    assert_same(rt, took, Some(Took::PassedOn));
    assert!(rt; are_answered(rt, asking, &onward.passed));
    let took = taken(
        rt,
        alloc,
        passing,
        Transport::Udp,
        QUERY,
        Some(FRESH),
        onward,
    );
    assert_same(rt, took, Some(Took::Reply));
    assert_same(rt, onward.passed.len(), 1);
}

// Whether the query alone was passed on, and this worker answers it once it knows the list that was seen.
fn are_answered<N: StoreName, R: Abort + Wait + Drop>(
    rt: &R,
    asking: &mut Asking<N, R>,
    passed: &[Passed<N>],
) -> bool {
    let [one] = passed else {
        return false;
    };
    asking.learn(one.seen.again());
    is_query(one) && is_fresh(rt, asking, &one.job)
}

// The query was passed on, at the second 100.
fn is_query<N: StoreName>(passed: &Passed<N>) -> bool {
    passed.job.message.as_slice() == QUERY && is_asked(&passed.question) && passed.now == 100
}

// Whether the reply to a message at the second 100 is the fresh one.
fn is_fresh<N: StoreName, R: Abort + Wait + Drop>(
    rt: &R,
    asking: &mut Asking<N, R>,
    job: &Job,
) -> bool {
    match asking.answer(job, 100).expect(rt, "no error") {
        Answered::Said(Said::Reply(bytes)) => bytes.as_slice() == FRESH,
        _ => false,
    }
}

// A worker that asks nobody, over a cache that nobody else uses.
fn lone_passing<N: StoreName, R: Abort + Wait + RandomSource + Copy + Drop>(
    rt: &R,
    alloc: Global,
    readers: &mut Vec<PolicyReader<N>>,
) -> Passing<N, R> {
    passing(rt, alloc, readers, lone_hold(*rt, alloc))
}

#[test]
fn a_message_without_room_gets_servfail(rt: HostRuntime) {
    attempt(rt, rt.alloc(), Trial::NoRoom)
}

/// Where there is no room to pass a message on, its reply is a header alone, with rcode 2, and goes out over its transport.
pub fn refuse_one<N: StoreName, R: Wait + RandomSource + Abort + Copy + Drop>(
    rt: &R,
    alloc: Global,
    readers: &mut Vec<PolicyReader<N>>,
) {
    let failing = vec![in alloc; 0].expect(rt, "no error");
    let mut passing = lone_passing(rt, alloc, readers);
    let mut onward = ListOnward::new(alloc, failing);
    assert_refused(rt, alloc, &mut passing, &mut onward);
    drop(passing);
    drop(onward);
}

fn assert_refused<N: StoreName, R: Wait + Abort + Drop>(
    rt: &R,
    alloc: Global,
    passing: &mut Passing<N, R>,
    onward: &mut ListOnward<N>,
) {
    let took = taken(
        rt,
        alloc,
        passing,
        Transport::Tcp,
        ASKED,
        Some(BARE),
        onward,
    );
    // no job counts a message of a connection
    assert_same(rt, took, Some(Took::Framed));
    assert!(rt; onward.passed.is_empty());
}

#[test]
fn a_connection_goes_on_behind_what_is_passed_on(rt: HostRuntime) {
    attempt(rt, rt.alloc(), Trial::PassingStream)
}

/// Nothing is written for a message of a connection that is passed on, as one over TCP, and the next one is answered.
pub fn pass_one_of_two<N: StoreName, R: Wait + RandomSource + Abort + Copy + Drop>(
    rt: &R,
    alloc: Global,
    readers: &mut Vec<PolicyReader<N>>,
) {
    let (mut source, mut sink) = sides(
        rt,
        alloc,
        &Stream {
            bytes: ASKED_AND_UNSERVED,
            ..STREAM
        },
    );
    let mut passing = lone_passing(rt, alloc, readers);
    let mut onward = ListOnward::new(alloc, Vec::new(alloc));
    let mut clock = ListClock::new(alloc, VecDeque::new(alloc));
    let end = passing.serve_stream(&mut source, &mut sink, client(1), &mut clock, &mut onward);
    assert_served(rt, end, &onward.passed, &sink.bytes);
    drop(passing);
    drop(onward);
}

fn assert_served<N: StoreName, R: Abort>(
    rt: &R,
    end: StreamEnd,
    passed: &[Passed<N>],
    written: &[u8],
) {
    assert_same(rt, end, StreamEnd::End);
    assert!(rt; is_over_tcp(passed));
    assert_same(rt, written, ONE_REPLY);
}

// One message of the client was passed on, which came over TCP.
fn is_over_tcp<N: StoreName>(passed: &[Passed<N>]) -> bool {
    match passed {
        [one] => one.job.peer == client(1) && one.job.transport == Transport::Tcp,
        _ => false,
    }
}
