//! A worker's answers over a link in memory.

use crate::publishing::{PUBLICATIONS, publish, transfer};
use crate::stores::{Trial, attempt};
use crate::workers::{ListWorker, WorkerOver, job, list_worker, lone_hold, worker_over};
use answer_cache::Keeps;
use dns_name::Octets;
use edge_io::ListLink;
use policy_publish::{PolicyReader, Publisher, StoreName};
use reply_build::Said;
use rpz_workers::{Answered, NoGate};
use std::alloc::Global;
use std::process::Abort;
use std::random::RandomSource;
use std::sync::Wait;

/// The query of the ID 4661 for the address of `x.example`.
pub const QUERY: &[u8] = b"\x12\x35\x01\0\0\x01\0\0\0\0\0\0\x01x\x07example\0\0\x01\0\x01";

/// What the upstream gives for it, in messages of the IDs 1 and 2: 192.0.2.9, with the TTL 60.
pub const FIRST: &[u8] =
    b"\0\x01\x81\x80\0\x01\0\x01\0\0\0\0\x01x\x07example\0\0\x01\0\x01\x01x\x07example\0\0\x01\0\x01\0\0\0\x3c\0\x04\xc0\0\x02\x09";

const SECOND: &[u8] =
    b"\0\x02\x81\x80\0\x01\0\x01\0\0\0\0\x01x\x07example\0\0\x01\0\x01\x01x\x07example\0\0\x01\0\x01\0\0\0\x3c\0\x04\xc0\0\x02\x09";

/// The replies, with the TTLs 60 and 1, and a pointer as the owner of the address.
pub const FRESH: &[u8] =
    b"\x12\x35\x81\x80\0\x01\0\x01\0\0\0\0\x01x\x07example\0\0\x01\0\x01\xc0\x0c\0\x01\0\x01\0\0\0\x3c\0\x04\xc0\0\x02\x09";

const AGED: &[u8] =
    b"\x12\x35\x81\x80\0\x01\0\x01\0\0\0\0\x01x\x07example\0\0\x01\0\x01\xc0\x0c\0\x01\0\x01\0\0\0\x01\0\x04\xc0\0\x02\x09";

// The denial by the rule of the last publication: rcode 3, and in the additional section the SOA of the policy zone, of the serial 1000.
const BY_RULE: &[u8] = b"\x12\x35\x81\x83\0\x01\0\0\0\0\0\x01\x01x\x07example\0\0\x01\0\x01\
    \x03rpz\xc0\x0e\0\x06\0\x01\0\0\0<\0\x16\0\0\0\0\x03\xe8\0\0\x0e\x10\0\0\x02X\0\x01Q\x80\0\0\0<";

// Whether the worker's reply to the query at a given second is this.
fn says<N: StoreName, A: Keeps<ListLink> + Drop, R: Abort>(
    rt: &R,
    alloc: Global,
    worker: &mut WorkerOver<N, A, NoGate>,
    now: u32,
    reply: &[u8],
) -> bool {
    let job = job(rt, alloc, 53_000, QUERY);
    match worker.answer(&job, now).expect(rt, "no error") {
        Answered::Said(Said::Reply(bytes)) => bytes.as_slice() == reply,
        _ => false,
    }
}

#[test]
fn a_query_is_answered_by_link_cache_and_rule(rt: HostRuntime) {
    attempt(rt, rt.alloc(), Trial::Answers)
}

/// Asked of the link at the second 100, answered by the cache at 159, asked again at 160, over a cache that workers share and over one
/// of the worker's own; and then by the rule of which the worker is told, while the answer is still cached.
pub fn answer_all<N: StoreName, R: Wait + RandomSource + Abort + Copy + Drop>(
    rt: &R,
    alloc: Global,
    publisher: &mut Publisher<N>,
    readers: &mut Vec<PolicyReader<N>>,
) {
    answer_over_common(rt, alloc, readers);
    let mut worker = list_worker(rt, alloc, readers, messages(rt, alloc), NoGate);
    answer_by_turns(rt, alloc, publisher, &mut worker);
    drop(worker);
}

fn answer_over_common<N: StoreName, R: Wait + RandomSource + Abort + Copy + Drop>(
    rt: &R,
    alloc: Global,
    readers: &mut Vec<PolicyReader<N>>,
) {
    let messages = messages(rt, alloc);
    let hold = lone_hold(*rt, alloc);
    let mut worker = worker_over(rt, alloc, readers, hold, messages, NoGate);
    answer_by_link_and_cache(rt, alloc, &mut worker);
    drop(worker);
}

// What the link gives.
fn messages<R: Abort>(rt: &R, alloc: Global) -> Vec<Octets> {
    let mut messages = Vec::new(alloc);
    for message in [FIRST, SECOND] {
        messages
            .push(Octets::from_slice(alloc, message).expect(rt, "no error"))
            .expect(rt, "no error");
    }
    messages
}

fn answer_by_turns<N: StoreName, R: Wait + Abort>(
    rt: &R,
    alloc: Global,
    publisher: &mut Publisher<N>,
    worker: &mut ListWorker<N, NoGate>,
) {
    answer_by_link_and_cache(rt, alloc, worker);
    publish_rule(rt, alloc, publisher);
    worker.learn(publisher.tell());
    assert!(rt; says(rt, alloc, worker, 161, BY_RULE));
}

fn answer_by_link_and_cache<N: StoreName, A: Keeps<ListLink> + Drop, R: Abort>(
    rt: &R,
    alloc: Global,
    worker: &mut WorkerOver<N, A, NoGate>,
) {
    for (now, reply) in [(100, FRESH), (159, AGED), (160, FRESH)] {
        assert!(rt; says(rt, alloc, worker, now, reply), "at {now}");
    }
}

fn publish_rule<N: StoreName, R: Wait + Abort>(
    rt: &R,
    alloc: Global,
    publisher: &mut Publisher<N>,
) {
    let transfer = transfer(alloc, PUBLICATIONS).expect(rt, "a transfer");
    assert!(rt; publish(rt, publisher, transfer));
}
