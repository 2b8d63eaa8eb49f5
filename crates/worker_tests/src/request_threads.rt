//! The request list among threads.

use crate::asserts::assert_same;
use crate::requests::{asker, open_list, query, question};
use crate::stores::{Trial, attempt};
use edge_io::{ListSink, ListSource};
use ip_prefix::Addr;
use policy_publish::{Latest, PolicyReader, Publisher, StoreName};
use rpz_workers::{Item, Items, Onward, RequestItems, RequestList, RequestOnward};
use std::alloc::Global;
use std::process::Abort;
use std::random::RandomSource;
use std::sync::Wait;
use std::thread;
use std::thread::{JoinHandle, Threads};
use std::time::{Clock, Duration, Instant};

// How many queries each of two threads passes on.
const QUERIES: u32 = 10_000;

const ASKERS: usize = 8;

// Names of questions, of which some are asked for more often.
const NAMES: [&[u8]; 8] = [
    b"a.one", b"b.one", b"c.two", b"d.two", b"e.three", b"f.four", b"g.four", b"g.four",
];

// How many queries were passed on or taken, and the sum of their numbers.
type Totals = (u32, u64);

// Passes a query on, and tries again where there is no room, so often at most.
fn pass_one<N: StoreName, R: Wait + Clock + Copy + Drop>(
    rt: &R,
    alloc: Global,
    onward: &mut RequestOnward<N, R>,
    reader: &PolicyReader<N>,
    number: u32,
) -> Option<()> {
    let job = query(alloc, 1, Addr::V4(number), 40)?;
    for _ in 0..10_000 {
        let question = question(alloc, NAMES[(number % 8) as usize])?;
        if onward.pass_on(&job, question, 100, reader).is_ok() {
            return Some(());
        }
        thread::sleep(rt, Duration::from_millis(1));
    }
    None
}

// Passes on all queries from this number on.
fn pass_from<N: StoreName, R: Wait + Clock + Copy + Drop>(
    rt: &R,
    alloc: Global,
    onward: &mut RequestOnward<N, R>,
    reader: &PolicyReader<N>,
    first: u32,
) -> Totals {
    let mut totals: Totals = (0, 0);
    for count in 0..QUERIES {
        let number = first.saturating_add(count);
        if pass_one(rt, alloc, onward, reader, number).is_some() {
            totals = more(totals, number);
        }
    }
    totals
}

fn more(totals: Totals, number: u32) -> Totals {
    (
        totals.0.saturating_add(1),
        totals.1.saturating_add(u64::from(number)),
    )
}

fn both(a: Totals, b: Totals) -> Totals {
    (a.0.saturating_add(b.0), a.1.saturating_add(b.1))
}

// Takes all queries up to the end.
fn take_all<N: StoreName, R: Wait, Q: Items<N, ListSource, ListSink>>(
    rt: &R,
    items: &mut Q,
) -> Totals {
    let mut totals: Totals = (0, 0);
    for _ in rt.forever() {
        match items.next() {
            Item::Job(job) => {
                if let Addr::V4(number) = job.peer.addr {
                    totals = more(totals, number);
                }
            }
            Item::Stop => return totals,
            _ => {}
        }
    }
    unreachable!()
}

fn start_asker<
    N: StoreName + Send + Sync + 'static,
    R: Abort + Threads + Wait + Clock + Copy + Drop + Send + Sync + 'static,
>(rt: R, mut items: RequestItems<N, R>) -> JoinHandle<Totals> {
    thread::spawn(&rt, move || take_all(&rt, &mut items)).expect(&rt, "no error")
}

fn start_passing<
    N: StoreName + Send + Sync + 'static,
    R: Abort + Threads + Wait + Clock + Copy + Drop + Send + Sync + 'static,
>(
    rt: R,
    alloc: Global,
    mut onward: RequestOnward<N, R>,
    reader: PolicyReader<N>,
    first: u32,
) -> JoinHandle<Totals> {
    thread::spawn(&rt, move || {
        pass_from(&rt, alloc, &mut onward, &reader, first)
    })
    .expect(&rt, "no error")
}

// Starts the askers.
fn start_askers<
    N: StoreName + Send + Sync + 'static,
    R: Abort + Threads + Wait + Clock + Copy + Drop + Send + Sync + 'static,
>(
    rt: R,
    alloc: Global,
    list: &RequestList<N>,
    latest: &Latest<N>,
    threads: &mut Vec<JoinHandle<Totals>>,
) {
    for _ in 0..ASKERS {
        let (items, _deadline) = asker(&rt, alloc, list, latest);
        threads.push(start_asker(rt, items)).expect(&rt, "no error");
    }
}

// Starts a thread that passes on, for each reader.
fn start_all_passing<
    N: StoreName + Send + Sync + 'static,
    R: Abort + Threads + Wait + Clock + Copy + Drop + Send + Sync + 'static,
>(
    rt: R,
    alloc: Global,
    list: &RequestList<N>,
    readers: &mut Vec<PolicyReader<N>>,
    threads: &mut Vec<JoinHandle<Totals>>,
) {
    for first in [0, QUERIES] {
        let reader = readers.pop().expect(&rt, "a reader");
        let onward = list.onward(rt, alloc).expect(&rt, "no error");
        threads
            .push(start_passing(rt, alloc, onward, reader, first))
            .expect(&rt, "no error");
    }
}

fn join_all<R: Threads>(rt: &R, threads: Vec<JoinHandle<Totals>>) -> Totals {
    let mut totals: Totals = (0, 0);
    for thread in threads {
        totals = both(totals, thread.join(rt));
    }
    totals
}

#[test]
fn no_query_is_lost_among_threads(rt: HostRuntime) {
    attempt(rt, rt.alloc(), Trial::RequestThreads)
}

/// Two threads pass on 20,000 queries, and eight take each of them once. Then these end, without sleeping first.
pub fn pass_among<
    N: StoreName + Send + Sync + 'static,
    R: Threads + Wait + Abort + Clock + RandomSource + Copy + Drop + Send + Sync + 'static,
>(rt: &R, alloc: Global, publisher: &Publisher<N>, readers: &mut Vec<PolicyReader<N>>) {
    let latest = Latest::start(alloc, publisher.tell()).expect(rt, "no error");
    let list = open_list(rt, alloc, ASKERS);
    let mut askers = Vec::new(alloc);
    let mut passing = Vec::new(alloc);
    start_askers(*rt, alloc, &list, &latest, &mut askers);
    start_all_passing(*rt, alloc, &list, readers, &mut passing);
    drop(list);
    let passed = join_all(rt, passing);
    let over = Instant::now(rt).expect(rt, "no error");
    let taken = join_all(rt, askers);
    assert_same(rt, passed, (20_000, 199_990_000));
    assert_same(rt, taken, passed);
    // an asker that isn't woken sleeps for 5 seconds
    assert!(rt; over.elapsed(rt).expect(rt, "no error") < Duration::from_secs(4));
}
