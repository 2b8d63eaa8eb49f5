//! The request list: room, time and its end.

use crate::asserts::assert_same;
use crate::requests::{asker, is_passed, open_list, query, taken};
use crate::stores::{Trial, attempt};
use edge_io::{Deadline, ListSink, ListSource};
use ip_prefix::Addr;
use policy_publish::{Latest, PolicyReader, Publisher, StoreName};
use rpz_workers::{Item, Items, RequestItems, RequestOnward, WAITING_QUERIES};
use std::alloc::Global;
use std::process::Abort;
use std::random::RandomSource;
use std::sync::Wait;
use std::thread;
use std::time::{Clock, Duration, Instant};

const CLIENT: Addr = Addr::V4(0xc000_0201);

// Whether a query with a message of so many octets is taken.
fn is_taken<N: StoreName, R: Wait + Clock + Drop>(
    alloc: Global,
    onward: &mut RequestOnward<N, R>,
    reader: &PolicyReader<N>,
    name: &[u8],
    octets: usize,
) -> bool {
    match query(alloc, 1, CLIENT, octets) {
        Some(job) => is_passed(alloc, onward, reader, &job, name),
        None => false,
    }
}

// How many of so many queries with messages of this length are taken by an empty list.
fn taken_of<N: StoreName, R: Abort + Wait + Clock + RandomSource + Copy + Drop>(
    rt: &R,
    alloc: Global,
    reader: &PolicyReader<N>,
    queries: usize,
    octets: usize,
) -> usize {
    let list = open_list(rt, alloc, 2);
    let mut onward = list.onward(*rt, alloc).expect(rt, "no error");
    let mut count: usize = 0;
    for _ in 0..queries {
        if is_taken(alloc, &mut onward, reader, b"x.one", octets) {
            count = count.saturating_add(1);
        }
    }
    drop(onward);
    drop(list);
    count
}

#[test]
fn a_full_list_takes_no_more(rt: HostRuntime) {
    attempt(rt, rt.alloc(), Trial::FullList)
}

/// A list takes so many queries, and so many octets of their messages, and no more.
pub fn fill_all<N: StoreName, R: Wait + Abort + Clock + RandomSource + Copy + Drop>(
    rt: &R,
    alloc: Global,
    readers: &[PolicyReader<N>],
) {
    let reader = readers.first().expect(rt, "a reader");
    let most = WAITING_QUERIES;
    assert_same(rt, taken_of(rt, alloc, reader, 4_200, 12), most);
    // 4 MiB, of messages of 65,535 octets
    assert_same(rt, taken_of(rt, alloc, reader, 70, 65_535), 64);
}

// Whether the end lies so many milliseconds at most, and more than so many, behind this moment.
fn is_between(start: Instant, deadline: &Deadline, least: u64, most: u64) -> bool {
    match deadline.end() {
        Some(end) => {
            let after = end.saturating_duration_since(start);
            Duration::from_millis(least) < after && after <= Duration::from_millis(most)
        }
        None => false,
    }
}

// Whether an asker that takes a query has so many milliseconds for it, within a second.
fn has_time<N: StoreName, R: Abort + Wait + Clock + Copy + Drop>(
    rt: &R,
    items: &mut RequestItems<N, R>,
    deadline: &Deadline,
    milliseconds: u64,
) -> bool {
    let start = Instant::now(rt).expect(rt, "no error");
    let taken = taken(items);
    let least = milliseconds.saturating_sub(400);
    let most = milliseconds.saturating_add(400);
    taken.is_some() && is_between(start, deadline, least, most)
}

#[test]
fn a_query_has_less_time_where_askers_are_few(rt: HostRuntime) {
    attempt(rt, rt.alloc(), Trial::Jostle)
}

/// Of two askers both have the whole time; one more is taken while more than half of them are busy.
pub fn jostle_one<N: StoreName, R: Wait + Abort + Clock + RandomSource + Copy + Drop>(
    rt: &R,
    alloc: Global,
    publisher: &Publisher<N>,
    readers: &[PolicyReader<N>],
) {
    let reader = readers.first().expect(rt, "a reader");
    let latest = Latest::start(alloc, publisher.tell()).expect(rt, "no error");
    let list = open_list(rt, alloc, 2);
    let mut onward = list.onward(*rt, alloc).expect(rt, "no error");
    let (mut first, of_first) = asker(rt, alloc, &list, &latest);
    let (mut second, of_second) = asker(rt, alloc, &list, &latest);
    let (mut third, of_third) = asker(rt, alloc, &list, &latest);
    for name in [b"x.one", b"x.two", b"x.six"] {
        assert!(rt; is_taken(alloc, &mut onward, reader, name, 12));
    }
    assert!(rt; has_time(rt, &mut first, &of_first, 5_000));
    assert!(rt; has_time(rt, &mut second, &of_second, 5_000));
    assert!(rt; has_time(rt, &mut third, &of_third, 500));
}

#[test]
fn what_is_late_goes_first(rt: HostRuntime) {
    attempt(rt, rt.alloc(), Trial::Late)
}

/// A query that waits for its question goes once its time is over, before one that may go, and has no time any more.
pub fn be_late<N: StoreName, R: Wait + Abort + Clock + RandomSource + Copy + Drop>(
    rt: &R,
    alloc: Global,
    publisher: &Publisher<N>,
    readers: &[PolicyReader<N>],
) {
    let reader = readers.first().expect(rt, "a reader");
    let latest = Latest::start(alloc, publisher.tell()).expect(rt, "no error");
    let list = open_list(rt, alloc, 8);
    let mut onward = list.onward(*rt, alloc).expect(rt, "no error");
    let (mut first, _of_first) = asker(rt, alloc, &list, &latest);
    let (mut second, of_second) = asker(rt, alloc, &list, &latest);
    assert!(rt; is_taken(alloc, &mut onward, reader, b"x.one", 12));
    assert!(rt; taken(&mut first).is_some());
    assert!(rt; is_taken(alloc, &mut onward, reader, b"x.one", 12));
    thread::sleep(rt, Duration::from_millis(5_100));
    assert!(rt; is_taken(alloc, &mut onward, reader, b"x.two", 12));
    let start = Instant::now(rt).expect(rt, "no error");
    assert!(rt; taken(&mut second).is_some());
    // the time of the other one isn't over
    assert!(rt; of_second.end().is_some_and(|end| end <= start));
}

// Whether the items end.
fn is_over<N: StoreName, Q: Items<N, ListSource, ListSink>>(items: &mut Q) -> bool {
    matches!(items.next(), Item::Stop)
}

#[test]
fn a_list_ends_behind_what_waits(rt: HostRuntime) {
    attempt(rt, rt.alloc(), Trial::ListEnd)
}

/// Once nobody passes on any more, what waits is taken, and then the list ends for all askers.
pub fn end_all<N: StoreName, R: Wait + Abort + Clock + RandomSource + Copy + Drop>(
    rt: &R,
    alloc: Global,
    publisher: &Publisher<N>,
    readers: &[PolicyReader<N>],
) {
    let reader = readers.first().expect(rt, "a reader");
    let latest = Latest::start(alloc, publisher.tell()).expect(rt, "no error");
    let list = open_list(rt, alloc, 2);
    let mut onward = list.onward(*rt, alloc).expect(rt, "no error");
    let (mut first, _of_first) = asker(rt, alloc, &list, &latest);
    let (mut second, _of_second) = asker(rt, alloc, &list, &latest);
    assert!(rt; is_taken(alloc, &mut onward, reader, b"x.one", 12));
    drop(list);
    assert!(rt; is_taken(alloc, &mut onward, reader, b"x.two", 12));
    drop(onward);
    assert!(rt; taken(&mut first).is_some() && taken(&mut first).is_some());
    assert!(rt; is_over(&mut second) && is_over(&mut first) && is_over(&mut second));
}
