//! One thread publishes, and two readers follow.

use crate::asserts::assert_same;
use crate::stores::{Trial, attempt};
use crossbeam_channel::{Receiver, Sender, unbounded};
use dns_name::{Name, Pattern};
use dns_record::{Row, Soa, class, read_record};
use policy_publish::{PolicyReader, Publisher, StoreName, Told};
use policy_snapshot::Snapshot;
use std::alloc::Global;
use std::process::Abort;
use std::sync::Wait;
use std::thread;
use std::thread::{JoinHandle, Threads};
use trigger_codec::Trigger;
use zone_rows::{Rows, Transfer};

pub const PUBLICATIONS: u32 = 1_000;

// What a reader is told: a list, and how many publications it has.
#[derive(Drop)]
struct News<N: StoreName> {
    told: Told<N>,
    count: u64,
}

// `x.example.rpz.example` CNAME `.`: the name `x.example` doesn't exist.
const RULE: &[u8] = b"\x01x\x07example\x03rpz\x07example\0\0\x05\0\x01\0\0\0<\0\x01\0";

// The row that a record is, as it stands in a message (RFC 1035, section 3.2.1).
fn row(alloc: Global, record: &[u8]) -> Option<Row> {
    let (rr, _) = read_record(alloc, record, 0).ok()?;
    if rr.class() != class::IN {
        return None;
    }
    Row::of(alloc, &rr).ok()
}

// Whether the version has the rule in its first zone; `None` out of memory.
fn has_rule(alloc: Global, version: &Snapshot) -> Option<bool> {
    let base = Name::from_text(alloc, b"x.example").ok()?;
    let pattern = Pattern::new(alloc, &base, false).ok()?;
    let rule = version.zone(1)?.rule(&Trigger::Qname(pattern));
    Some(rule.is_some())
}

fn soa(alloc: Global, serial: u32) -> Option<Soa> {
    Some(Soa {
        mname: Name::root(alloc).ok()?,
        rname: Name::root(alloc).ok()?,
        serial,
        refresh: 3_600,
        retry: 600,
        expire: 86_400,
        minimum: 60,
        ttl: 60,
    })
}

// The rows that these records are.
fn rows(alloc: Global, records: &[&'static [u8]]) -> Option<Rows> {
    let mut rows = Rows::new(alloc);
    for record in records {
        rows.push(row(alloc, record)?).ok()?;
    }
    Some(rows)
}

/// A whole transfer of this serial with the rows that these records are.
pub fn whole(alloc: Global, serial: u32, records: &[&'static [u8]]) -> Option<Transfer> {
    let soa = soa(alloc, serial)?;
    let rows = rows(alloc, records)?;
    Some(Transfer::Whole { soa, rows })
}

/// A whole transfer of this serial: the last one has the rule, the others no row.
pub fn transfer(alloc: Global, serial: u32) -> Option<Transfer> {
    if serial == PUBLICATIONS {
        whole(alloc, serial, &[RULE])
    } else {
        whole(alloc, serial, &[])
    }
}

// The version that is published: for how many publications it stands, and whether it has the rule.
fn look<N: StoreName>(alloc: Global, reader: &mut PolicyReader<N>) -> (u64, bool) {
    match reader.pin() {
        Ok(version) => (
            version.accepted(),
            has_rule(alloc, &version).unwrap_or(false),
        ),
        Err(_) => (0, false),
    }
}

// Learns what it is told, and takes a version after each list: counts how often it is of fewer publications than the list has, or
// than the version before; and says of how many the last one is, and whether it has the rule.
fn follow<N: StoreName, R: Wait>(
    rt: &R,
    alloc: Global,
    reader: &mut PolicyReader<N>,
    news: &Receiver<News<N>>,
) -> (u32, u64, bool) {
    let mut faults = 0u32;
    let mut last = (0u64, false);
    for _ in rt.forever() {
        let Ok(News { told, count }) = news.recv(rt) else {
            return (faults, last.0, last.1);
        };
        reader.learn(told);
        let seen = look(alloc, reader);
        if seen.0 < count || seen.0 < last.0 {
            faults = faults.wrapping_add(1);
        }
        last = seen;
    }
    unreachable!()
}

// The thread of a reader, with what `follow` says.
type Following = JoinHandle<(u32, u64, bool)>;

// A reader in a thread of its own.
fn start<
    N: StoreName + Send + Sync + 'static,
    R: Abort + Threads + Wait + Copy + Drop + Send + Sync + 'static,
>(rt: R, alloc: Global, mut reader: PolicyReader<N>, news: Receiver<News<N>>) -> Following {
    thread::spawn(&rt, move || follow(&rt, alloc, &mut reader, &news)).expect(&rt, "no error")
}

// Publishes one transfer after another, and tells each reader of each: how often that failed.
fn publish_all<N: StoreName, R: Wait>(
    rt: &R,
    alloc: Global,
    publisher: &mut Publisher<N>,
    readers: &[Sender<News<N>>],
) -> u32 {
    let mut faults = 0u32;
    for serial in 1..=PUBLICATIONS {
        if !publish_one(rt, alloc, publisher, readers, serial) {
            faults = faults.wrapping_add(1);
        }
    }
    faults
}

fn publish_one<N: StoreName, R: Wait>(
    rt: &R,
    alloc: Global,
    publisher: &mut Publisher<N>,
    readers: &[Sender<News<N>>],
    serial: u32,
) -> bool {
    let Some(transfer) = transfer(alloc, serial) else {
        return false;
    };
    let published = publish(rt, publisher, transfer);
    tell_all(rt, publisher, readers, serial) && published
}

/// Whether the first zone takes a transfer.
pub fn publish<N: StoreName, R: Wait>(
    rt: &R,
    publisher: &mut Publisher<N>,
    transfer: Transfer,
) -> bool {
    publish_at(rt, publisher, 1, transfer)
}

/// Whether the zone of this number takes a transfer.
pub fn publish_at<N: StoreName, R: Wait>(
    rt: &R,
    publisher: &mut Publisher<N>,
    number: u32,
    transfer: Transfer,
) -> bool {
    if !publisher.has_zone(number) {
        return false;
    }
    publisher.publish(rt, number, transfer).is_ok()
}

// Whether each reader is told of so many publications.
fn tell_all<N: StoreName, R: Wait>(
    rt: &R,
    publisher: &Publisher<N>,
    readers: &[Sender<News<N>>],
    count: u32,
) -> bool {
    let mut told = true;
    for reader in readers {
        let news = News {
            told: publisher.tell(),
            count: u64::from(count),
        };
        told = told && reader.send(rt, news).is_ok();
    }
    told
}

#[test]
fn readers_follow_the_publisher(rt: HostRuntime) {
    attempt(rt, rt.alloc(), Trial::Publishing)
}

/// No publication fails, and each reader sees all of them in their order.
pub fn follow_all<
    N: StoreName + Send + Sync + 'static,
    R: Threads + Wait + Abort + Copy + Drop + Send + Sync + 'static,
>(rt: &R, alloc: Global, publisher: &mut Publisher<N>, readers: &mut Vec<PolicyReader<N>>) {
    let mut to = Vec::new(alloc);
    let mut threads = Vec::new(alloc);
    start_all(*rt, alloc, readers, &mut to, &mut threads);
    assert_same(rt, publish_all(rt, alloc, publisher, to.as_slice()), 0);
    drop(to);
    join_all(rt, threads);
}

// Starts each reader: where it is told of publications, and its thread.
fn start_all<
    N: StoreName + Send + Sync + 'static,
    R: Abort + Threads + Wait + Copy + Drop + Send + Sync + 'static,
>(
    rt: R,
    alloc: Global,
    readers: &mut Vec<PolicyReader<N>>,
    to: &mut Vec<Sender<News<N>>>,
    threads: &mut Vec<Following>,
) {
    for _ in 0..readers.len() {
        let (sender, receiver) = unbounded(alloc).expect(&rt, "no error");
        to.push(sender).expect(&rt, "no error");
        let reader = readers.pop().expect(&rt, "a reader");
        threads
            .push(start(rt, alloc, reader, receiver))
            .expect(&rt, "no error");
    }
}

// Each reader met no fault, and saw the last publication, with its rule.
fn join_all<R: Threads + Wait + Abort>(rt: &R, threads: Vec<Following>) {
    for thread in threads {
        assert_same(rt, thread.join(rt), (0, u64::from(PUBLICATIONS), true));
    }
}
