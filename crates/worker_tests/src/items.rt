//! Items out of an inlet, and what comes before them.

use crate::stores::{Trial, attempt};
use crate::test_inlet::{InletStage, items_of};
use crate::workers::client;
use dns_name::Octets;
use edge_io::{ListSink, ListSource};
use policy_publish::{Latest, Publisher, StoreName};
use rpz_workers::{Item, Items, Job};
use server_io::{Arrival, Received};
use std::alloc::Global;
use std::collections::VecDeque;
use std::process::Abort;
use std::sync::Wait;
use std::test::Fail;

// An item in one letter: a job, a connection, a list that was published, or Stop.
fn letter<N: StoreName>(item: Item<N, ListSource, ListSink>) -> char {
    match item {
        Item::Job(_) => 'j',
        Item::Connection { .. } => 'c',
        Item::Told(_) => 't',
        Item::Stop => 's',
    }
}

// The next items, as many as there are letters, are these.
fn gives<N: StoreName, Q: Items<N, ListSource, ListSink>>(items: &mut Q, expected: &str) -> bool {
    for wanted in expected.chars() {
        if letter(items.next()) != wanted {
            return false;
        }
    }
    true
}

// What an inlet gives, one letter a call: a datagram `d`, a connection `c`, nothing `n`, or the end `e`. Where the letter is a capital,
// a list is published while the thread waits. Then the items that come of it.
struct Row {
    given: &'static str,
    expected: &'static str,
}

// A list comes before the first item, and before the first that is received once another was published, or as soon as nothing comes
// for a while; and behind the end there is nothing but the end.
static ROWS: [Row; 7] = [
    Row {
        given: "",
        expected: "ts",
    },
    Row {
        given: "dd",
        expected: "tjjs",
    },
    Row {
        given: "ncd",
        expected: "tcjs",
    },
    Row {
        given: "dDcC",
        expected: "tjtjctcs",
    },
    Row {
        given: "dnnNd",
        expected: "tjtjs",
    },
    Row {
        given: "dE",
        expected: "tjts",
    },
    Row {
        given: "deDd",
        expected: "tjsss",
    },
];

fn received(alloc: Global, letter: u8) -> Received<ListSource, ListSink> {
    match letter.to_ascii_lowercase() {
        b'd' => Received::Arrival(Arrival::Datagram {
            peer: client(1),
            bytes: Octets::new(alloc),
        }),
        b'c' => Received::Arrival(Arrival::Connection {
            source: ListSource::new(Vec::new(alloc), 64, Vec::new(alloc)),
            sink: ListSink::new(Vec::new(alloc), 64, Vec::new(alloc)),
            client: client(1),
        }),
        b'n' => Received::Nothing,
        _ => Received::End,
    }
}

fn stage<N: StoreName>(alloc: Global, publisher: &Publisher<N>, letter: u8) -> InletStage<N> {
    let received = received(alloc, letter);
    if letter.is_ascii_uppercase() {
        InletStage {
            told: Some(publisher.tell()),
            received,
        }
    } else {
        InletStage {
            told: None,
            received,
        }
    }
}

fn stages<N: StoreName, R: Abort>(
    rt: &R,
    alloc: Global,
    publisher: &Publisher<N>,
    given: &str,
) -> VecDeque<InletStage<N>> {
    let mut stages = VecDeque::new(alloc);
    for letter in given.as_bytes() {
        stages
            .push_back(stage(alloc, publisher, *letter))
            .expect(rt, "no error");
    }
    stages
}

// Whether the items of a row come in their order, and nothing but Stop behind them, though a list is published.
fn come_in_order<N: StoreName, R: Abort + Wait + Copy + Drop>(
    rt: &R,
    alloc: Global,
    publisher: &Publisher<N>,
    row: &Row,
) -> bool {
    let latest = Latest::start(alloc, publisher.tell()).expect(rt, "no error");
    let stages = stages(rt, alloc, publisher, row.given);
    let mut items = items_of(*rt, &latest, stages);
    let given = gives(&mut items, row.expected);
    latest.set(rt, publisher.tell());
    given && gives(&mut items, "ss")
}

#[test]
fn what_was_published_comes_before_an_item(rt: HostRuntime) {
    attempt(rt, rt.alloc(), Trial::Inlets)
}

/// The items of each row come in their order.
pub fn take_all<N: StoreName, R: Wait + Abort + Copy + Drop>(
    rt: &R,
    alloc: Global,
    publisher: &Publisher<N>,
) {
    for row in &ROWS {
        assert!(rt; come_in_order(rt, alloc, publisher, row), "{}", row.given);
    }
}
