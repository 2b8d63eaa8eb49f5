//! The request list: which query goes to which asker.

use crate::stores::{Trial, attempt};
use dns_message::Question;
use dns_name::{Name, Octets};
use dns_record::{class, rtype};
use edge_io::{Deadline, ListSink, ListSource};
use ip_prefix::{Addr, Transport};
use policy_publish::{Latest, PolicyReader, Publisher, StoreName};
use rpz_workers::{Item, Items, Job, Onward, RequestItems, RequestList, RequestOnward};
use server_io::Peer;
use std::alloc::Global;
use std::hash::RandomState;
use std::process::Abort;
use std::random::RandomSource;
use std::sync::Wait;
use std::time::{Clock, Instant};

/// What happens to a request list.
#[derive(Clone, Copy)]
pub enum Step {
    /// A query of this number is passed on, of this client, for the address of this name.
    Pass(u16, Addr, &'static [u8]),
    /// The asker of this place takes the query of this number.
    Take(usize, u16),
    /// The asker of this place asks so many questions.
    Ask(usize, u32),
}

/// Steps over an empty list for so many askers.
pub struct Row {
    name: &'static str,
    askers: usize,
    steps: &'static [Step],
}

const A: Addr = Addr::V4(0xc000_0201);

const B: Addr = Addr::V4(0xc000_0202);

const C: Addr = Addr::V4(0xc000_0203);

// Two addresses of one /56, and one of the next.
const SITE_1: Addr = Addr::V6(0x2001_0db8_0000_0100_0000_0000_0000_0001);

const SITE_2: Addr = Addr::V6(0x2001_0db8_0000_01ff_0000_0000_0000_0002);

const OTHER: Addr = Addr::V6(0x2001_0db8_0000_0200_0000_0000_0000_0001);

static ROWS: [Row; 11] = [
    Row {
        name: "in order",
        askers: 8,
        steps: &[
            Step::Pass(1, A, b"x.one"),
            Step::Pass(2, B, b"x.two"),
            Step::Pass(3, C, b"x.three"),
            Step::Take(0, 1),
            Step::Take(1, 2),
            Step::Take(0, 3),
        ],
    },
    Row {
        name: "one asker",
        askers: 1,
        steps: &[
            Step::Pass(1, A, b"x.one"),
            Step::Pass(2, A, b"x.one"),
            Step::Pass(3, B, b"x.two"),
            Step::Take(0, 1),
            Step::Take(0, 2),
            Step::Take(0, 3),
        ],
    },
    Row {
        name: "a question that an asker has waits for that one",
        askers: 8,
        steps: &[
            Step::Pass(1, A, b"x.one"),
            Step::Take(0, 1),
            Step::Pass(2, B, b"X.One"),
            Step::Pass(3, C, b"x.two"),
            Step::Take(1, 3),
            Step::Take(0, 2),
        ],
    },
    Row {
        name: "what waited with the same question waits once one of them is taken, and then goes for itself",
        askers: 8,
        steps: &[
            Step::Pass(1, A, b"x.one"),
            Step::Pass(2, B, b"x.one"),
            Step::Pass(3, C, b"x.one"),
            Step::Pass(4, A, b"x.two"),
            Step::Take(0, 1),
            Step::Take(1, 4),
            Step::Take(0, 2),
            Step::Take(2, 3),
        ],
    },
    Row {
        name: "a question that one has who waited for it is waited for again",
        askers: 8,
        steps: &[
            Step::Pass(1, A, b"x.one"),
            Step::Pass(2, B, b"x.one"),
            Step::Take(0, 1),
            Step::Take(0, 2),
            Step::Pass(3, C, b"x.one"),
            Step::Pass(4, C, b"x.two"),
            Step::Take(1, 4),
            Step::Take(0, 3),
        ],
    },
    Row {
        name: "a client has half of the askers while others wait",
        askers: 4,
        steps: &[
            Step::Pass(1, A, b"x.one"),
            Step::Pass(2, A, b"x.two"),
            Step::Pass(3, A, b"x.three"),
            Step::Pass(4, B, b"x.four"),
            Step::Take(0, 1),
            Step::Take(1, 2),
            Step::Take(2, 4),
            Step::Take(3, 3),
        ],
    },
    Row {
        name: "a site is one client",
        askers: 4,
        steps: &[
            Step::Pass(1, SITE_1, b"x.one"),
            Step::Pass(2, SITE_2, b"x.two"),
            Step::Pass(3, SITE_1, b"x.three"),
            Step::Pass(4, OTHER, b"x.four"),
            Step::Take(0, 1),
            Step::Take(1, 2),
            Step::Take(2, 4),
            Step::Take(1, 3),
        ],
    },
    Row {
        name: "a domain has half of the askers while others wait",
        askers: 4,
        steps: &[
            Step::Pass(1, A, b"a.x.slow.example"),
            Step::Pass(2, B, b"b.y.Slow.Example"),
            Step::Pass(3, C, b"slow.example"),
            Step::Pass(4, A, b"fast.example"),
            Step::Take(0, 1),
            Step::Take(1, 2),
            Step::Take(2, 4),
            Step::Take(3, 3),
        ],
    },
    Row {
        name: "what an asker is done with counts no more",
        askers: 4,
        steps: &[
            Step::Pass(1, A, b"x.one"),
            Step::Pass(2, A, b"x.two"),
            Step::Take(0, 1),
            Step::Take(1, 2),
            Step::Pass(3, A, b"x.three"),
            Step::Pass(4, B, b"x.four"),
            Step::Take(0, 3),
            Step::Take(1, 4),
        ],
    },
    Row {
        name: "a query for which 17 questions were asked counts twice for its client",
        askers: 4,
        steps: &[
            Step::Pass(1, A, b"x.one"),
            Step::Pass(2, A, b"x.two"),
            Step::Pass(3, B, b"x.three"),
            Step::Take(0, 1),
            Step::Ask(0, 17),
            Step::Take(1, 3),
            Step::Take(2, 2),
        ],
    },
    Row {
        name: "one for which 16 were asked counts once, and one behind it, too",
        askers: 4,
        steps: &[
            Step::Pass(1, A, b"x.one"),
            Step::Pass(2, A, b"x.two"),
            Step::Pass(3, A, b"x.three"),
            Step::Pass(4, B, b"x.four"),
            Step::Take(0, 1),
            Step::Ask(0, 17),
            Step::Take(0, 2),
            Step::Ask(0, 16),
            Step::Take(1, 3),
            Step::Take(2, 4),
        ],
    },
];

/// A query of this number, of this client, with a message of so many octets.
pub fn query(alloc: Global, number: u16, client: Addr, octets: usize) -> Option<Job> {
    Some(Job {
        peer: Peer {
            addr: client,
            port: number,
            listener: 0,
        },
        transport: Transport::Udp,
        message: Octets::from_vec(vec![in alloc; 0; octets].ok()?),
    })
}

/// The question for the address of this name.
pub fn question(alloc: Global, name: &[u8]) -> Option<Question> {
    Some(Question {
        name: Name::from_text(alloc, name).ok()?,
        qtype: rtype::A,
        qclass: class::IN,
    })
}

/// Whether a query is passed on, with this message and for the address of this name.
pub fn is_passed<N: StoreName, R: Wait + Clock + Drop>(
    alloc: Global,
    onward: &mut RequestOnward<N, R>,
    reader: &PolicyReader<N>,
    job: &Job,
    name: &[u8],
) -> bool {
    match question(alloc, name) {
        Some(question) => onward.pass_on(job, question, 100, reader).is_ok(),
        None => false,
    }
}

/// An empty list for so many askers.
pub fn open_list<N: StoreName, R: Abort + RandomSource>(
    rt: &R,
    alloc: Global,
    askers: usize,
) -> RequestList<N> {
    RequestList::open(alloc, askers, RandomState::new(rt).expect(rt, "no error")).expect(
        rt, "no error",
    )
}

/// One more asker, and its deadline.
pub fn asker<N: StoreName, R: Abort + Wait + Clock + Copy + Drop>(
    rt: &R,
    alloc: Global,
    list: &RequestList<N>,
    latest: &Latest<N>,
) -> (RequestItems<N, R>, Deadline) {
    let now = Instant::now(rt).expect(rt, "no error");
    let deadline = list.deadline(alloc, now).expect(rt, "no error");
    let theirs = deadline.again().expect(rt, "no error");
    (
        list.items(*rt, latest.again().expect(rt, "no error"), theirs)
            .expect(rt, "no error"),
        deadline,
    )
}

/// The number of the query that comes behind a list; `None` where anything else comes.
pub fn taken<N: StoreName, Q: Items<N, ListSource, ListSink>>(items: &mut Q) -> Option<u16> {
    let Item::Told(_told) = items.next() else {
        return None;
    };
    match items.next() {
        Item::Job(job) => Some(job.peer.port),
        _ => None,
    }
}

// Whether a step goes as it says.
fn goes<N: StoreName, R: Wait + Clock + Copy + Drop>(
    alloc: Global,
    onward: &mut RequestOnward<N, R>,
    askers: &mut Vec<(RequestItems<N, R>, Deadline)>,
    reader: &PolicyReader<N>,
    step: Step,
) -> bool {
    match step {
        Step::Pass(number, client, name) => match query(alloc, number, client, 12) {
            Some(job) => is_passed(alloc, onward, reader, &job, name),
            None => false,
        },
        Step::Take(place, number) => match askers.get_mut(place) {
            Some(asker) => taken(&mut asker.0) == Some(number),
            None => false,
        },
        Step::Ask(place, count) => match askers.get(place) {
            Some(asker) => ask(&asker.1, count),
            None => false,
        },
    }
}

// So many questions are asked.
fn ask(deadline: &Deadline, count: u32) -> bool {
    for _ in 0..count {
        deadline.count_question();
    }
    true
}

// Whether all steps of a row go as they say.
fn all_go<N: StoreName, R: Wait + Clock + Copy + Drop>(
    alloc: Global,
    onward: &mut RequestOnward<N, R>,
    askers: &mut Vec<(RequestItems<N, R>, Deadline)>,
    reader: &PolicyReader<N>,
    row: &Row,
) -> bool {
    for step in row.steps {
        if !goes(alloc, onward, askers, reader, *step) {
            return false;
        }
    }
    true
}

// Four askers.
fn askers<N: StoreName, R: Abort + Wait + Clock + Copy + Drop>(
    rt: &R,
    alloc: Global,
    list: &RequestList<N>,
    latest: &Latest<N>,
) -> Vec<(RequestItems<N, R>, Deadline)> {
    let mut askers = Vec::new(alloc);
    for _ in 0..4 {
        let asker = asker(rt, alloc, list, latest);
        askers.push(asker).expect(rt, "no error");
    }
    askers
}

// Whether the row goes as it says, over four askers.
fn row_goes<N: StoreName, R: Abort + Wait + Clock + RandomSource + Copy + Drop>(
    rt: &R,
    alloc: Global,
    latest: &Latest<N>,
    reader: &PolicyReader<N>,
    row: &Row,
) -> bool {
    let list = open_list(rt, alloc, row.askers);
    let mut onward = list.onward(*rt, alloc).expect(rt, "no error");
    let mut askers = askers(rt, alloc, &list, latest);
    let goes = all_go(alloc, &mut onward, &mut askers, reader, row);
    drop(askers);
    drop(onward);
    drop(list);
    goes
}

#[test]
fn queries_go_in_order_but_for_questions_and_shares(rt: HostRuntime) {
    attempt(rt, rt.alloc(), Trial::Requests)
}

/// Each row goes as it says.
pub fn order_all<N: StoreName, R: Wait + Abort + Clock + RandomSource + Copy + Drop>(
    rt: &R,
    alloc: Global,
    publisher: &Publisher<N>,
    readers: &[PolicyReader<N>],
) {
    let reader = readers.first().expect(rt, "a reader");
    let latest = Latest::start(alloc, publisher.tell()).expect(rt, "no error");
    for row in &ROWS {
        assert!(rt; row_goes(rt, alloc, &latest, reader, row), "{}", row.name);
    }
}
