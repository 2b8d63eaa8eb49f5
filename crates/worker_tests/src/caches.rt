//! What a worker's own cache and one that workers share give at a second, for names that all belong to one shard.

ghost use Rattle.std.specs.Prelude.{◌≡◌};

use crate::workers::{Hold, common_cache, lone_hold, own_cache};
use answer_cache::{Keeps, Shared, shard_number};
use dns_message::Question;
use dns_name::{Name, Octets};
use dns_record::{class, rtype};
use edge_io::ListLink;
use std::alloc::{AllocError, Global};
use std::process::Abort;
use std::random::RandomSource;
use std::sync::{Arc, Wait};
use std::test::Fail;
use std::thread;
use std::thread::Threads;
use upstream_link::Learned;

// The first labels of these have the same letters, so that they belong to one shard.
const ABC: &[u8] = b"abc.example";

const ACB: &[u8] = b"acb.example";

const BAC: &[u8] = b"bac.example";

const BCA: &[u8] = b"bca.example";

const CAB: &[u8] = b"cab.example";

const CBA: &[u8] = b"cba.example";

// The octets of this name as it is written, in lower case, add up to 876.
const X: &[u8] = b"x.example";

const CAPITAL_X: &[u8] = b"X.EXAMPLE";

fn question<R: Abort>(rt: &R, alloc: Global, name: &[u8], qtype: u16) -> Question {
    Question {
        name: Name::from_text(alloc, name).expect(rt, "no error"),
        qtype,
        qclass: class::IN,
    }
}

// Writes the record of an address of a name, 192.0.2.0 and up, with the TTL 60.
fn push_address(out: &mut Octets, name: &Name, last: u8) -> Result<(), AllocError> {
    out.append(name.octets())?;
    out.append(b"\0\x01\0\x01\0\0\0\x3c\0\x04\xc0\0\x02")?;
    out.push(last)
}

// The response of the ID 7 to the question for a name, with so many addresses (RFC 1035, section 4.1).
fn response(alloc: Global, name: &Name, count: u8) -> Result<Octets, AllocError> {
    let mut out = Octets::from_slice(alloc, b"\0\x07\x81\x80\0\x01\0")?;
    out.push(count)?;
    out.append(b"\0\0\0\0")?;
    out.append(name.octets())?;
    out.append(b"\0\x01\0\x01")?;
    for last in 0..count {
        push_address(&mut out, name, last)?;
    }
    Ok(out)
}

// What was learned at a second of so many addresses of the name in a question.
fn learned<R: Abort>(
    rt: &R,
    alloc: Global,
    asked: &Question,
    count: u8,
    moment: u32,
) -> Learned<ListLink>
    ensures { result.question ≡ asked.now }
{
    let bytes = response(alloc, &asked.name, count).expect(rt, "no error");
    Learned::given(alloc, 7, asked, &bytes, moment).expect(rt, "no error")
}

// Whether a look-up at a second finds something.
fn is_found<C: Keeps<ListLink>, R: Abort>(
    rt: &R,
    alloc: Global,
    cache: &mut C,
    name: &[u8],
    qtype: u16,
    now: u32,
) -> bool {
    let asked = question(rt, alloc, name, qtype);
    cache
        .get(alloc, &asked, now)
        .expect(rt, "no error")
        .is_some()
}

// What is done with a cache.
#[derive(Clone, Copy)]
enum Step {
    // The address of the name that was learned at this second is kept.
    Keep(&'static [u8], u32),
    // A look-up for the name and the type at this second finds something.
    Found(&'static [u8], u16, u32),
    // It finds nothing.
    Missing(&'static [u8], u16, u32),
}

// What is done with an empty cache for four entries.
struct Case {
    name: &'static str,
    steps: &'static [Step],
}

// RFC 2308, section 5: each may be told for 60 seconds from the second on at which it came.
static CASES: [Case; 4] = [
    Case {
        name: "an entry and its life",
        steps: &[
            Step::Keep(ABC, 100),
            Step::Missing(ABC, rtype::A, 99),
            Step::Found(ABC, rtype::A, 100),
            Step::Found(ABC, rtype::A, 159),
            Step::Missing(ABC, rtype::A, 160),
            Step::Missing(ABC, rtype::AAAA, 100),
            Step::Missing(ACB, rtype::A, 100),
            Step::Found(ABC, rtype::A, 100),
        ],
    },
    Case {
        name: "a live entry behind dead ones",
        steps: &[
            Step::Keep(ABC, 100),
            Step::Keep(ACB, 100),
            Step::Keep(BAC, 100),
            Step::Keep(BCA, 100),
            Step::Missing(BCA, rtype::A, 160),
            Step::Keep(CAB, 160),
            Step::Found(CAB, rtype::A, 160),
            Step::Missing(ACB, rtype::A, 160),
        ],
    },
    Case {
        name: "an entry that is asked for often",
        steps: &[
            Step::Keep(ABC, 100),
            Step::Keep(ACB, 100),
            Step::Keep(BAC, 100),
            Step::Keep(BCA, 100),
            Step::Found(ABC, rtype::A, 100),
            Step::Found(ABC, rtype::A, 101),
            Step::Found(ABC, rtype::A, 102),
            Step::Found(ABC, rtype::A, 103),
            Step::Found(ABC, rtype::A, 104),
            Step::Found(ABC, rtype::A, 105),
            Step::Found(ABC, rtype::A, 106),
            Step::Found(ABC, rtype::A, 107),
            Step::Keep(CAB, 107),
            Step::Missing(ACB, rtype::A, 107),
            Step::Found(ABC, rtype::A, 107),
        ],
    },
    Case {
        name: "more entries than there may be",
        steps: &[
            Step::Keep(ABC, 100),
            Step::Keep(ACB, 100),
            Step::Keep(BAC, 100),
            Step::Keep(BCA, 100),
            Step::Keep(CAB, 100),
            Step::Keep(CBA, 100),
            Step::Missing(ABC, rtype::A, 100),
            Step::Missing(ACB, rtype::A, 100),
            Step::Found(BAC, rtype::A, 100),
            Step::Found(BCA, rtype::A, 100),
            Step::Found(CAB, rtype::A, 100),
            Step::Found(CBA, rtype::A, 100),
        ],
    },
];

// Whether a step does what it says.
fn is_done<C: Keeps<ListLink>, R: Abort>(
    rt: &R,
    alloc: Global,
    cache: &mut C,
    step: &Step,
) -> bool {
    match step {
        Step::Keep(name, moment) => {
            let asked = question(rt, alloc, name, rtype::A);
            let entry = learned(rt, alloc, &asked, 1, *moment);
            cache.keep(alloc, &asked, &entry).is_ok()
        }
        Step::Found(name, qtype, now) => is_found(rt, alloc, cache, name, *qtype, *now),
        Step::Missing(name, qtype, now) => !is_found(rt, alloc, cache, name, *qtype, *now),
    }
}

fn run_over<C: Keeps<ListLink>, R: Abort>(rt: &R, alloc: Global, cache: &mut C, case: &Case) {
    for (place, step) in case.steps.iter().enumerate() {
        assert!(rt; is_done(rt, alloc, cache, step), "{} {place}", case.name);
    }
}

fn run_case<R: Wait + RandomSource + Abort + Copy + Drop>(rt: R, alloc: Global, case: &Case) {
    run_over(&rt, alloc, &mut own_cache(&rt, alloc), case);
    run_over(&rt, alloc, &mut lone_hold(rt, alloc), case);
}

#[test]
fn caches_give_what_is_live(rt: HostRuntime) {
    for case in &CASES {
        run_case(rt, rt.alloc(), case);
    }
}

#[test]
fn questions_belong_to_shards(rt: HostRuntime) {
    for (name, qtype, shard) in [
        (X, rtype::A, 13),
        (CAPITAL_X, rtype::A, 13),
        (X, rtype::AAAA, 8),
    ] {
        let asked = question(&rt, rt.alloc(), name, qtype);
        assert!(rt; shard_number(&asked) == shard, "{qtype}");
    }
}

// Whether a hold could keep what these bytes say of the question, which came at the second 100.
fn keeps<R: Wait + Drop>(
    alloc: Global,
    hold: &mut Hold<R>,
    asked: &Question,
    bytes: &Octets,
) -> bool {
    match Learned::given(alloc, 7, asked, bytes, 100) {
        Ok(entry) => hold.keep(alloc, asked, &entry).is_ok(),
        Err(_) => false,
    }
}

// A question, and the bytes that answer it with one address.
fn asked_and_given<R: Abort>(rt: &R, alloc: Global, name: &[u8]) -> (Question, Octets) {
    let asked = question(rt, alloc, name, rtype::A);
    let bytes = response(alloc, &asked.name, 1).expect(rt, "no error");
    (asked, bytes)
}

// Whether this hold keeps an address while another one, in a thread, keeps it and that of another name.
fn keep_at_once<R: Abort + Threads + Wait + Copy + Drop + Send + Sync + 'static>(
    rt: R,
    alloc: Global,
    own: &mut Hold<R>,
    mut other: Hold<R>,
) -> bool {
    let (asked, bytes) = asked_and_given(&rt, alloc, ABC);
    let (same, same_bytes) = asked_and_given(&rt, alloc, ABC);
    let (more, more_bytes) = asked_and_given(&rt, alloc, ACB);
    let thread = thread::spawn(&rt, move || {
        keeps(alloc, &mut other, &same, &same_bytes) && keeps(alloc, &mut other, &more, &more_bytes)
    })
    .expect(&rt, "no error");
    let kept = keeps(alloc, own, &asked, &bytes);
    thread.join(&rt) && kept
}

// Whether this hold finds both at the second 159.
fn finds_both<R: Abort + Wait + Drop>(rt: &R, alloc: Global, hold: &mut Hold<R>) -> bool {
    for name in [ABC, ACB] {
        if !is_found(rt, alloc, hold, name, rtype::A, 159) {
            return false;
        }
    }
    true
}

fn kept_at_once<R: Abort + Threads + Wait + RandomSource + Copy + Drop + Send + Sync + 'static>(
    rt: R,
    alloc: Global,
) -> bool {
    let cache = common_cache(&rt, alloc);
    let mut own = Shared::new(rt, Arc::try_clone(&cache).expect(&rt, "no error"));
    let kept = keep_at_once(rt, alloc, &mut own, Shared::new(rt, cache));
    kept && finds_both(&rt, alloc, &mut own)
}

#[test]
fn two_workers_keep_one_question_at_once(rt: HostRuntime) {
    for _turn in 0..20 {
        assert!(rt; kept_at_once(rt, rt.alloc()));
    }
}

// Whether an answer of so many addresses is there once it was to be kept.
fn is_kept<R: Abort + Wait + RandomSource + Copy + Drop>(rt: R, alloc: Global, count: u8) -> bool {
    let asked = question(&rt, alloc, ABC, rtype::A);
    let entry = learned(&rt, alloc, &asked, count, 100);
    let mut hold = lone_hold(rt, alloc);
    hold.keep(alloc, &asked, &entry).expect(&rt, "no error");
    is_found(&rt, alloc, &mut hold, ABC, rtype::A, 100)
}

// But for its TTL each record has 23 octets: 89 have 2,047, and 90 have 2,070, more than 2 KiB.
#[test]
fn a_long_answer_is_not_kept(rt: HostRuntime) {
    for (count, kept) in [(89, true), (90, false)] {
        assert!(rt; is_kept(rt, rt.alloc(), count) == kept, "{count}");
    }
}
