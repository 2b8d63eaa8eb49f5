//! What is learned over a link that fails, and what it says at its age.

use crate::asserts::assert_same;
use dns_message::Question;
use dns_name::{Name, Octets};
use edge_io::ListLink;
use std::alloc::Global;
use std::process::Abort;
use upstream_link::{AskOutcome, Fact, Learned, ask};

/// The response to the question (x.example, A, IN) in a message of the ID 7: x.example 60 A 192.0.2.9 (RFC 1035, section 4.1).
pub const RESPONSE: &[u8] =
    b"\0\x07\x81\x80\0\x01\0\x01\0\0\0\0\x01x\x07example\0\0\x01\0\x01\x01x\x07example\0\0\x01\0\x01\0\0\0\x3c\0\x04\xc0\0\x02\x09";

/// A question for the address of `x.example`.
pub fn question<R: Abort>(rt: &R, alloc: Global) -> Question {
    Question {
        name: Name::from_text(alloc, b"x.example").expect(rt, "no error"),
        qtype: 1,
        qclass: 1,
    }
}

// A link that gives the response so many times, and of which the call of this number fails.
fn link<R: Abort>(rt: &R, alloc: Global, count: usize, call: u64) -> ListLink {
    let mut messages = Vec::new(alloc);
    for _message in 0..count {
        messages
            .push(Octets::from_slice(alloc, RESPONSE).expect(rt, "no error"))
            .expect(rt, "no error");
    }
    ListLink::new(messages, vec![in alloc; call].expect(rt, "no error"))
}

// What is learned of the question at the second 100.
fn asked<R: Abort>(rt: &R, alloc: Global, link: &mut ListLink) -> Option<Learned<ListLink>> {
    match ask(alloc, link, 7, &question(rt, alloc), 100).expect(rt, "no error") {
        AskOutcome::Learned(learned) => Some(learned),
        AskOutcome::Failed => None,
    }
}

// What is learned of the question at the second 100, for 60 seconds.
fn learned<R: Abort>(rt: &R, alloc: Global) -> Learned<ListLink> {
    match asked(rt, alloc, &mut link(rt, alloc, 1, 9)) {
        Some(learned) => learned,
        None => panic!(rt; "something is learned"),
    }
}

// Of four questions over a link with two responses, those of which something is learned.
fn answered<R: Abort>(rt: &R, alloc: Global, call: u64) -> [bool; 4] {
    let mut link = link(rt, alloc, 2, call);
    let mut answered = [false; 4];
    for place in 0..4 {
        answered[place] = asked(rt, alloc, &mut link).is_some();
    }
    answered
}

// A call that fails takes no message, and one for which no message is left fails.
#[test]
fn a_link_that_fails_is_told(rt: HostRuntime) {
    for (call, expected) in [
        (0, [false, true, true, false]),
        (1, [true, false, true, false]),
        (2, [true, true, false, false]),
        (3, [true, true, false, false]),
        (9, [true, true, false, false]),
    ] {
        assert!(rt;
            answered(&rt, rt.alloc(), call) == expected,
            "the call {call}"
        );
    }
}

// RFC 2308, section 5: it may be told for 60 seconds from the second 100 on.
#[test]
fn what_is_learned_has_a_life(rt: HostRuntime) {
    let learned = learned(&rt, rt.alloc()).copied().expect(&rt, "no error");
    assert_same(&rt, learned.life(), 60);
    for (now, live) in [(99, false), (100, true), (159, true), (160, false)] {
        assert!(rt; learned.is_live(now) == live, "{now}");
    }
}

// The records of a fact at a second at which it may be used.
fn records<R: Abort>(rt: &R, alloc: Global, learned: &Learned<ListLink>, now: u32) -> Octets {
    let mut out = Octets::new(alloc);
    if learned.is_live(now) {
        if let Fact::Answer(answer) = learned.fact(alloc, now).expect(rt, "no error") {
            for rr in answer.answers() {
                let ttl = rr.ttl().saturating_sub(answer.age());
                rr.write_with_ttl(&mut out, ttl).expect(rt, "no error");
            }
        }
    }
    out
}

// At the age of 59 seconds 1 is left of the TTL of 60.
#[test]
fn records_age(rt: HostRuntime) {
    let records = records(&rt, rt.alloc(), &learned(&rt, rt.alloc()), 159);
    assert_same(
        &rt,
        records.as_slice(),
        b"\x01x\x07example\0\0\x01\0\x01\0\0\0\x01\0\x04\xc0\0\x02\x09".as_slice(),
    );
}
