//! Whole runs of a server over wires in memory, with workers in threads.

use crate::cases::{Asked, CASES, Case, Moment, NEVER, SERVED, Woken};
use crate::outside::Posts;
use crossbeam_channel::{Receiver, Sender, unbounded};
use dns_name::Octets;
use edge_io::{Bytes, ListClock, ListIds, ListLink, ListSink, ListSource, TaskSpawner};
use ip_prefix::{Addr, Transport};
use rpz_program::run::run;
use rpz_program::status::Status;
use rpz_workers::Report;
use server_io::{Arrival, ListWires, Order, Peer, SentOrder, SentReply, Wake, WireStage, Wires};
use std::alloc::{AllocError, Global};
use std::collections::VecDeque;
use std::hash::RandomState;
use std::process::Abort;
use std::random::RandomSource;
use std::sync::Wait;
use std::thread::Threads;
use std::time::Clock;

// The wires of a run.
type Memory<R> = ListWires<ListSource, ListSink, ListLink, Posts<R>, R>;

type Stage = WireStage<ListSource, ListSink>;

// The words that a line has.
fn words_of<R: Abort>(rt: &R, alloc: Global, line: &str) -> Vec<String> {
    let mut words = Vec::new(alloc);
    for word in line.split(' ') {
        words
            .push(String::from_str(alloc, word).expect(rt, "no error"))
            .expect(rt, "no error");
    }
    words
}

// A datagram of 192.0.2.7.
fn datagram(alloc: Global, bytes: &[u8]) -> Result<Arrival<ListSource, ListSink>, AllocError> {
    Ok(Arrival::Datagram {
        peer: Peer {
            addr: Addr::V4(0xc000_0207),
            port: 53_000,
            listener: 0,
        },
        bytes: Octets::from_slice(alloc, bytes)?,
    })
}

// The message of a frame.
fn message_in(frame: &'static [u8]) -> &'static [u8] {
    match frame {
        [_, _, message @ ..] => message,
        _ => frame,
    }
}

fn wake_of(alloc: Global, woken: &Woken) -> Result<Option<Wake>, AllocError> {
    let wake = match woken {
        Woken::Due => Wake::Due,
        Woken::Frame(number, frame) => Wake::Frame {
            order: Order { number: *number },
            bytes: Octets::from_slice(alloc, message_in(frame))?,
        },
        Woken::Over(number, why) => Wake::Over {
            order: Order { number: *number },
            why: *why,
        },
        Woken::Notify(last, bytes) => Wake::Notify {
            peer: Peer {
                addr: Addr::V4(0x7f00_0000 + u32::from(*last)),
                port: 53_001,
                listener: 0,
            },
            transport: Transport::Udp,
            bytes: Octets::from_slice(alloc, bytes)?,
        },
        Woken::Fails => return Ok(None),
    };
    Ok(Some(wake))
}

// What comes at one wait.
fn stage_of(alloc: Global, moment: &Moment) -> Result<Stage, AllocError> {
    let mut stage = WireStage::new(alloc, wake_of(alloc, &moment.wake)?);
    for _ in 0..moment.times {
        for bytes in moment.datagrams {
            stage.datagrams.push(datagram(alloc, bytes)?)?;
        }
    }
    Ok(stage)
}

// What comes at each wait.
fn stages(alloc: Global, moments: &[Moment]) -> Result<VecDeque<Stage>, AllocError> {
    let mut all = VecDeque::new(alloc);
    for moment in moments {
        all.push_back(stage_of(alloc, moment)?)?;
    }
    Ok(all)
}

// A link that gives these messages, and fails behind the last.
fn link<R: Abort>(rt: &R, alloc: Global, given: &[&[u8]]) -> ListLink {
    let mut messages = Vec::new(alloc);
    for message in given {
        messages
            .push(Octets::from_slice(alloc, message).expect(rt, "no error"))
            .expect(rt, "no error");
    }
    ListLink::new(messages, Vec::new(alloc))
}

// Links and places for replies, for 40 workers. All links give the same.
fn wires<R: Abort + Threads + Wait + Clock + Copy + Drop + Send + Sync + 'static>(
    rt: R,
    alloc: Global,
    case: &Case,
    sender: &Sender<Octets>,
) -> Memory<R> {
    let (mut links, mut backs) = (VecDeque::new(alloc), VecDeque::new(alloc));
    for _ in 0..40 {
        links
            .push_back(link(&rt, alloc, case.upstream))
            .expect(&rt, "no error");
        backs
            .push_back(Posts {
                rt,
                alloc,
                sender: sender.clone().expect(&rt, "no error"),
                faults: 0,
            })
            .expect(&rt, "no error");
    }
    let wires = ListWires::new(
        rt,
        alloc,
        stages(alloc, case.moments).expect(&rt, "no error"),
        links,
        backs,
        vec![in alloc; case.failing_bind].expect(&rt, "no error"),
        vec![in alloc; case.failing_order].expect(&rt, "no error"),
    )
    .expect(&rt, "no error");
    wires
}

// Runs a line of words over wires, with workers in threads: how it ends, and what it writes, one byte a call.
fn run_line<
    R: Abort + Threads + Wait + Clock + RandomSource + Copy + Drop + Send + Sync + 'static,
    W: Wires,
>(
    rt: R,
    alloc: Global,
    line: &str,
    wires: &mut W,
    failing_start: u64,
    failing_write: u64,
) -> (Status, Vec<u8>) {
    let words = words_of(&rt, alloc, line);
    let mut script = Bytes::new(Vec::new(alloc));
    let mut out = ListSink::new(
        Vec::new(alloc),
        1,
        vec![in alloc; failing_write].expect(&rt, "no error"),
    );
    let mut spawner: TaskSpawner<Report, R> = TaskSpawner::new(
        rt,
        alloc,
        true,
        vec![in alloc; failing_start].expect(&rt, "no error"),
    );
    let mut clock = ListClock::new(alloc, VecDeque::new(alloc));
    let mut ids = ListIds::new(alloc, VecDeque::new(alloc));
    let hashers = RandomState::new(&rt).expect(&rt, "no error");
    let status = run(
        &rt,
        alloc,
        &words,
        &mut script,
        &mut out,
        wires,
        &mut spawner,
        &mut clock,
        &mut ids,
        hashers,
    );
    (status, out.bytes)
}

// The replies are those that are expected, in order.
fn assert_replies<R: Wait + Abort>(
    rt: &R,
    replies: &Receiver<Octets>,
    expected: &[&[u8]],
    name: &str,
) {
    for bytes in expected {
        let reply = replies.try_recv(rt);
        assert!(rt;
            reply.is_ok_and(|reply| reply.as_slice() == *bytes),
            "{name}"
        );
    }
    assert!(rt; replies.try_recv(rt).is_err(), "{name}");
}

// Transfers were ordered of the primaries at these ports, by these requests.
fn assert_ordered<R: Abort>(rt: &R, ordered: &[SentOrder], expected: &[Asked], name: &str) {
    assert!(rt; ordered.len() == expected.len(), "{name}");
    for (order, (port, request)) in ordered.iter().zip(expected.iter()) {
        assert!(rt; order.primary.port == *port, "{name}");
        assert!(rt; order.request.as_slice() == *request, "{name}");
    }
}

// These replies to NOTIFYs were sent.
fn assert_answered<R: Abort>(rt: &R, answered: &[SentReply], expected: &[&[u8]], name: &str) {
    assert!(rt; answered.len() == expected.len(), "{name}");
    for (reply, bytes) in answered.iter().zip(expected.iter()) {
        assert!(rt; reply.bytes.as_slice() == *bytes, "{name}");
    }
}

fn run_case<R: Threads + Wait + Abort + Clock + RandomSource + Copy + Drop + Send + Sync + 'static>(
    rt: R,
    alloc: Global,
    case: &Case,
) {
    let (sender, replies) = unbounded(alloc).expect(&rt, "no error");
    let mut wires = wires(rt, alloc, case, &sender);
    let (status, written) = run_line(rt, alloc, case.words, &mut wires, case.failing_start, NEVER);
    assert!(rt; status == case.status, "{}", case.name);
    assert!(rt; written.as_slice() == case.written, "{}", case.name);
    assert_replies(&rt, &replies, case.replies, case.name);
    assert_ordered(&rt, &wires.ordered, case.ordered, case.name);
    assert_answered(&rt, &wires.answered, case.answered, case.name);
}

#[test]
fn servers_run(rt: HostRuntime) {
    for case in &CASES {
        run_case(rt, rt.alloc(), case);
    }
}

// Each write of the first case fails in turn: what was written before it stays.
fn fail_each<
    R: Threads + Wait + Abort + Clock + RandomSource + Copy + Drop + Send + Sync + 'static,
>(rt: R, alloc: Global, case: &Case) {
    for call in 0..SERVED.len() {
        let (sender, _replies) = unbounded(alloc).expect(&rt, "no error");
        let mut wires = wires(rt, alloc, case, &sender);
        let (status, written) = run_line(rt, alloc, case.words, &mut wires, NEVER, call as u64);
        assert!(rt; status == Status::WriteFault, "at {call}");
        assert!(rt; written.as_slice() == &SERVED[..call], "at {call}");
    }
}

#[test]
fn each_write_of_a_server_fails(rt: HostRuntime) {
    fail_each(rt, rt.alloc(), &CASES[0])
}
