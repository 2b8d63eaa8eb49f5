//! A whole run of a server over wires in memory, with its workers in threads.
//!
//! The line says the status, `wrote` and the octets of the output, and for each reply `sent` and its octets, by the order of the queries.

ghost use Rattle.std.specs.Prelude.{None};

use crate::samples::{CLIENT_ADDR, DENIED_QUERY, QUERY, make_link};
use crate::sheet::Sheet;
use crate::tried::{after, beside};
use crate::try_error::TryError;
use crossbeam_channel::{Receiver, Sender, bounded};
use dns_name::Octets;
use edge_io::{ListClock, ListIds, ListLink, ListSink, ListSource, TaskSpawner};
use ip_prefix::Transport;
use rpz_program::run::run;
use rpz_program::status::Status;
use rpz_workers::Report;
use server_io::{Arrival, ListWires, Order, Peer, Replies, SendError, StreamEnd, Wake, WireStage};
use std::alloc::{AllocError, Global};
use std::collections::VecDeque;
use std::hash::RandomState;
use std::random::RandomSource;
use std::sync::Wait;
use std::thread::Threads;
use std::time::Clock;

/// The name of this call.
pub const NAMES: &str = "rpz_program::run::serve\n";

// A server of one zone that takes two arrivals, with a worker for datagrams and one that asks.
const LINE: &str =
    "serve --askers 1 --cache 16 127.0.0.1:5300 127.0.0.1:53 2 1 rpz.example@127.0.0.1:5301";

// So many workers have a place for replies: that for datagrams, that which asks, and those for connections.
const WORKERS: u32 = 4;

// So many replies there is room for.
const ROOM: usize = 16;

// The transfer of `rpz.example` in one message of the ID 0: the serial 1, and the row `bad.example` CNAME `.`.
const WHOLE: &[u8] = b"\0\0\x84\0\0\x01\0\x03\0\0\0\0\x03rpz\x07example\0\0\xfc\0\x01\
    \x03rpz\x07example\0\0\x06\0\x01\0\0\0<\0\x16\0\0\0\0\0\x01\0\0\x0e\x10\0\0\x02X\0\x01Q\x80\0\0\0<\
    \x03bad\x07example\x03rpz\x07example\0\0\x05\0\x01\0\0\0<\0\x01\0\
    \x03rpz\x07example\0\0\x06\0\x01\0\0\0<\0\x16\0\0\0\0\0\x01\0\0\x0e\x10\0\0\x02X\0\x01Q\x80\0\0\0<";

// The IDs of the two queries.
const IDS: [u16; 2] = [0x1233, 0x1235];

type Stage = WireStage<ListSource, ListSink>;

type Memory<R> = ListWires<ListSource, ListSink, ListLink, Posts<R>, R>;

// Replies that a channel takes.
#[derive(Drop)]
struct Posts<R: Wait + Drop> {
    rt: R,
    alloc: Global,
    sender: Sender<Octets>,
}

impl<R: Wait + Drop> Replies<ListSource, ListSink> for Posts<R> {
    ghost sent = { λ _. None };

    ghost closings = { λ _. None };

    ghost faults = { λ _. 0 };

    fn send(&mut self, _peer: Peer, _transport: Transport, bytes: &[u8]) -> Result<(), SendError> {
        let reply = Octets::from_slice(self.alloc, bytes)?;
        match self.sender.send(&self.rt, reply) {
            Ok(()) => Ok(()),
            Err(_) => Err(SendError::OutOfMemory),
        }
    }

    fn close(&mut self, _source: ListSource, _sink: ListSink, _end: StreamEnd) {}
}

// A datagram of the client.
fn datagram(alloc: Global, bytes: &[u8]) -> Result<Arrival<ListSource, ListSink>, AllocError> {
    Ok(Arrival::Datagram {
        peer: Peer {
            addr: CLIENT_ADDR,
            port: 53_000,
            listener: 0,
        },
        bytes: Octets::from_slice(alloc, bytes)?,
    })
}

fn push_datagrams(
    alloc: Global,
    datagrams: &mut Vec<Arrival<ListSource, ListSink>>,
) -> Result<(), AllocError> {
    datagrams.push(datagram(alloc, DENIED_QUERY)?)?;
    datagrams.push(datagram(alloc, QUERY)?)?;
    Ok(())
}

// The two queries.
fn make_queries(alloc: Global) -> Result<Stage, AllocError> {
    let mut queries = WireStage::new(alloc, Some(Wake::Due));
    let done = push_datagrams(alloc, &mut queries.datagrams);
    after(queries, done)
}

fn push_both(stages: &mut VecDeque<Stage>, one: Stage, other: Stage) -> Result<(), AllocError> {
    let done = stages.push_back(one);
    let (other, ()) = beside(other, done)?;
    stages.push_back(other)?;
    Ok(())
}

// The transfer comes first, and then the queries.
fn make_stages(alloc: Global) -> Result<VecDeque<Stage>, AllocError> {
    let order = Order { number: 0 };
    let bytes = Octets::from_slice(alloc, WHOLE)?;
    let transfer = WireStage::new(alloc, Some(Wake::Frame { order, bytes }));
    let (transfer, queries) = beside(transfer, make_queries(alloc))?;
    let mut stages = VecDeque::new(alloc);
    let done = push_both(&mut stages, transfer, queries);
    after(stages, done)
}

// A link that gives the response.
fn make_links(alloc: Global) -> Result<VecDeque<ListLink>, AllocError> {
    let link = make_link(alloc, 1)?;
    let mut links = VecDeque::new(alloc);
    let done = links.push_back(link);
    Ok(after(links, done)?)
}

fn push_backs<R: Wait + Copy + Drop>(
    rt: &R,
    alloc: Global,
    sender: &Sender<Octets>,
    backs: &mut VecDeque<Posts<R>>,
) -> Result<(), AllocError> {
    for _count in 0..WORKERS {
        let posts = Posts {
            rt: *rt,
            alloc,
            sender: sender.clone()?,
        };
        backs.push_back(posts)?;
    }
    Ok(())
}

fn make_backs<R: Wait + Copy + Drop>(
    rt: &R,
    alloc: Global,
    sender: &Sender<Octets>,
) -> Result<VecDeque<Posts<R>>, AllocError> {
    let mut backs = VecDeque::new(alloc);
    let done = push_backs(rt, alloc, sender, &mut backs);
    after(backs, done)
}

fn make_wires<R: Wait + Copy + Drop + Send + 'static>(
    rt: &R,
    alloc: Global,
    sender: &Sender<Octets>,
) -> Result<Memory<R>, AllocError> {
    let stages = make_stages(alloc)?;
    let both = beside(stages, make_links(alloc))?;
    let all = beside(both, make_backs(rt, alloc, sender))?;
    let ((stages, links), backs) = all;
    let none = Vec::new(alloc);
    ListWires::new(*rt, alloc, stages, links, backs, none, Vec::new(alloc))
}

fn push_words(alloc: Global, words: &mut Vec<String>) -> Result<(), AllocError> {
    for word in LINE.split(' ') {
        words.push(String::from_str(alloc, word)?)?;
    }
    Ok(())
}

// The words of the line.
fn line_words(alloc: Global) -> Result<Vec<String>, AllocError> {
    let mut words = Vec::new(alloc);
    let done = push_words(alloc, &mut words);
    after(words, done)
}

// How the server ends, and what is written, 16 octets a call.
fn served<R: Threads + Wait + Clock + Copy + Drop + Send + Sync + 'static>(
    rt: &R,
    alloc: Global,
    words: &[String],
    hashers: RandomState,
    sender: &Sender<Octets>,
) -> Result<(Status, Vec<u8>), AllocError> {
    let mut wires = make_wires(rt, alloc, sender)?;
    let mut script = ListSource::new(Vec::new(alloc), 1, Vec::new(alloc));
    let mut out = ListSink::new(Vec::new(alloc), 16, Vec::new(alloc));
    let mut spawner: TaskSpawner<Report, R> = TaskSpawner::new(*rt, alloc, true, Vec::new(alloc));
    let mut clock = ListClock::new(alloc, VecDeque::new(alloc));
    let mut ids = ListIds::new(alloc, VecDeque::new(alloc));
    let status = run(
        rt,
        alloc,
        words,
        &mut script,
        &mut out,
        &mut wires,
        &mut spawner,
        &mut clock,
        &mut ids,
        hashers,
    );
    Ok((status, out.bytes))
}

// The ID of a reply.
fn id_of(reply: &Octets) -> Option<u16> {
    match reply.as_slice() {
        [high, low, ..] => Some(u16::from_be_bytes([*high, *low])),
        _ => None,
    }
}

// How many replies there are, and those of the two IDs.
fn show_replies(sheet: &mut Sheet, replies: &[Octets]) {
    sheet.show(&replies.len());
    for id in IDS {
        for reply in replies {
            if id_of(reply) == Some(id) {
                sheet.say("sent ");
                sheet.show(&reply.as_slice());
            }
        }
    }
}

// Takes what has come, for which there is room.
fn take_all<R: Wait>(rt: &R, receiver: &Receiver<Octets>, replies: &mut Vec<Octets>) {
    for _count in 0..ROOM {
        match receiver.try_recv(rt) {
            Ok(reply) => {
                let _ = replies.push(reply);
            }
            Err(_) => break,
        }
    }
}

fn serve<R: Threads + Wait + Clock + Copy + Drop + Send + Sync + 'static>(
    rt: &R,
    alloc: Global,
    sheet: &mut Sheet,
    words: &[String],
    hashers: RandomState,
) -> Result<(), TryError> {
    let channel = bounded(alloc, ROOM)?;
    let ((sender, receiver), mut replies) = beside(channel, Vec::with_capacity(alloc, ROOM))?;
    let (status, octets) = served(rt, alloc, words, hashers, &sender)?;
    take_all(rt, &receiver, &mut replies);
    sheet.show(&status);
    sheet.show_written(&octets);
    show_replies(sheet, &replies);
    Ok(())
}

/// Does the call of this name twice.
pub fn twice<R: Threads + Wait + Clock + RandomSource + Copy + Drop + Send + Sync + 'static>(
    rt: &R,
    alloc: Global,
    sheet: &mut Sheet,
) -> Result<(), TryError> {
    let words = line_words(alloc)?;
    let hashers = RandomState::new(rt)?;
    let first = serve(rt, alloc, sheet, &words, hashers);
    sheet.settle(first)?;
    let second = serve(rt, alloc, sheet, &words, hashers);
    sheet.settle(second)
}
