//! Calls of a worker with a link, a cache and replies in memory.

use crate::publish_calls::Deed;
use crate::samples::{CLIENT_ADDR, DENIED_QUERY, QUERY, make_link};
use crate::sheet::Sheet;
use crate::stream_calls::serve;
use crate::tried::{after, beside};
use crate::try_error::TryError;
use answer_cache::AnswerCache;
use dns_message::KNOWN_KEY;
use dns_name::Octets;
use edge_io::{ListClock, ListIds, ListLink, ListSink, ListSource};
use ip_prefix::Transport;
use policy_publish::{PolicyReader, StoreName};
use rpz_workers::{Asker, Item, Job, ListItems, NoGate, NoOnward, Worker};
use server_io::{ListReplies, Peer};
use std::alloc::{AllocError, Global};
use std::collections::VecDeque;
use std::hash::{BuildHasherDefault, FoldHasher};
use std::sync::Wait;

/// The names of these calls.
pub const NAMES: &str = "rpz_workers::Worker::answer::rule\n\
    rpz_workers::Worker::answer::upstream\n\
    rpz_workers::Worker::serve_stream\n\
    answers_under_refusal::rule\n\
    answers_under_refusal::upstream\n";

/// The hashers of its cache.
pub type Hashers = BuildHasherDefault<FoldHasher>;

/// A worker over a link and a cache in memory.
pub type ListWorker<N> = Worker<
    N,
    ListLink,
    AnswerCache<ListLink, Hashers>,
    Asker<ListLink, ListIds, NoGate>,
>;

type Kept = ListReplies<ListSource, ListSink>;

// A worker over this reader, whose IDs are all 0.
fn make_worker<N: StoreName>(
    alloc: Global,
    reader: PolicyReader<N>,
) -> Result<ListWorker<N>, AllocError> {
    let cache = AnswerCache::open(alloc, 4, BuildHasherDefault::new());
    let all = beside(reader, cache)?;
    let ((reader, cache), link) = beside(all, make_link(alloc, 3))?;
    let ids = ListIds::new(alloc, VecDeque::new(alloc));
    Ok(Worker::new(alloc, KNOWN_KEY, reader, cache, link, ids, NoGate))
}

// The query of the client.
fn make_job(alloc: Global, is_denied: bool) -> Result<Job, AllocError> {
    let message = if is_denied { DENIED_QUERY } else { QUERY };
    Ok(Job {
        peer: Peer {
            addr: CLIENT_ADDR,
            port: 53_000,
            listener: 0,
        },
        transport: Transport::Udp,
        message: Octets::from_slice(alloc, message)?,
    })
}

fn push_items<N: StoreName>(
    alloc: Global,
    is_denied: bool,
    items: &mut VecDeque<Item<N, ListSource, ListSink>>,
) -> Result<(), TryError> {
    let job = make_job(alloc, is_denied)?;
    items.push_back(Item::Job(job))?;
    items.push_back(Item::Stop)?;
    Ok(())
}

// The query, and the end.
fn make_items<N: StoreName>(
    alloc: Global,
    is_denied: bool,
) -> Result<ListItems<N, ListSource, ListSink>, TryError> {
    let mut items = VecDeque::new(alloc);
    let done = push_items(alloc, is_denied, &mut items);
    let items = after(items, done)?;
    Ok(ListItems::new(items))
}

// What a worker sends over the query and the end.
fn send<N: StoreName, R: Wait>(
    rt: &R,
    alloc: Global,
    sheet: &mut Sheet,
    is_denied: bool,
    worker: &mut ListWorker<N>,
) -> Result<(), TryError> {
    let mut items = make_items::<N>(alloc, is_denied)?;
    let mut replies: Kept = ListReplies::new(alloc, Vec::new(alloc));
    let mut clock = ListClock::new(alloc, VecDeque::new(alloc));
    let _report = worker.work(rt, &mut items, &mut replies, &mut clock, &mut NoOnward);
    sheet.say("sent ");
    for reply in &replies.sent {
        sheet.show(&reply.bytes.as_slice());
    }
    Ok(())
}

fn answer<N: StoreName>(
    alloc: Global,
    sheet: &mut Sheet,
    is_denied: bool,
    worker: &mut ListWorker<N>,
) -> Result<(), TryError> {
    let job = make_job(alloc, is_denied)?;
    sheet.show_result(worker.answer(&job, 0))
}

fn once<N: StoreName, R: Wait>(
    rt: &R,
    alloc: Global,
    sheet: &mut Sheet,
    deed: Deed,
    worker: &mut ListWorker<N>,
) -> Result<(), TryError> {
    match deed {
        Deed::Answer { is_denied } => answer(alloc, sheet, is_denied, worker),
        Deed::Send { is_denied } => send(rt, alloc, sheet, is_denied, worker),
        Deed::Serve => serve(alloc, sheet, worker),
        _ => Err(TryError::Words),
    }
}

fn both_times<N: StoreName, R: Wait>(
    rt: &R,
    alloc: Global,
    sheet: &mut Sheet,
    deed: Deed,
    worker: &mut ListWorker<N>,
) -> Result<(), TryError> {
    let first = once(rt, alloc, sheet, deed, worker);
    sheet.settle(first)?;
    let second = once(rt, alloc, sheet, deed, worker);
    sheet.settle(second)
}

/// Does it twice with a worker over this reader.
pub fn work_twice<N: StoreName, R: Wait>(
    rt: &R,
    alloc: Global,
    sheet: &mut Sheet,
    deed: Deed,
    reader: PolicyReader<N>,
) -> Result<(), TryError> {
    let mut worker = make_worker(alloc, reader)?;
    both_times(rt, alloc, sheet, deed, &mut worker)
}
