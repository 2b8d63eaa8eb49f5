//! Workers in threads of their own, over one cache, and a thread that publishes.

ghost use Rattle.std.specs.Prelude.{◌≡◌};

use crate::bench_error::BenchError;
use crate::caching::BenchCache;
use crate::tried::{after, beside};
use crate::words::Plan;
use answer_cache::Shared;
use axfr_apply::{Taken, Wanted};
use dns_message::KNOWN_KEY;
use dns_name::{Name, Octets};
use dns_record::Soa;
use edge_io::{Bytes, ListIds, ListLink};
use ip_prefix::{Addr, Transport};
use ixfr_apply::read_transfer;
use policy_publish::{Parts, PolicyReader, Publisher, StoreName};
use reply_build::Said;
use rpz_workers::{Answered, Asker, Job, NoGate, Worker};
use server_io::Peer;
use std::alloc::{AllocError, Global};
use std::collections::VecDeque;
use std::hash::RandomState;
use std::sync::atomic::{AtomicU64, Ordering};
use std::sync::{Arc, Wait};
use std::thread;
use std::thread::{JoinHandle, Threads};
use std::time::{Clock, Duration};
use zone_rows::{Rows, Transfer};

type BenchWorker<N, R> = Worker<N, ListLink, Shared<R, ListLink>, Asker<ListLink, ListIds, NoGate>>;

/// The stream of a transfer, and the messages of clients.
#[derive(Drop)]
pub struct Input {
    pub stream: Octets,
    pub messages: Vec<Octets>,
}

/// How many replies there were, and how many messages got none or SERVFAIL.
#[derive(Clone, Copy)]
pub struct Counts {
    pub replies: u64,
    pub others: u64,
}

// A worker over the cache, whose link always fails.
fn worker<N: StoreName, R: Wait + Drop>(
    rt: R,
    alloc: Global,
    reader: PolicyReader<N>,
    cache: &BenchCache,
) -> Result<BenchWorker<N, R>, AllocError> {
    let (reader, cache) = beside(reader, Arc::try_clone(cache))?;
    let shared = Shared::new(rt, cache);
    let link = ListLink::new(Vec::new(alloc), Vec::new(alloc));
    let ids = ListIds::new(alloc, VecDeque::new(alloc));
    Ok(Worker::new(alloc, KNOWN_KEY, reader, shared, link, ids, NoGate))
}

fn push_jobs(alloc: Global, jobs: &mut Vec<Job>, messages: &[Octets]) -> Result<(), AllocError> {
    for message in messages {
        jobs.push(Job {
            peer: Peer {
                addr: Addr::V4(0xc000_0207),
                port: 53_000,
                listener: 0,
            },
            transport: Transport::Udp,
            message: Octets::from_slice(alloc, message.as_slice())?,
        })?;
    }
    Ok(())
}

// The messages as jobs of a client.
fn jobs(alloc: Global, messages: &[Octets]) -> Result<Vec<Job>, AllocError> {
    let mut jobs = Vec::with_capacity(alloc, messages.len())?;
    let done = push_jobs(alloc, &mut jobs, messages);
    after(jobs, done)
}

// Whether a reply isn't SERVFAIL (RFC 1035, section 4.1.1), which comes where the link is asked.
fn is_answer(reply: &[u8]) -> bool {
    match reply.get(3) {
        Some(flags) => *flags % 16 != 2,
        None => false,
    }
}

// Answers a job, and says whether there is such a reply.
fn answers<N: StoreName, R: Wait + Drop>(worker: &mut BenchWorker<N, R>, job: &Job) -> bool {
    match worker.answer(job, 0) {
        Ok(Answered::Said(Said::Reply(reply))) => is_answer(reply.as_slice()),
        _ => false,
    }
}

// Which jobs a worker takes: so many, in turn from this place on, over and over.
#[derive(Clone, Copy)]
struct Turns {
    first: usize,
    queries: u64,
}

// Answers the jobs of these turns.
fn answer_all<N: StoreName, R: Wait + Drop>(
    worker: &mut BenchWorker<N, R>,
    jobs: &[Job],
    turns: Turns,
) -> Counts {
    let mut replies = 0u64;
    let mut others = 0u64;
    let mut place = turns.first;
    for _query in 0..turns.queries {
        if place >= jobs.len() {
            place = 0;
        }
        let Some(job) = jobs.get(place) else {
            break;
        };
        if answers(worker, job) {
            replies = replies.wrapping_add(1);
        } else {
            others = others.wrapping_add(1);
        }
        place = place.wrapping_add(1);
    }
    Counts { replies, others }
}

// A worker in a thread of its own, which counts itself out at its end.
fn start<
    N: StoreName + Send + Sync + 'static,
    R: Threads + Wait + Copy + Drop + Send + Sync + 'static,
>(
    rt: R,
    alloc: Global,
    reader: PolicyReader<N>,
    cache: &BenchCache,
    messages: &[Octets],
    turns: Turns,
    running: Arc<AtomicU64, Global>,
) -> Result<JoinHandle<Counts>, BenchError> {
    let mut worker = worker(rt, alloc, reader, cache)?;
    let jobs = jobs(alloc, messages)?;
    let started = thread::spawn(&rt, move || {
        let counts = answer_all(&mut worker, &jobs, turns);
        running.fetch_sub(1, Ordering::SeqCst);
        counts
    });
    match started {
        Ok(handle) => Ok(handle),
        Err(_) => Err(BenchError::System),
    }
}

// A worker in a thread of its own for each reader. Each begins at another message.
fn start_all<
    N: StoreName + Send + Sync + 'static,
    R: Threads + Wait + Copy + Drop + Send + Sync + 'static,
>(
    rt: R,
    alloc: Global,
    readers: Vec<PolicyReader<N>>,
    cache: &BenchCache,
    messages: &[Octets],
    plan: Plan,
    running: &Arc<AtomicU64, Global>,
) -> Result<Vec<JoinHandle<Counts>>, BenchError> {
    let apart = messages.len().checked_div(plan.workers).unwrap_or(0);
    let mut threads = Vec::new(alloc);
    let mut first = 0usize;
    for reader in readers {
        let count = Arc::try_clone(running)?;
        let turns = Turns {
            first,
            queries: plan.queries,
        };
        threads.push(start(rt, alloc, reader, cache, messages, turns, count)?)?;
        first = first.wrapping_add(apart);
    }
    Ok(threads)
}

// The sum of what the threads count.
fn join_all<R: Threads>(rt: &R, threads: Vec<JoinHandle<Counts>>) -> Counts {
    let mut replies = 0u64;
    let mut others = 0u64;
    for thread in threads {
        let counts = thread.join(rt);
        replies = replies.wrapping_add(counts.replies);
        others = others.wrapping_add(counts.others);
    }
    Counts { replies, others }
}

// The first zone takes the transfer of the input.
fn load<N: StoreName, R: Wait>(
    rt: &R,
    alloc: Global,
    publisher: &mut Publisher<N>,
    stream: Octets,
) -> Result<(), BenchError> {
    if !publisher.has_zone(1) {
        return Err(BenchError::Words);
    }
    let origin = publisher.origin(1).clone()?;
    let mut source = Bytes::new(stream.into_vec());
    let wanted = Wanted::Whole { have: None };
    match read_transfer(alloc, &mut source, 0, &origin, wanted)? {
        Taken::New(transfer) => {
            let _loaded = publisher.publish(rt, 1, transfer)?;
            Ok(())
        }
        Taken::Current { .. } => Err(BenchError::Ended),
    }
}

// A whole transfer of a zone of this serial without a rule, whose SOA has the root for both names.
fn empty_zone(alloc: Global, serial: u32) -> Result<Transfer, AllocError> {
    let mname = Name::root(alloc)?;
    let (mname, rname) = beside(mname, Name::root(alloc))?;
    let soa = Soa {
        mname,
        rname,
        serial,
        refresh: 3_600,
        retry: 600,
        expire: 86_400,
        minimum: 60,
        ttl: 60,
    };
    Ok(Transfer::Whole {
        soa,
        rows: Rows::new(alloc),
    })
}

// Publishes the second zone again and again, while a worker is running.
fn publish_while<N: StoreName, R: Wait + Clock>(
    rt: &R,
    alloc: Global,
    publisher: &mut Publisher<N>,
    running: &AtomicU64,
    pause: u64,
) -> Result<(), BenchError> {
    for serial in 1..u32::MAX {
        if running.load(Ordering::SeqCst) == 0 {
            break;
        }
        if !publisher.has_zone(2) {
            return Err(BenchError::Words);
        }
        let _published = publisher.publish(rt, 2, empty_zone(alloc, serial)?)?;
        thread::sleep(rt, Duration::from_millis(pause));
    }
    Ok(())
}

// Says something on standard error.
fn say<R: Eprint>(rt: &R, text: &str) -> Result<(), BenchError> {
    eprintln!(rt; "{text}")?;
    Ok(())
}

/// Loads the first zone, answers over this cache in as many threads as the store has readers, and publishes the second zone
/// meanwhile.
pub fn serve<
    N: StoreName + Send + Sync + 'static,
    R: Threads + Wait + Clock + Eprint + Copy + Drop + Send + Sync + 'static,
>(
    rt: R,
    alloc: Global,
    parts: Parts,
    cache: &BenchCache,
    input: Input,
    plan: Plan,
) -> Result<Counts, BenchError>
    requires { parts ≡ N.store }
{
    let (mut publisher, readers) = parts.open::<N, R>(&rt, alloc)?;
    let counts = load_and_answer(rt, alloc, &mut publisher, readers, cache, input, plan);
    publisher.close(&rt);
    counts
}

fn load_and_answer<
    N: StoreName + Send + Sync + 'static,
    R: Threads + Wait + Clock + Eprint + Copy + Drop + Send + Sync + 'static,
>(
    rt: R,
    alloc: Global,
    publisher: &mut Publisher<N>,
    readers: Vec<PolicyReader<N>>,
    cache: &BenchCache,
    input: Input,
    plan: Plan,
) -> Result<Counts, BenchError> {
    let Input { stream, messages } = input;
    load(&rt, alloc, publisher, stream)?;
    say(&rt, "loaded")?;
    let running = Arc::new(alloc, AtomicU64::new(readers.len() as u64))?;
    let threads = start_all(rt, alloc, readers, cache, &messages, plan, &running)?;
    publish_while(&rt, alloc, publisher, &running, plan.pause)?;
    let counts = join_all(&rt, threads);
    say(&rt, "answered")?;
    Ok(counts)
}
