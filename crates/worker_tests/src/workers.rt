//! Workers over links in memory, and their caches.

use answer_cache::{AnswerCache, Keeps, Shared, SharedCache};
use dns_message::KNOWN_KEY;
use dns_name::Octets;
use edge_io::{ListIds, ListLink};
use ip_prefix::{Addr, Transport};
use policy_publish::{PolicyReader, StoreName};
use rpz_workers::{Asker, Gate, Job, Worker};
use server_io::Peer;
use std::alloc::Global;
use std::collections::VecDeque;
use std::hash::{BuildHasherDefault, FoldHasher, RandomState};
use std::process::Abort;
use std::random::RandomSource;
use std::sync::{Arc, Wait};

type Hashers = BuildHasherDefault<FoldHasher>;

/// A cache of a worker's own.
pub type OwnCache = AnswerCache<ListLink, Hashers>;

/// The cache that workers share.
pub type CommonCache = Arc<SharedCache<ListLink>, Global>;

/// A worker's hold on it.
pub type Hold<R> = Shared<R, ListLink>;

/// A worker over a link and IDs in memory, and over a cache of this kind.
pub type WorkerOver<N, A, G> = Worker<N, ListLink, A, Asker<ListLink, ListIds, G>>;

/// The same with a cache of its own.
pub type ListWorker<N, G> = WorkerOver<N, OwnCache, G>;

/// An empty cache of a worker's own, for four entries.
pub fn own_cache<R: Abort>(rt: &R, alloc: Global) -> OwnCache {
    AnswerCache::open(alloc, 4, BuildHasherDefault::new()).expect(rt, "no error")
}

/// An empty cache that workers share, for four entries in each shard.
pub fn common_cache<R: Abort + RandomSource>(rt: &R, alloc: Global) -> CommonCache {
    let cache = SharedCache::open(alloc, 4, RandomState::new(rt).expect(rt, "no error")).expect(
        rt, "no error",
    );
    Arc::new(alloc, cache).expect(rt, "no error")
}

/// A hold on an empty cache that nobody else uses.
pub fn lone_hold<R: Abort + Wait + RandomSource + Drop>(rt: R, alloc: Global) -> Hold<R> {
    let cache = common_cache(&rt, alloc);
    Shared::new(rt, cache)
}

// The IDs 1 and 2.
fn ids<R: Abort>(rt: &R, alloc: Global) -> ListIds {
    let mut ids = VecDeque::new(alloc);
    ids.push_back(1).expect(rt, "no error");
    ids.push_back(2).expect(rt, "no error");
    ListIds::new(alloc, ids)
}

/// A worker with one of the readers and this cache, whose link gives these messages and then fails, and whose IDs are 1 and 2.
pub fn worker_over<N: StoreName, A: Keeps<ListLink> + Drop, G: Gate + Drop, R: Abort>(
    rt: &R,
    alloc: Global,
    readers: &mut Vec<PolicyReader<N>>,
    cache: A,
    messages: Vec<Octets>,
    gate: G,
) -> WorkerOver<N, A, G> {
    let ids = ids(rt, alloc);
    let link = ListLink::new(messages, Vec::new(alloc));
    let reader = readers.pop().expect(rt, "a reader");
    Worker::new(alloc, KNOWN_KEY, reader, cache, link, ids, gate)
}

/// The same with an empty cache of its own.
pub fn list_worker<N: StoreName, G: Gate + Drop, R: Abort>(
    rt: &R,
    alloc: Global,
    readers: &mut Vec<PolicyReader<N>>,
    messages: Vec<Octets>,
    gate: G,
) -> ListWorker<N, G> {
    worker_over(rt, alloc, readers, own_cache(rt, alloc), messages, gate)
}

/// The client, at a port of the address 192.0.2.7.
pub fn client(port: u16) -> Peer {
    Peer {
        addr: Addr::V4(0xc000_0207),
        port,
        listener: 0,
    }
}

/// A message of the client.
pub fn job_over<R: Abort>(
    rt: &R,
    alloc: Global,
    transport: Transport,
    port: u16,
    message: &[u8],
) -> Job {
    Job {
        peer: client(port),
        transport,
        message: Octets::from_slice(alloc, message).expect(rt, "no error"),
    }
}

/// A message of the client over UDP.
pub fn job<R: Abort>(rt: &R, alloc: Global, port: u16, message: &[u8]) -> Job {
    job_over(rt, alloc, Transport::Udp, port, message)
}
