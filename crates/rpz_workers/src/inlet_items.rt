//! Items out of an inlet.

ghost use Rattle.std.specs.Prelude.{◌≡◌, None};
ghost use Rattle.rpz_workers.specs.Items.{item_of_arrival};

use crate::item::{Item, Items, Job};
use edge_io::{Sink, Source};
use ip_prefix::Transport;
use policy_publish::{Latest, StoreName};
use server_io::{Arrival, Inlet, Received};
use std::sync::Wait;

/// What comes to a server, out of an inlet, of which contracts know nothing, and what was published. Before an item comes the list that
/// was published last when it was received, unless the worker has learned it. The end of the inlet reads as `Stop`, and the inlet isn't
/// asked again.
#[derive(Drop)]
pub struct InletItems<
    N: StoreName,
    S: Source + Drop,
    K: Sink + Drop,
    Q: Inlet<S, K> + Drop,
    R: Wait + Copy + Drop,
> {
    rt: R,
    inlet: Q,
    latest: Latest<N>,
    // An item that was received, and comes behind the list.
    received: Option<Item<N, S, K>>,
    has_ended: bool,
}

// What came, as an item of a worker.
fn item_of<N: StoreName, S: Source + Drop, K: Sink + Drop>(arrival: Arrival<S, K>) -> Item<N, S, K>
    ensures { result ≡ item_of_arrival arrival }
{
    match arrival {
        Arrival::Datagram { peer, bytes } => Item::Job(Job {
            peer,
            transport: Transport::Udp,
            message: bytes,
        }),
        Arrival::Connection {
            source,
            sink,
            client,
        } => Item::Connection {
            source,
            sink,
            client,
        },
    }
}

impl<
    N: StoreName,
    S: Source + Drop,
    K: Sink + Drop,
    Q: Inlet<S, K> + Drop,
    R: Wait + Copy + Drop,
> InletItems<N, S, K, Q, R> {
    /// Takes what this inlet gives.
    pub fn new(rt: R, inlet: Q, latest: Latest<N>) -> Self {
        InletItems {
            rt,
            inlet,
            latest,
            received: None,
            has_ended: false,
        }
    }

    // The item that comes next, if one does within the time that the inlet waits.
    fn receive(&mut self) -> Option<Item<N, S, K>> {
        match self.inlet.next() {
            Received::Arrival(arrival) => Some(item_of(arrival)),
            Received::Nothing => None,
            Received::End => {
                self.has_ended = true;
                Some(Item::Stop)
            }
        }
    }
}

impl<
    N: StoreName,
    S: Source + Drop,
    K: Sink + Drop,
    Q: Inlet<S, K> + Drop,
    R: Wait + Copy + Drop,
> Items<N, S, K> for InletItems<N, S, K, Q, R> {
    ghost coming = { λ _. None };

    fn next(&mut self) -> Item<N, S, K> {
        if let Some(item) = self.received.take() {
            return item;
        }
        if self.has_ended {
            return Item::Stop;
        }
        let rt = self.rt;
        for _ in rt.forever() {
            let item = self.receive();
            if let Some(told) = self.latest.newer(&rt) {
                self.received = item;
                return Item::Told(told);
            }
            if let Some(item) = item {
                return item;
            }
        }
        unreachable!()
    }
}
