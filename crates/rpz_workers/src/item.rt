//! The items of a worker: jobs, connections, lists of transfers, and Stop.

ghost use Rattle.std.specs.Prelude.{List, Option};
ghost use Rattle.rpz_workers.specs.Items.{NextItem};
ghost use Rattle.rpz_workers.specs.declared.item.Item as items;

use dns_name::Octets;
use edge_io::{Sink, Source};
use ip_prefix::Transport;
use policy_publish::{StoreName, Told};
use server_io::Peer;

/// A message of a client: where it came from, over which transport, and its bytes.
#[derive(Debug, Drop)]
pub struct Job {
    pub peer: Peer,
    pub transport: Transport,
    pub message: Octets,
}

/// What a worker takes. Versions are those of the store that `N` names.
#[derive(Drop)]
pub enum Item<N: StoreName, S: Source + Drop, K: Sink + Drop> {
    /// A message, whose reply goes out over the transport over which it came.
    Job(Job),
    /// A connection of a client, with its messages.
    Connection { source: S, sink: K, client: Peer },
    /// A list of transfers that was published.
    Told(Told<N>),
    /// The end of the run.
    Stop,
}

/// Where items come from.
///
/// Of a list in memory contracts know which items are still to come, and not of an inlet or a channel.
pub trait Items<N: StoreName, S: Source + Drop, K: Sink + Drop> {
    /// The items that `next` is still to give, in order, where they are known. After the last comes `Stop`.
    ghost coming: { Self → Option (List (items.Item N S K)) };

    /// The next item.
    fn next(&mut self) -> Item<N, S, K>
        ensures { NextItem (coming self.old) result (coming self.new) };
}
