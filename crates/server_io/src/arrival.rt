// What comes to a server, and where its threads take it from.
use crate::Peer;
use dns_name::Octets;
use edge_io::{Sink, Source};

/// What comes to a server.
#[derive(Drop)]
pub enum Arrival<S: Source + Drop, K: Sink + Drop> {
    /// A datagram, and who sent it.
    Datagram { peer: Peer, bytes: Octets },
    /// A connection that a client has opened.
    Connection { source: S, sink: K, client: Peer },
}

/// What an inlet gives.
#[derive(Drop)]
pub enum Received<S: Source + Drop, K: Sink + Drop> {
    Arrival(Arrival<S, K>),
    /// None has come for some seconds.
    Nothing,
    /// None comes any more.
    End,
}

/// Where a thread that answers clients takes arrivals from.
///
/// The inlets of several threads share what comes, so that no contract says what one of them gives.
pub trait Inlet<S: Source + Drop, K: Sink + Drop> {
    /// Waits for the next arrival, a few seconds at most. Behind `End` it gives nothing else.
    fn next(&mut self) -> Received<S, K>;
}
