//! The reading side of a connection of a client.

ghost use Rattle.std.specs.Prelude.{◌≤◌, ⊤, None, length};

use crate::shared_connection::SharedConnection;
use crate::stretch::Stretch;
use edge_io::{Failed, Source};
use server_io::Peer;
use std::alloc::AllocError;
use std::sync::{Arc, Wait};

/// The reading side of a connection of a client, for the messages that are there whole when a worker gets it, `TURN_MESSAGES` at most.
/// It doesn't tell its bytes. It gives them out of memory, and ends behind the last, so that no read waits or fails. More messages come
/// with another arrival.
#[derive(Drop)]
pub struct ClientSource<R: Wait + Drop> {
    stretch: Stretch<R>,
    // How many bytes were read.
    place: usize,
}

impl<R: Wait + Drop> ClientSource<R> {
    /// Gives these messages.
    pub(crate) fn new(stretch: Stretch<R>) -> Self {
        ClientSource { stretch, place: 0 }
    }

    /// The client.
    pub(crate) fn client(&self) -> Peer {
        self.stretch.client()
    }

    /// Another handle to the connection.
    pub(crate) fn connection(&self) -> Result<Arc<SharedConnection>, AllocError> {
        self.stretch.connection()
    }

    /// Nothing more is read. The connection may go on where its messages were read to their end and that is wanted, and is closed else.
    pub(crate) fn end(self, goes_on: bool) {
        let ClientSource { mut stretch, place } = self;
        if goes_on && place >= stretch.frames().len() {
            stretch.all_read();
        }
        drop(stretch);
    }

    // The bytes that are left.
    fn left(&self) -> &[u8] {
        match self.stretch.frames().get(self.place..) {
            Some(left) => left,
            None => &[],
        }
    }
}

// Copies what there is and fits, and says how much.
fn copy(from: &[u8], into: &mut [u8]) -> usize
    ensures { result ≤ length into.new }
{
    let n = from.len().min(into.len());
    into[..n].copy_from_slice(&from[..n]);
    n
}

impl<R: Wait + Drop> Source for ClientSource<R> {
    ghost left = { λ _. None };

    ghost faults = { λ _. 0 };

    ghost steady = { λ _. ⊤ };

    fn read(&mut self, into: &mut [u8]) -> Result<usize, Failed> {
        let n = copy(self.left(), into);
        self.place = self.place.saturating_add(n);
        Ok(n)
    }
}
