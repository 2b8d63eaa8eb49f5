//! Messages of a connection for a worker.

use crate::shared_connection::{SharedConnection, StretchEnd};
use server_io::Peer;
use std::alloc::AllocError;
use std::sync::{Arc, Wait};

/// Some messages of a connection, for one worker. Once it is dropped, the thread that has the connections has this one again: it closes
/// it, unless `all_read` was called.
pub(crate) struct Stretch<R: Wait + Drop> {
    rt: R,
    connection: Arc<SharedConnection>,
    // Whole frames.
    frames: Vec<u8>,
    end: StretchEnd,
}

impl<R: Wait + Drop> Stretch<R> {
    /// These frames of this connection.
    pub(crate) fn new(rt: R, connection: Arc<SharedConnection>, frames: Vec<u8>) -> Self {
        Stretch {
            rt,
            connection,
            frames,
            end: StretchEnd::Closed,
        }
    }

    /// The client.
    pub(crate) fn client(&self) -> Peer {
        self.connection.peer()
    }

    /// Another handle to the connection.
    pub(crate) fn connection(&self) -> Result<Arc<SharedConnection>, AllocError> {
        Arc::try_clone(&self.connection)
    }

    /// Its bytes.
    pub(crate) fn frames(&self) -> &[u8] {
        self.frames.as_slice()
    }

    /// All messages were read.
    pub(crate) fn all_read(&mut self) {
        self.end = StretchEnd::AllRead;
    }

    /// Takes the frames back, which no worker has had.
    pub(crate) fn into_frames(self) -> Vec<u8> {
        let Stretch {
            rt,
            connection,
            frames,
            end: _,
        } = self;
        drop(rt);
        drop(connection);
        frames
    }
}

impl<R: Wait + Drop> Drop for Stretch<R> {
    fn drop(self) {
        let Stretch {
            rt,
            connection,
            frames,
            end,
        } = self;
        drop(frames);
        connection.give_back(&rt, end);
        drop(connection);
        drop(rt);
    }
}
