//! The thread that reads what comes on a connection to the upstream.

use crate::answer_place::{Answer, AnswerPlace};
use crate::upstream_connection::UpstreamConnection;
use crate::upstream_frames::UpstreamFrames;
use crate::upstream_pool::UpstreamPool;
use dns_name::Octets;
use net_base::{Job, KeptJob};
use std::alloc::{AllocError, Global};
use std::sync::{Arc, Wait};
use std::time::Instant;
use std::{io, time};

/// What reads a connection to the upstream, in a thread of its own, and hands each answer to who waits for it.
#[derive(Drop)]
pub(crate) struct UpstreamReader<R: time::Clock + Wait + Copy + Drop> {
    rt: R,
    alloc: Global,
    pool: Arc<UpstreamPool>,
    /// What it reads.
    pub(crate) connection: Arc<UpstreamConnection>,
    frames: UpstreamFrames,
}

// Whether nothing has come for now.
fn is_pause(error: &io::Error) -> bool {
    matches!(
        error.kind(),
        io::ErrorKind::WouldBlock | io::ErrorKind::TimedOut | io::ErrorKind::Interrupted
    )
}

// The message with this ID in place of its own (RFC 1035, section 4.1.1).
fn with_id(alloc: Global, id: u16, message: &[u8]) -> Result<Octets, AllocError> {
    let mut octets = Octets::with_capacity(alloc, message.len())?;
    octets.append(&id.to_be_bytes())?;
    if let Some(rest) = message.get(2..) {
        octets.append(rest)?;
    }
    Ok(octets)
}

impl<R: time::Clock + Wait + Copy + Drop> UpstreamReader<R> {
    /// Reads this connection of this pool.
    pub(crate) fn new(
        rt: R,
        alloc: Global,
        pool: Arc<UpstreamPool>,
        connection: Arc<UpstreamConnection>,
    ) -> Result<Self, AllocError> {
        Ok(UpstreamReader {
            rt,
            alloc,
            pool,
            connection,
            frames: UpstreamFrames::new(alloc)?,
        })
    }

    // Hands on what comes.
    fn read_all(&mut self) {
        for _ in 0..u64::MAX {
            let received = self.frames.receive(&self.connection.stream);
            let Ok(now) = Instant::now(&self.rt) else {
                return;
            };
            match received {
                Ok(0) => return,
                Ok(_) => self.hand_on(now),
                Err(error) if is_pause(&error) => {}
                Err(_) => return,
            }
            if self.connection.close_if_done(&self.rt, now) {
                return;
            }
        }
    }

    // Hands on the answers that have come whole. One that nobody waits for is dropped.
    fn hand_on(&mut self, now: Instant) {
        for _ in 0..u64::MAX {
            let Some(message) = self.frames.message() else {
                return;
            };
            if let [high, low, ..] = message {
                let number = u16::from_be_bytes([*high, *low]);
                if let Some((id, place)) = self.connection.answer(&self.rt, number, now) {
                    give(&self.rt, &place, with_id(self.alloc, id, message));
                }
            }
            self.frames.pass();
        }
    }
}

fn give<R: Wait>(rt: &R, place: &AnswerPlace, message: Result<Octets, AllocError>) {
    match message {
        Ok(message) => place.give(rt, Answer::Message(message)),
        Err(_) => place.give(rt, Answer::OutOfMemory),
    }
}

/// A connection that a thread reads.
#[derive(Drop)]
pub(crate) struct ReadConnection<R: time::Clock + Wait + Copy + Drop> {
    rt: R,
    connection: Arc<UpstreamConnection>,
}

impl<R: time::Clock + Wait + Copy + Drop> KeptJob for ReadConnection<R> {
    fn has_ended(&self) -> bool {
        self.connection.has_ended()
    }

    fn end(&self) {
        self.connection.close(&self.rt);
    }

    fn fail(&self) {
        self.connection.close(&self.rt);
    }
}

impl<R: time::Clock + Wait + Copy + Drop> Job<ReadConnection<R>> for UpstreamReader<R> {
    fn kept(&self) -> Result<Option<ReadConnection<R>>, AllocError> {
        Ok(Some(ReadConnection {
            rt: self.rt,
            connection: Arc::try_clone(&self.connection)?,
        }))
    }

    // Reads until the upstream closes the connection, an error comes, or it isn't wanted any more. Then it is closed.
    fn run(self) {
        let mut reader = self;
        reader.read_all();
        reader.pool.close(&reader.rt, &reader.connection);
        reader.connection.end();
    }

    // Closes it: it isn't read.
    fn refuse(self) {
        self.pool.close(&self.rt, &self.connection);
    }
}
