//! A thread that asks the upstream.

use crate::answer_place::{Answer, AnswerPlace};
use crate::limits::{
    UPSTREAM_CONNECT_MILLISECONDS, UPSTREAM_CONNECT_TRIES, UPSTREAM_CROWDED_MILLISECONDS,
    UPSTREAM_FAILURE_MILLISECONDS, UPSTREAM_TRIES,
};
use crate::upstream_connection::UpstreamConnection;
use crate::upstream_connections::{Asked, Choice, OpeningPlace};
use crate::upstream_pool::UpstreamPool;
use crate::upstream_reader::UpstreamReader;
use dns_name::Octets;
use net_base::{JobSender, address_of, time_until};
use std::alloc::{AllocError, AllocFailed, Global};
use std::net::{Net, TcpListener, TcpStream};
use std::sync::{Arc, Wait};
use std::time::{Duration, Instant};
use std::{io, time};

/// Why a question has no answer.
#[derive(Clone, Copy)]
pub(crate) enum AskError {
    OutOfMemory,
    /// Its time was over, or no connection could be had.
    Late,
    /// Its connections were closed, the system is short of something, or nothing is asked any more.
    Failed,
}

impl From<AllocError> for AskError {
    fn from(_: AllocError) -> Self {
        AskError::OutOfMemory
    }
}

impl<T: Drop> From<AllocFailed<T>> for AskError {
    fn from(_: AllocFailed<T>) -> Self {
        AskError::OutOfMemory
    }
}

/// What a thread has that asks the upstream: the pool that it shares with others, and what starts threads for connections.
#[derive(Drop)]
pub(crate) struct UpstreamAsker<
    R: Net<Listener = TcpListener, Stream = TcpStream> + time::Clock + Wait + Copy + Drop,
> {
    pub(crate) rt: R,
    pub(crate) pool: Arc<UpstreamPool>,
    pub(crate) jobs: JobSender<UpstreamReader<R>>,
}

// A message as a frame (RFC 1035, section 4.2.2), with this ID in place of its own.
fn frame_of(alloc: Global, number: u16, message: &[u8]) -> Result<Octets, AllocError> {
    let len = u16::try_from(message.len()).unwrap_or(u16::MAX);
    let mut frame = Octets::with_capacity(alloc, message.len().saturating_add(2))?;
    frame.append(&len.to_be_bytes())?;
    frame.append(&number.to_be_bytes())?;
    if let Some(rest) = message.get(2..) {
        frame.append(rest)?;
    }
    Ok(frame)
}

// The ID of a message (RFC 1035, section 4.1.1).
fn id_of(message: &[u8]) -> u16 {
    match message {
        [high, low, ..] => u16::from_be_bytes([*high, *low]),
        _ => 0,
    }
}

impl<
    R: Net<Listener = TcpListener, Stream = TcpStream> + time::Clock + Wait + Copy + Drop,
> UpstreamAsker<R> {
    /// Asks from now on up to `end`, and gives the answer with the ID of the message. Where a connection is closed before the answer came,
    /// the question goes over another one, `UPSTREAM_TRIES` in all. What fails by time is remembered.
    pub(crate) fn ask(
        &self,
        alloc: Global,
        message: &[u8],
        now: Instant,
        end: Instant,
    ) -> Result<Octets, AskError> {
        for _ in 0..UPSTREAM_TRIES {
            let place = Arc::new(alloc, AnswerPlace::new())?;
            match self.ask_once(alloc, message, &place, end) {
                Ok(Answer::Message(message)) => return Ok(message),
                Ok(Answer::OutOfMemory) => return Err(AskError::OutOfMemory),
                Ok(Answer::Closed) => {}
                Err(AskError::Late) => {
                    self.remember(message, place, end.saturating_duration_since(now));
                    return Err(AskError::Late);
                }
                Err(error) => return Err(error),
            }
        }
        Err(AskError::Failed)
    }

    // The question was not answered in its time, which was so long.
    fn remember(&self, message: &[u8], place: Arc<AnswerPlace>, time: Duration) {
        if time >= Duration::from_millis(UPSTREAM_FAILURE_MILLISECONDS)
            && let Ok(now) = Instant::now(&self.rt)
        {
            self.pool.remember(&self.rt, message, place, now);
        }
    }

    // Asks over one connection, and says what became of the question.
    fn ask_once(
        &self,
        alloc: Global,
        message: &[u8],
        place: &Arc<AnswerPlace>,
        end: Instant,
    ) -> Result<Answer, AskError> {
        let asked = self.find(alloc, id_of(message), place, end)?;
        let end = if asked.is_crowded {
            self.soon(end)
        } else {
            end
        };
        let answer = self.send(alloc, message, &asked, place, end);
        self.pool.tell_one();
        answer
    }

    // When the time of a question is over that others want the connection of.
    fn soon(&self, end: Instant) -> Instant {
        let most = Duration::from_millis(UPSTREAM_CROWDED_MILLISECONDS);
        match Instant::now(&self.rt) {
            Ok(now) => now.checked_add(most).map_or(end, |soon| soon.min(end)),
            Err(_) => end,
        }
    }

    // Sends the question, and waits for its answer.
    fn send(
        &self,
        alloc: Global,
        message: &[u8],
        asked: &Asked,
        place: &AnswerPlace,
        end: Instant,
    ) -> Result<Answer, AskError> {
        let Ok(frame) = frame_of(alloc, asked.number, message) else {
            self.give_up(asked);
            return Err(AskError::OutOfMemory);
        };
        if !asked.connection.send(&self.rt, frame.as_slice()) {
            self.give_up(asked);
            return Ok(Answer::Closed);
        }
        match place.wait(&self.rt, end) {
            Some(answer) => Ok(answer),
            None => {
                self.give_up(asked);
                // It may have come meanwhile.
                place.wait(&self.rt, end).ok_or(AskError::Late)
            }
        }
    }

    // Nobody waits for the answer any more.
    fn give_up(&self, asked: &Asked) {
        match Instant::now(&self.rt) {
            Ok(now) => asked.connection.give_up(&self.rt, asked.number, now),
            Err(_) => self.pool.close(&self.rt, &asked.connection),
        }
    }

    // Finds a connection for the question with this ID, and opens one where that is wanted.
    fn find(
        &self,
        alloc: Global,
        id: u16,
        place: &Arc<AnswerPlace>,
        end: Instant,
    ) -> Result<Asked, AskError> {
        for _ in 0..u64::MAX {
            let changes = self.pool.changes();
            let Ok(now) = Instant::now(&self.rt) else {
                return Err(AskError::Failed);
            };
            if now >= end {
                return Err(AskError::Late);
            }
            match self.pool.choose(&self.rt, id, place, now)? {
                Choice::Asked(asked) => return Ok(asked),
                Choice::Open(opening) => return self.open(alloc, opening, id, place, end),
                Choice::Wait => self.pool.wait(&self.rt, changes, end),
                Choice::Again => {}
                Choice::Stopped => return Err(AskError::Failed),
            }
        }
        Err(AskError::Late)
    }

    // Opens a connection for the question. Where that fails, the question goes over another one that takes it.
    fn open(
        &self,
        alloc: Global,
        opening: OpeningPlace,
        id: u16,
        place: &Arc<AnswerPlace>,
        end: Instant,
    ) -> Result<Asked, AskError> {
        let reader = self.connect(alloc, opening.serial, end);
        let Ok(now) = Instant::now(&self.rt) else {
            return Err(AskError::Failed);
        };
        match reader {
            Ok(reader) => self.start(reader, opening, id, place, now),
            Err(error) => match self.pool.fail(&self.rt, opening, id, place, now)? {
                Choice::Asked(asked) => Ok(asked),
                _ if error.kind() == io::ErrorKind::OutOfMemory => Err(AskError::OutOfMemory),
                _ if error.kind() == io::ErrorKind::TimedOut => Err(AskError::Late),
                _ => Err(AskError::Failed),
            },
        }
    }

    // A connection to the upstream, and what reads it.
    fn connect(&self, alloc: Global, serial: u64, end: Instant) -> io::Result<UpstreamReader<R>> {
        let stream = self.connect_in_time(end)?;
        let now = Instant::now(&self.rt)?;
        let connection = UpstreamConnection::new(alloc, serial, stream, now)?;
        match self.reader(alloc, connection) {
            Ok(reader) => Ok(reader),
            Err(_) => Err(io::Error::from(io::ErrorKind::OutOfMemory)),
        }
    }

    fn reader(
        &self,
        alloc: Global,
        connection: UpstreamConnection,
    ) -> Result<UpstreamReader<R>, AllocError> {
        let pool = Arc::try_clone(&self.pool)?;
        let connection = Arc::new(alloc, connection)?;
        UpstreamReader::new(self.rt, alloc, pool, connection)
    }

    // Connects. Each try is short, since nothing else ends it.
    fn connect_in_time(&self, end: Instant) -> io::Result<TcpStream> {
        let most = Duration::from_millis(UPSTREAM_CONNECT_MILLISECONDS);
        for _ in 1..UPSTREAM_CONNECT_TRIES {
            let within = time_until(&self.rt, end)?.min(most);
            let connected = self.connect_once(within);
            if !is_late(&connected) || self.pool.is_stopped(&self.rt) {
                return connected;
            }
        }
        self.connect_once(time_until(&self.rt, end)?.min(most))
    }

    fn connect_once(&self, within: Duration) -> io::Result<TcpStream> {
        self.rt
            .connect_timeout(address_of(self.pool.upstream), within)
    }

    // Gives the connection of a reader to the pool, with the question, and has a thread started for it.
    fn start(
        &self,
        reader: UpstreamReader<R>,
        opening: OpeningPlace,
        id: u16,
        place: &Arc<AnswerPlace>,
        now: Instant,
    ) -> Result<Asked, AskError> {
        let asked = self.add(&reader.connection, opening, id, place, now)?;
        if !self.jobs.start(&self.rt, reader) {
            self.pool.close(&self.rt, &asked.connection);
        }
        Ok(asked)
    }

    // Gives a connection to the pool, with the question. It is apart from `start`, which has a reader to drop.
    fn add(
        &self,
        connection: &Arc<UpstreamConnection>,
        opening: OpeningPlace,
        id: u16,
        place: &Arc<AnswerPlace>,
        now: Instant,
    ) -> Result<Asked, AskError> {
        let connection = Arc::try_clone(connection)?;
        let added = self
            .pool
            .add(&self.rt, opening, connection, id, place, now)?;
        match added {
            Some(asked) => Ok(asked),
            None => Err(AskError::Failed),
        }
    }
}

fn is_late(connected: &io::Result<TcpStream>) -> bool {
    match connected {
        Ok(_) => false,
        Err(error) => error.kind() == io::ErrorKind::TimedOut,
    }
}
