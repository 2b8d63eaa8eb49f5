//! The connections of an upstream pool.

use crate::answer_place::AnswerPlace;
use crate::limits::{
    UPSTREAM_ALL_CONNECTIONS, UPSTREAM_CONNECTIONS, UPSTREAM_FEW_QUESTIONS, UPSTREAM_REST_SECONDS,
};
use crate::upstream_connection::UpstreamConnection;
use crate::upstream_manner::UpstreamManner;
use crate::upstream_questions::{Closing, Load};
use crate::wire_numbers::WireNumbers;
use std::alloc::{AllocError, Global};
use std::sync::atomic::{AtomicU64, Ordering};
use std::sync::{Arc, Wait};
use std::time::{Duration, Instant};

/// A question that stands on a connection, and has to be sent.
#[derive(Drop)]
pub(crate) struct Asked {
    pub(crate) connection: Arc<UpstreamConnection>,
    /// Its number there.
    pub(crate) number: u16,
    /// No other question can have this connection, and half of those that there may be are taken.
    pub(crate) is_crowded: bool,
}

/// The place of a connection that is being opened. It becomes free where this is dropped.
pub(crate) struct OpeningPlace {
    /// Which one of the pool it is to be.
    pub(crate) serial: u64,
    // How many are being opened.
    opening: Arc<AtomicU64>,
}

impl Drop for OpeningPlace {
    fn drop(self) {
        let OpeningPlace { serial: _, opening } = self;
        opening.fetch_sub(1, Ordering::SeqCst);
    }
}

/// What a thread has to do that wants to ask.
#[derive(Drop)]
pub(crate) enum Choice {
    /// Its question stands on a connection.
    Asked(Asked),
    /// It has to open a connection in this place, and to say how that went.
    Open(OpeningPlace),
    /// It has to wait for a change.
    Wait,
    /// It has to choose again, since a connection was just closed.
    Again,
    /// Nothing is asked any more.
    Stopped,
}

/// The connections of an upstream pool, and what is known of the upstream.
#[derive(Drop)]
pub(crate) struct UpstreamConnections {
    open: Vec<Arc<UpstreamConnection>>,
    // How many are being opened, and how many were.
    opening: Arc<AtomicU64>,
    begun: u64,
    numbers: WireNumbers,
    manner: UpstreamManner,
    // Until when no connection is opened beside others, since one could not be had.
    rests_until: Option<Instant>,
    is_stopped: bool,
}

// What there is for one more question, by places among the open connections.
#[derive(Clone, Copy)]
struct Room {
    // The first with few questions of which no answer is late.
    few: Option<usize>,
    // The best of those that take one more: that with the fewest questions, and with none that is late, if there is one.
    least: Option<(usize, Load)>,
    // How many have not stopped taking questions.
    taking: usize,
}

impl UpstreamConnections {
    /// None is open.
    pub(crate) fn new(alloc: Global) -> Result<Self, AllocError> {
        let Ok(opening) = Arc::new(alloc, AtomicU64::new(0)) else {
            return Err(AllocError);
        };
        Ok(UpstreamConnections {
            open: Vec::new(alloc),
            opening,
            begun: 0,
            numbers: WireNumbers::new(),
            manner: UpstreamManner::new(),
            rests_until: None,
            is_stopped: false,
        })
    }

    // How many are being opened.
    fn opening(&self) -> u64 {
        self.opening.load(Ordering::SeqCst)
    }

    /// Whether nothing is asked any more.
    pub(crate) fn is_stopped(&self) -> bool {
        self.is_stopped
    }

    // Looks for room for one more question.
    fn room<R: Wait>(&self, rt: &R, now: Instant) -> Room {
        let mut room = Room {
            few: None,
            least: None,
            taking: 0,
        };
        for (place, connection) in self.open.iter().enumerate() {
            if let Some(load) = connection.load(rt, now) {
                room.taking = room.taking.saturating_add(1);
                if load.has_room {
                    room.add(place, load);
                }
            }
        }
        room
    }

    // Whether one more is opened, where none has few questions and so many threads wait for a change. Where others take the question,
    // one is opened at a time. Where none does, those that wait get the room of the ones that are being opened.
    fn wants_more(&self, room: &Room, waiting: u64, now: Instant) -> bool {
        let opening = self.opening();
        let is_taken = opening.saturating_add(room.taking as u64) >= UPSTREAM_CONNECTIONS;
        if is_taken || self.is_full() {
            return false;
        }
        match room.least {
            Some(_) => opening == 0 && self.rests_until.is_none_or(|until| until <= now),
            None => waiting >= opening.saturating_mul(UPSTREAM_FEW_QUESTIONS as u64 - 1),
        }
    }

    // How many are open or being opened.
    fn taken(&self) -> u64 {
        self.opening().saturating_add(self.open.len() as u64)
    }

    fn is_full(&self) -> bool {
        self.taken() >= UPSTREAM_ALL_CONNECTIONS
    }

    // One is being opened from now on.
    fn begin(&mut self) -> Result<Choice, AllocError> {
        let opening = Arc::try_clone(&self.opening)?;
        opening.fetch_add(1, Ordering::SeqCst);
        let serial = self.begun;
        self.begun = serial.saturating_add(1);
        Ok(Choice::Open(OpeningPlace { serial, opening }))
    }

    /// Where the question with this ID goes, whose answer comes to this place, while so many threads wait for a change.
    pub(crate) fn choose<R: Wait>(
        &mut self,
        rt: &R,
        waiting: u64,
        id: u16,
        place: &Arc<AnswerPlace>,
        now: Instant,
    ) -> Result<Choice, AllocError> {
        if self.is_stopped {
            return Ok(Choice::Stopped);
        }
        if self.manner.is_single(now) {
            if self.is_full() {
                return Ok(Choice::Wait);
            }
            return self.begin();
        }
        let room = self.room(rt, now);
        if room.few.is_none() && self.wants_more(&room, waiting, now) {
            return self.begin();
        }
        self.ask(rt, &room, id, place, now)
    }

    // Puts the question where there is room.
    fn ask<R: Wait>(
        &mut self,
        rt: &R,
        room: &Room,
        id: u16,
        place: &Arc<AnswerPlace>,
        now: Instant,
    ) -> Result<Choice, AllocError> {
        let Some(best) = room.best() else {
            return Ok(Choice::Wait);
        };
        let Some(connection) = self.open.get(best) else {
            return Ok(Choice::Wait);
        };
        let connection = Arc::try_clone(connection)?;
        let place = Arc::try_clone(place)?;
        match connection.ask(rt, &mut self.numbers, id, place, now)? {
            Some(number) => Ok(Choice::Asked(Asked {
                connection,
                number,
                is_crowded: false,
            })),
            None => Ok(Choice::Again),
        }
    }

    /// A connection was opened in this place, and takes the question with this ID first; `None` where nothing is asked any more. Where
    /// the upstream gets one question on each, it takes no other.
    pub(crate) fn add<R: Wait>(
        &mut self,
        rt: &R,
        opened: OpeningPlace,
        connection: Arc<UpstreamConnection>,
        id: u16,
        place: &Arc<AnswerPlace>,
        now: Instant,
    ) -> Result<Option<Asked>, AllocError> {
        drop(opened);
        if self.is_stopped {
            return Ok(None);
        }
        let place = Arc::try_clone(place)?;
        let again = Arc::try_clone(&connection)?;
        let Some(number) = connection.ask(rt, &mut self.numbers, id, place, now)? else {
            return Ok(None);
        };
        let is_single = self.manner.is_single(now);
        if is_single {
            connection.retire(rt);
        }
        self.open.push(connection)?;
        Ok(Some(Asked {
            connection: again,
            number,
            is_crowded: is_single && self.taken() > UPSTREAM_ALL_CONNECTIONS / 2,
        }))
    }

    /// A connection could not be opened in this place. Says where the question goes, where another one takes it.
    pub(crate) fn fail<R: Wait>(
        &mut self,
        rt: &R,
        failed: OpeningPlace,
        id: u16,
        place: &Arc<AnswerPlace>,
        now: Instant,
    ) -> Result<Choice, AllocError> {
        drop(failed);
        self.rests_until = now.checked_add(Duration::from_secs(UPSTREAM_REST_SECONDS));
        if self.is_stopped || self.manner.is_single(now) {
            return Ok(Choice::Stopped);
        }
        let room = self.room(rt, now);
        self.ask(rt, &room, id, place, now)
    }

    /// The connection of this serial was closed, so and at this moment, where the clock can be read.
    pub(crate) fn remove(&mut self, serial: u64, closing: Option<(Closing, Instant)>) {
        if let Some(place) = self.open.iter().position(|known| known.serial == serial) {
            let connection = self.open.swap_remove(place);
            drop(connection);
            if let Some((closing, now)) = closing {
                self.manner.note(closing, now);
            }
        }
    }

    /// Closes all of them. Nothing is asked any more.
    pub(crate) fn stop<R: Wait>(&mut self, rt: &R) {
        self.is_stopped = true;
        for _ in 0..self.open.len() {
            if let Some(connection) = self.open.pop() {
                connection.close(rt);
            }
        }
    }
}

impl Room {
    // The connection at this place takes one more question, and has these.
    fn add(&mut self, place: usize, load: Load) {
        if self.few.is_none() && load.asked < UPSTREAM_FEW_QUESTIONS && !load.is_late {
            self.few = Some(place);
        }
        if self.least.is_none_or(|(_, least)| load.is_better(&least)) {
            self.least = Some((place, load));
        }
    }

    // Where one more question goes.
    fn best(&self) -> Option<usize> {
        match (self.few, self.least) {
            (Some(place), _) => Some(place),
            (None, Some((place, _))) => Some(place),
            (None, None) => None,
        }
    }
}
