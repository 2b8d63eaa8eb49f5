//! The timers of all zones.

ghost use Rattle.std.specs.Prelude.{◌≡◌, ◌<◌, ◌≤◌, ◌-◌, ◌^◌, length, position, IfOk, OnOk, OnErr};
ghost use Rattle.notify_poll.specs.Notifying.{answer_to, as_notified, brought_forward, changed_at};
ghost use Rattle.notify_poll.specs.Timers.{after_poll, begun, due_zone, first_timers, is_due, noted};

use crate::notifying::{Notified, answer};
use crate::timer::{Polling, Timer};
use dns_message::{KNOWN_KEY, LEAST_LIMIT, Message, write_message};
use dns_name::Name;
use ip_prefix::Addr;
use std::alloc::{AllocError, Global};
use std::marker::Model;

/// When each zone of a policy is polled next, and what a NOTIFY is answered. It opens no connection and reads no clock: seconds are
/// given. Contracts see the timer of each zone, in order; the first zone has the number 1.
#[derive(Drop)]
pub struct PollCore {
    timers: Vec<Timer>,
}

impl Model for PollCore {
    ghost use Rattle.std.specs.Prelude.{List, ◌<◌, ◌^◌, length};
    ghost use Rattle.notify_poll.specs.declared.timer.Timer.{Timer};

    ghost Value = { List Timer };

    ghost view = { λ p. p.timers.items };

    ghost invariant = { λ p. length p.timers.items < 2 ^ 32 };
}

impl PollCore {
    /// All zones are due from this second on. Each has its primary, from which alone a NOTIFY of it is accepted, or none. There are
    /// fewer than 2^32 zones.
    pub fn start(alloc: Global, primaries: &[Option<Addr>], now: u32) -> Result<Self, AllocError>
        requires { length primaries.now < 2 ^ 32 }
        ensures { IfOk result (λ core. core ≡ first_timers primaries.now now) }
    {
        let timers = primaries
            .iter()
            .map(|primary| Timer::first(*primary, now))
            .collect(alloc)?;
        Ok(PollCore { timers })
    }

    /// The first zone that is due at this second, by its number: no poll of it is under way, and its moment has come. Its time is
    /// linear in the number of zones.
    pub fn due(&self, now: u32) -> Option<u32>
        ensures { result ≡ due_zone self.now now }
    {
        let place = due_place(&self.timers, now)?;
        Some(place as u32 + 1)
    }

    /// A poll of the zone of this number begins: until it has ended, the zone isn't due.
    pub fn begin(&mut self, zone: u32)
        requires low { 1 ≤ zone }
        requires high { zone ≤ length self.old }
        ensures { self.new ≡ changed_at begun self.old (zone - 1) }
    {
        let place = zone as usize - 1;
        self.timers[place] = self.timers[place].begin();
    }

    /// The zone of this number is due from this second on, as where a NOTIFY of it is accepted.
    pub fn hasten(&mut self, zone: u32, now: u32)
        requires low { 1 ≤ zone }
        requires high { zone ≤ length self.old }
        ensures { self.new ≡ changed_at (noted now) self.old (zone - 1) }
    {
        let place = zone as usize - 1;
        self.timers[place] = self.timers[place].note(now);
    }

    /// A poll of the zone of this number ends at this second, or is made in no time. A zone is polled again after the refresh of its
    /// SOA record, where the poll failed after the retry of the last SOA record, or after [`FIRST_RETRY`](crate::FIRST_RETRY) where
    /// none came yet; never before [`LEAST_PAUSE`](crate::LEAST_PAUSE). Where a NOTIFY was accepted while the poll was under way, the
    /// zone is due at once.
    pub fn polled(&mut self, zone: u32, polling: Polling, now: u32)
        requires low { 1 ≤ zone }
        requires high { zone ≤ length self.old }
        ensures { self.new ≡ changed_at (after_poll polling now) self.old (zone - 1) }
    {
        let place = zone as usize - 1;
        self.timers[place] = self.timers[place].end(polling, now);
    }

    /// A message comes from this client, which may ask or may not, at this second. `origins` has the origin of each zone, in order. The reply is written with
    /// its names in full, in at most 512 bytes. The zone that a NOTIFY from its own primary is about is brought forward: it is due,
    /// or polled again behind the poll that is under way. An `Err` leaves all timers as they were.
    pub fn notify(
        &mut self,
        alloc: Global,
        may_ask: bool,
        message: &[u8],
        client: Addr,
        now: u32,
        origins: &[Name],
    ) -> Result<Notified, AllocError>
        ensures notified { IfOk result (λ notified. notified
            ≡ as_notified (answer_to may_ask message.now client origins.now self.old).0) }
        ensures ok { OnOk result (self.new
            ≡ brought_forward now self.old
            (answer_to may_ask message.now client origins.now self.old).1) }
        ensures err { OnErr result (self.new ≡ self.old) }
    {
        let (reply, place) = answer(
            alloc,
            may_ask,
            message,
            client,
            origins,
            self.timers.as_slice(),
        )?;
        let notified = written(alloc, reply)?;
        self.bring_forward(place, now);
        Ok(notified)
    }

    // The zone of this place, if there is one, is due from this second on.
    fn bring_forward(&mut self, place: Option<usize>, now: u32)
        ensures { self.new ≡ brought_forward now self.old place }
    {
        if let Some(place) = place {
            if place < self.timers.len() {
                self.timers[place] = self.timers[place].note(now);
            }
        }
    }
}

// The place of the first timer that is due at this second.
fn due_place(timers: &[Timer], now: u32) -> Option<usize>
    ensures { result ≡ position (is_due now) timers.now }
{
    timers.iter().position(|timer| timer.is_due(now))
}

// The reply as it is sent.
fn written(alloc: Global, reply: Option<Message>) -> Result<Notified, AllocError>
    ensures { IfOk result (λ notified. notified ≡ as_notified reply) }
{
    match reply {
        None => Ok(Notified::Silent),
        Some(reply) => {
            let octets = write_message(alloc, KNOWN_KEY, &reply, LEAST_LIMIT)?;
            Ok(Notified::Reply(octets))
        }
    }
}
