//! The core.

ghost use Rattle.std.specs.Prelude.{◌≡◌, ◌≤◌, length, map, IfOk, is_some, Ok};
ghost use Rattle.std.specs.Option.{unwrap_or};
ghost use Rattle.zone_rows.specs.declared.zone.TheConstants.{ZONE_LIMIT};
ghost use Rattle.notify_poll.specs.Timers.{due_zone};
ghost use Rattle.policy_snapshot.specs.Policy.{zone_at};
ghost use Rattle.rpz_core.specs.Offered.{core_by_offered, policy_by_offered};
ghost use Rattle.rpz_core.specs.State.{Steps, StepsBare, TurnsBare, core_step, uncached_core, full_step, new_core, notify_step, as_core_outcome, state_of, transfer_step};
ghost use Rattle.rpz_core.specs.World.{World, new_world, notified_output as output_by, world_step};

use crate::event::{CoreError, CoreFault, Event, Output};
use crate::laws::the_core_does_what_the_world_does;
use crate::offer::{Offered, read_offer};
use crate::sessions::{Sessions, WORKERS};
use dns_name::{Name, Octets};
use ip_prefix::Addr;
use ixfr_apply::{Marks, wanted};
use networks::AllowList;
use notify_poll::{Notified, PollCore, Polling};
use policy_override::{ZoneSet, origins_of};
use policy_snapshot::Snapshot;
use policy_snapshot::laws::a_policy_takes_transfers_one_by_one;
use std::alloc::{AllocError, Global};
use std::marker::Model;
use std::sync::Arc;

/// The policy as it is, which of its zones are asked for whole next, when each is polled, the workers with their pending queries,
/// one cache for all of them, the networks whose clients may ask, and the clock. Contracts see these, and the origins of the zones; a
/// pending query holds the policy that it came under, which stays as it is when a transfer is taken.
#[derive(Drop)]
pub struct Core {
    alloc: Global,
    origins: Vec<Name>,
    allowed: AllowList,
    policy: Arc<Snapshot, Global>,
    marks: Marks,
    timers: PollCore,
    sessions: Sessions,
    clock: u32,
}

impl Model for Core {
    ghost use Rattle.std.specs.Prelude.{◌≡◌, length};
    ghost use Rattle.rpz_core.specs.State.{CoreState};

    ghost Value = { CoreState };

    ghost view = { λ c. record {
      origins = c.origins.items;
      allowed = c.allowed;
      policy = c.policy.value;
      marks = c.marks;
      timers = c.timers;
      sessions = c.sessions;
      clock = c.clock;
    } };

    ghost invariant = { λ c. length c.timers ≡ length c.policy.value.zones };
}

impl Core {
    /// Zones of these settings in this order, at most 64, with nothing loaded, each of which has its primary or none, and the networks
    /// whose clients may ask. All zones are due, and no query is pending.
    pub fn start(
        alloc: Global,
        settings: &[ZoneSet],
        primaries: &[Option<Addr>],
        allowed: AllowList,
    ) -> Result<Self, AllocError>
        requires limit { length settings.now ≤ ZONE_LIMIT }
        requires primaries { length primaries.now ≡ length settings.now }
        ensures core { IfOk result (λ core. core ≡ new_core settings.now primaries.now allowed) }
        ensures world { IfOk result
            (λ core. core ≡ state_of (new_world settings.now primaries.now allowed)) }
    {
        a_policy_takes_transfers_one_by_one();
        let origins = origins_of(alloc, settings)?;
        let policy = Arc::new(alloc, Snapshot::start(alloc, settings)?)?;
        let marks = Marks::new(alloc, &origins)?;
        let timers = PollCore::start(alloc, primaries, 0)?;
        let sessions = Sessions::new(alloc)?;
        Ok(Core {
            alloc,
            origins,
            allowed,
            policy,
            marks,
            timers,
            sessions,
            clock: 0,
        })
    }

    /// How many zones the policy has.
    pub fn zone_count(&self) -> usize
        ensures { result ≡ length self.now.policy.zones }
    {
        self.policy.zone_count()
    }

    /// Which workers have a pending query.
    pub fn pending(&self) -> [bool; WORKERS]
        ensures { result ≡ map is_some self.now.sessions.workers }
    {
        self.sessions.pending()
    }

    /// What an event does, and what it outputs: each event but Full and Clock outputs something. A fault leaves the core as it
    /// was. So does an event for which memory doesn't suffice, but that the cache is then empty, which gives memory back.
    pub fn step(&mut self, event: Event) -> Result<Output, CoreError>
        ensures core { Steps (core_step self.old event) result self.old self.new }
        ensures world { (world : World) → self.old ≡ state_of world →
            Steps (as_core_outcome (world_step world event)) result self.old self.new }
    {
        the_core_does_what_the_world_does();
        self.take_or_empty(event)
    }

    // What an event does. Out of memory, the cache is emptied.
    fn take_or_empty(&mut self, event: Event) -> Result<Output, CoreError>
        ensures { Steps (core_step self.old event) result self.old self.new }
    {
        match self.take_event(event) {
            Ok(output) => Ok(output),
            Err(CoreError::Fault(fault)) => Err(CoreError::Fault(fault)),
            Err(CoreError::OutOfMemory) => {
                self.sessions.empty_cache();
                Err(CoreError::OutOfMemory)
            }
        }
    }

    // What an event does to the state of the core.
    #[tactic(auto, unfolding(crate::specs::State::core_step))]
    fn take_event(&mut self, event: Event) -> Result<Output, CoreError>
        ensures { StepsBare uncached_core (core_step self.old event) result self.old self.new }
    {
        match event {
            Event::Transfer { zone, stream } => self.take_transfer(zone, stream),
            Event::Full { zone } => self.full(zone),
            Event::Query {
                worker,
                transport,
                client,
                message,
            } => {
                let may_ask = self.allowed.allows(client);
                self.sessions.take_query(
                    self.alloc,
                    self.clock,
                    &self.policy,
                    may_ask,
                    worker,
                    transport,
                    client,
                    message.as_slice(),
                )
            }
            Event::Give { worker, message } => {
                self.sessions
                    .take_answer(self.alloc, self.clock, worker, message)
            }
            Event::Fail { worker } => self.sessions.take_failure(self.alloc, self.clock, worker),
            Event::Notify { client, message } => self.take_notify(client, message.as_slice()),
            Event::Due => {
                let zone = self.zone_due();
                Ok(Output::Due { zone })
            }
            Event::Clock { seconds } => {
                self.clock = seconds;
                Ok(Output::None)
            }
        }
    }

    // The zone of this number is to be transferred in full next.
    fn full(&mut self, number: u32) -> Result<Output, CoreError>
        ensures { StepsBare uncached_core
            (full_step self.old number (zone_at self.old.policy.zones number)) result self.old
            self.new }
    {
        match self.policy.zone(number) {
            None => Err(CoreError::Fault(CoreFault::NoZone)),
            Some(_) => {
                self.marks.set(number, true);
                Ok(Output::None)
            }
        }
    }

    // A stream comes as the transfer of the zone of this number.
    fn take_transfer(&mut self, number: u32, stream: Octets) -> Result<Output, CoreError>
        ensures { StepsBare uncached_core
            (transfer_step self.old number stream (zone_at self.old.policy.zones number)) result
            self.old self.new }
    {
        let marked = self.marks.get(number);
        let Some(zone) = self.policy.zone(number) else {
            return Err(CoreError::Fault(CoreFault::NoZone));
        };
        let wanted = wanted(marked, zone.serial());
        let offered = read_offer(self.alloc, &self.policy, number, marked, zone, stream)?;
        let mark = offered.mark_after(marked, wanted);
        let polling = offered.polling(zone, number);
        Ok(self.settle(number, mark, polling, offered)?)
    }

    // What was offered to the zone of this number is done: the zone is marked afterwards or isn't, and its poll ended so.
    fn settle(
        &mut self,
        number: u32,
        mark: bool,
        polling: Polling,
        offered: Offered,
    ) -> Result<Output, AllocError>
        requires low { 1 ≤ number }
        requires high { number ≤ length self.old.policy.zones }
        requires zones { length (policy_by_offered self.old.policy offered).zones
            ≡ length self.old.policy.zones }
        ensures { TurnsBare uncached_core (core_by_offered self.old number mark polling offered)
            result self.old self.new }
    {
        let output = offered.output(number);
        match offered {
            Offered::Takes(next) => {
                self.policy = Arc::new(self.alloc, next)?;
                self.marks.set(number, mark);
                self.timers.polled(number, polling, self.clock);
                Ok(output)
            }
            Offered::Current(_) | Offered::Refuses(_) => {
                self.marks.set(number, mark);
                self.timers.polled(number, polling, self.clock);
                Ok(output)
            }
        }
    }

    // A message comes from this client, which may be a NOTIFY.
    #[tactic(auto, using(crate::proofs::Timed::brought_length))]
    fn take_notify(&mut self, client: Addr, message: &[u8]) -> Result<Output, CoreError>
        ensures { StepsBare uncached_core (Ok (notify_step self.old client message.now)) result
            self.old self.new }
    {
        let may_ask = self.allowed.allows(client);
        let notified = self.timers.notify(
            self.alloc,
            may_ask,
            message,
            client,
            self.clock,
            self.origins.as_slice(),
        )?;
        Ok(notified_output(notified))
    }

    // The first zone that is due, by its number, or 0.
    fn zone_due(&self) -> u32
        ensures { result ≡ unwrap_or (due_zone self.now.timers self.now.clock) 0 }
    {
        self.timers.due(self.clock).unwrap_or(0)
    }
}

// What is output where a message was answered so.
fn notified_output(notified: Notified) -> Output
    ensures { result ≡ output_by notified }
{
    match notified {
        Notified::Reply(message) => Output::Notified { message },
        Notified::Silent => Output::Hush,
    }
}
