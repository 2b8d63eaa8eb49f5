//! The zones of a server while they are polled.

ghost use Rattle.std.specs.Prelude.{◌≡◌, ◌<◌, ◌^◌, IfOk, length, map};
ghost use Rattle.notify_poll.specs.Timers.{first_timers};
ghost use Rattle.policy_feed.specs.Feed.{address_of, no_poll};

use crate::under_way::UnderWay;
use dns_name::Name;
use edge_io::Endpoint;
use ip_prefix::Addr;
use notify_poll::PollCore;
use policy_publish::{Latest, Publisher, StoreName};
use std::alloc::{AllocError, Global};
use std::marker::Model;
use std::sync::Wait;

/// The zones of a server, at most 64: what is published of them, when each is polled, and the transfers that are under way, at most one
/// of each zone. It is not `Drop`: end it by [`Feeder::close`].
///
/// It reads no clock: seconds are given. What comes of the transfers that it orders are wakes of the wires.
pub struct Feeder<N: StoreName> {
    pub(crate) alloc: Global,
    pub(crate) publisher: Publisher<N>,
    // Where the threads of the server find what was published last.
    pub(crate) latest: Latest<N>,
    pub(crate) timers: PollCore,
    pub(crate) origins: Vec<Name>,
    pub(crate) primaries: Vec<Endpoint>,
    pub(crate) polls: Vec<Option<UnderWay>>,
}

impl<N: StoreName> Model for Feeder<N> {
    ghost use Rattle.policy_feed.specs.Feed.{IsFed, PlainFeeder};

    ghost Value = { PlainFeeder };

    ghost view = { λ f.
        record {
          allowed = N.store.allowed;
          zones = record { origins = f.origins.items; primaries = f.primaries.items };
          published = f.publisher;
          timers = f.timers;
          polls = f.polls.items;
        } };

    ghost invariant = { λ f. IsFed
        (record {
          allowed = N.store.allowed;
          zones = record { origins = f.origins.items; primaries = f.primaries.items };
          published = f.publisher;
          timers = f.timers;
          polls = f.polls.items;
        }) };
}

// No transfer is under way.
fn no_polls(alloc: Global, primaries: &[Endpoint]) -> Result<Vec<Option<UnderWay>>, AllocError>
    ensures { IfOk result (λ polls. polls.items ≡ map no_poll primaries.now) }
{
    primaries.iter().map(|_at| None).collect(alloc)
}

// Who may send a NOTIFY of each zone.
fn addresses_of(alloc: Global, primaries: &[Endpoint]) -> Result<Vec<Option<Addr>>, AllocError>
    ensures { IfOk result (λ addresses. addresses.items ≡ map address_of primaries.now) }
{
    primaries.iter().map(|at| Some(at.addr)).collect(alloc)
}

// All zones are due from this second on, and a NOTIFY may come from the addresses of their primaries.
fn first_core(alloc: Global, primaries: &[Endpoint], now: u32) -> Result<PollCore, AllocError>
    requires { length primaries.now < 2 ^ 32 }
    ensures { IfOk result (λ core. core ≡ first_timers (map address_of primaries.now) now) }
{
    let addresses = addresses_of(alloc, primaries)?;
    PollCore::start(alloc, &addresses, now)
}

impl<N: StoreName> Feeder<N> {
    ghost use Rattle.policy_feed.specs.Feed.{first_feeder};

    /// The zones of a publisher, with these origins and primaries, one for each zone. All are due from this second on. An `Err` closes
    /// the publisher, which may wait for readers that are just entering.
    pub fn start<R: Wait>(
        rt: &R,
        alloc: Global,
        publisher: Publisher<N>,
        origins: Vec<Name>,
        primaries: Vec<Endpoint>,
        now: u32,
    ) -> Result<Self, AllocError>
        requires zones { length primaries.items ≡ length publisher.version.zones }
        ensures { IfOk result (λ feeder.
            feeder ≡ first_feeder N.store.allowed origins.items primaries.items publisher now) }
    {
        // called for its clause: there are at most 64 zones
        let _count = publisher.zone_count();
        match first_tables(alloc, &publisher, &primaries, now) {
            Ok(
                FirstTables {
                    latest,
                    timers,
                    polls,
                },
            ) => Ok(Feeder {
                alloc,
                publisher,
                latest,
                timers,
                origins,
                primaries,
                polls,
            }),
            Err(error) => {
                publisher.close(rt);
                drop(origins);
                drop(primaries);
                Err(error)
            }
        }
    }

    /// A handle on what is published last, for another thread.
    pub fn latest(&self) -> Result<Latest<N>, AllocError> {
        self.latest.again()
    }

    /// Whether a transfer is under way.
    pub fn is_polling(&self) -> bool {
        self.polls.iter().any(|poll| poll.is_some())
    }

    // Gives up the zones that others took the place of, as far as no worker holds them any more.
    pub(crate) fn give_up_old(&mut self)
        ensures { self.new ≡ self.old }
    {
        let _left = self.publisher.give_up_old();
    }

    /// Ends it. Versions that were taken stay. It waits until no reader is entering.
    pub fn close<R: Wait>(self, rt: &R) {
        let Feeder {
            alloc: _,
            publisher,
            latest: _latest,
            timers: _timers,
            origins: _origins,
            primaries: _primaries,
            polls: _polls,
        } = self;
        publisher.close(rt);
    }
}

// What a feeder begins with beside the publisher.
struct FirstTables<N: StoreName> {
    latest: Latest<N>,
    timers: PollCore,
    polls: Vec<Option<UnderWay>>,
}

// Both tables.
fn first_places(
    alloc: Global,
    primaries: &[Endpoint],
    now: u32,
) -> Result<(PollCore, Vec<Option<UnderWay>>), AllocError>
    requires { length primaries.now < 2 ^ 32 }
    ensures timers { IfOk result (λ made.
        made.0 ≡ first_timers (map address_of primaries.now) now) }
    ensures polls { IfOk result (λ made. made.1.items ≡ map no_poll primaries.now) }
{
    let timers = first_core(alloc, primaries, now)?;
    match no_polls(alloc, primaries) {
        Ok(polls) => Ok((timers, polls)),
        Err(error) => {
            drop(timers);
            Err(error)
        }
    }
}

fn first_tables<N: StoreName>(
    alloc: Global,
    publisher: &Publisher<N>,
    primaries: &[Endpoint],
    now: u32,
) -> Result<FirstTables<N>, AllocError>
    requires { length primaries.now < 2 ^ 32 }
    ensures timers { IfOk result (λ made.
        made.timers ≡ first_timers (map address_of primaries.now) now) }
    ensures polls { IfOk result (λ made. made.polls.items ≡ map no_poll primaries.now) }
{
    let latest = Latest::start(alloc, publisher.tell())?;
    match first_places(alloc, primaries, now) {
        Ok((timers, polls)) => Ok(FirstTables {
            latest,
            timers,
            polls,
        }),
        Err(error) => {
            drop(latest);
            Err(error)
        }
    }
}
