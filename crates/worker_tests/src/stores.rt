//! A store with the zone `rpz.example`, and what is tried over it.

ghost use Rattle.std.specs.Prelude.{◌≡◌, ◌≤◌, length};
ghost use Rattle.zone_rows.specs.declared.zone.TheConstants.{ZONE_LIMIT};

use crate::answers::answer_all;
use crate::faults::fail_all;
use crate::items::take_all;
use crate::old_zones::keep_old;
use crate::passing::{pass_all, pass_one_of_two, refuse_one};
use crate::publishing::follow_all;
use crate::request_limits::{be_late, end_all, fill_all, jostle_one};
use crate::request_threads::pass_among;
use crate::requests::order_all;
use crate::runs::run_all;
use dns_name::Name;
use networks::AllowList;
use policy_override::{ZoneSets, as_given};
use policy_publish::{Parts, PolicyReader, Publisher, StoreName, start_store};
use std::alloc::Global;
use std::marker::Brand;
use std::process::Abort;
use std::random::RandomSource;
use std::sync::Wait;
use std::test::Fail;
use std::thread::Threads;
use std::time::Clock;

/// What is tried.
#[derive(Clone, Copy)]
pub enum Trial {
    Answers,
    Publishing,
    OldZones,
    Runs,
    Faults,
    Passing,
    NoRoom,
    PassingStream,
    Inlets,
    Requests,
    FullList,
    Jostle,
    Late,
    ListEnd,
    RequestThreads,
}

// The origins of the store that something is tried over: of two zones where one is to be published beside the other, else of one.
fn origins_for<R: Abort>(rt: &R, alloc: Global, trial: &Trial) -> Vec<Name>
    ensures { length result.items ≤ ZONE_LIMIT }
{
    let first = Name::from_text(alloc, b"rpz.example").expect(rt, "no error");
    let second = Name::from_text(alloc, b"two.example").expect(rt, "no error");
    match trial {
        Trial::OldZones => vec![in alloc; first, second].expect(rt, "no error"),
        _ => vec![in alloc; first].expect(rt, "no error"),
    }
}

// The zones of that store, each as it is given.
fn zones_for<R: Abort>(rt: &R, alloc: Global, trial: &Trial) -> ZoneSets
    ensures { length result ≤ ZONE_LIMIT }
{
    as_given(alloc, origins_for(rt, alloc, trial)).expect(rt, "no error")
}

/// Tries something over a store of two readers, where nothing is published.
pub fn attempt<
    R: Threads + Wait + Abort + Clock + RandomSource + Copy + Drop + Send + Sync + 'static,
>(rt: R, alloc: Global, trial: Trial) {
    let zones = zones_for(&rt, alloc, &trial);
    let parts = start_store(zones, AllowList::everyone(alloc), 2);
    open::<Brand, R>(rt, alloc, parts, trial);
}

fn open<
    N: StoreName + Send + Sync + 'static,
    R: Threads + Wait + Abort + Clock + RandomSource + Copy + Drop + Send + Sync + 'static,
>(rt: R, alloc: Global, parts: Parts, trial: Trial)
    requires { parts ≡ N.store }
{
    let (mut publisher, mut readers) = parts.open::<N, R>(&rt, alloc).expect(&rt, "no error");
    attempt_over(&rt, alloc, &mut publisher, &mut readers, trial);
    drop(readers);
    publisher.close(&rt);
}

fn attempt_over<
    N: StoreName + Send + Sync + 'static,
    R: Threads + Wait + Abort + Clock + RandomSource + Copy + Drop + Send + Sync + 'static,
>(
    rt: &R,
    alloc: Global,
    publisher: &mut Publisher<N>,
    readers: &mut Vec<PolicyReader<N>>,
    trial: Trial,
) {
    match trial {
        Trial::Answers => answer_all(rt, alloc, publisher, readers),
        Trial::Publishing => follow_all(rt, alloc, publisher, readers),
        Trial::OldZones => keep_old(rt, alloc, publisher, readers),
        Trial::Runs => run_all(rt, alloc, publisher, readers),
        Trial::Faults => fail_all(rt, alloc, publisher, readers),
        Trial::Passing => pass_all(rt, alloc, publisher, readers),
        Trial::NoRoom => refuse_one(rt, alloc, readers),
        Trial::PassingStream => pass_one_of_two(rt, alloc, readers),
        Trial::Inlets => take_all(rt, alloc, publisher),
        Trial::Requests => order_all(rt, alloc, publisher, readers),
        Trial::FullList => fill_all(rt, alloc, readers),
        Trial::Jostle => jostle_one(rt, alloc, publisher, readers),
        Trial::Late => be_late(rt, alloc, publisher, readers),
        Trial::ListEnd => end_all(rt, alloc, publisher, readers),
        Trial::RequestThreads => pass_among(rt, alloc, publisher, readers),
    }
}
