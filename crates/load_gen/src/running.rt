//! All queries of a load, answered by workers.

ghost use Rattle.std.specs.Prelude.{◌≡◌, ◌≤◌, All, map, IfOk, IsOk, OnOk};
ghost use Rattle.load_gen.specs.Summed as form;
ghost use Rattle.load_gen.specs.Summed.{turn_for};
ghost use Rattle.load_gen.specs.Tallied.{joined_parts, tally_of};
ghost use Rattle.policy_snapshot.specs.Stands.{policy_in};

use crate::answering::tally_under;
use crate::load::{Load, LoadQuery};
use crate::policy::{load_policy, zone_rows};
use crate::summary::Summary;
use crate::tally::Tally;
use edge_io::WORKER_LIMIT;
use policy_snapshot::Snapshot;
use std::alloc::{AllocError, Global};
use std::thread;
use std::thread::Threads;

/// The most workers of a load run.
pub const MOST_WORKERS: u32 = WORKER_LIMIT as u32;

// How many queries each worker answers, but for the last.
fn part_len(queries: usize, workers: u32) -> usize
    requires { 1 ≤ workers }
    ensures { 1 ≤ result }
{
    queries.div_ceil(workers as usize).max(1)
}

// What parts come to that stand one after another.
fn joined(parts: &[Result<Tally, AllocError>]) -> Result<Tally, AllocError>
    ensures tally { IfOk result (λ tally. tally ≡ joined_parts parts.now) }
    ensures done { OnOk result (All IsOk parts.now) }
{
    let mut all = Tally::none();
    for part in parts {
        match part {
            Ok(tally) => all = all.join(*tally),
            Err(_) => return Err(AllocError),
        }
    }
    Ok(all)
}

// What all queries come to under a policy.
fn tally_by<R: Threads + Sync>(
    rt: &R,
    alloc: Global,
    policy: &Snapshot,
    queries: &[LoadQuery],
    workers: u32,
) -> Result<Tally, AllocError>
    requires { 1 ≤ workers }
    ensures { IfOk result
        (λ tally. tally ≡ tally_of (map (turn_for (policy_in policy.now)) queries.now)) }
{
    let size = part_len(queries.len(), workers);
    let answer = |_start: usize, part: &[LoadQuery]| -> Result<Tally, AllocError>
        ensures { IfOk result
            (λ tally. tally ≡ tally_of (map (turn_for (policy_in policy.entry.now)) part.entry.now)) }
    { tally_under(alloc, policy, part) };
    let parts = thread::map_chunks(rt, alloc, queries, size, &answer)?;
    joined(&parts)
}

/// The summary of a load, whose queries so many workers answer, each a part of them, over one version of the policy: the same for
/// every number of workers. Where a thread can't be started, another does its part.
pub fn answer_all<R: Threads + Sync>(
    rt: &R,
    alloc: Global,
    load: &Load,
    workers: u32,
) -> Result<Summary, AllocError>
    requires some_workers { 1 ≤ workers }
    requires few_workers { workers ≤ MOST_WORKERS }
    ensures { IfOk result (λ summary. summary ≡ form.summary load.now) }
{
    let policy = load_policy(alloc, load.rows())?;
    let tally = tally_by(rt, alloc, &policy, load.queries(), workers)?;
    Ok(Summary {
        rows: zone_rows(&policy),
        nxdomain: tally.nxdomain,
        nodata: tally.nodata,
        other: tally.other,
        mark: tally.mark,
    })
}
