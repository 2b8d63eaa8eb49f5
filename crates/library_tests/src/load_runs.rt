//! The zone that a load run makes, and the line that it comes to.

ghost use Rattle.std.specs.Prelude.{◌≤◌};

use crate::asserts::assert_same;
use dns_name::Name;
use dns_record::rtype;
use load_gen::{Load, MOST_WORKERS, answer_all, make, write_summary};
use std::alloc::{AllocError, Global};
use std::thread::Threads;

// The owner of the one rule of the seed 0.
static OWNER: &str = "24.0.17.8.10.rpz-client-ip.rpz.example";

// What `tools/load_model.py` writes for the seed 7, 2,000 rules and 500 queries.
static SEVEN: &str = "rows 1998 nxdomain 2 nodata 5 other 493 mark 5765522638595411119\n";

// The line of a load, answered by so many workers.
fn line<R: Threads + Sync>(
    rt: &R,
    alloc: Global,
    load: &Load,
    workers: u32,
) -> Result<Vec<u8>, AllocError>
    requires some { 1 ≤ workers }
    requires few { workers ≤ MOST_WORKERS }
{
    let summary = answer_all(rt, alloc, load, workers)?;
    Ok(write_summary(alloc, &summary)?.into_vec())
}

#[test]
fn the_rule_of_the_seed_0_lets_a_client_pass(rt: HostRuntime) {
    let load = make(rt.alloc(), 0, 1, 0).expect(&rt, "no error");
    let rule = load.rows().first().expect(&rt, "no rule");
    let owner = Name::from_text(rt.alloc(), OWNER.as_bytes())
        .map_err(|_| "no owner")
        .expect(&rt, "no error");
    let target = Name::from_text(rt.alloc(), b"rpz-passthru.")
        .map_err(|_| "no target")
        .expect(&rt, "no error");
    assert!(rt; rule.owner().is_same(&owner));
    assert_same(&rt, rule.rtype(), rtype::CNAME);
    assert_same(&rt, rule.rdata(), target.octets());
}

#[test]
fn the_line_is_the_same_for_every_number_of_workers(rt: HostRuntime) {
    let load = make(rt.alloc(), 7, 2000, 500).expect(&rt, "no error");
    for workers in 1..17 {
        let line = line(&rt, rt.alloc(), &load, workers).expect(&rt, "no error");
        assert_same(&rt, line.as_slice(), SEVEN.as_bytes());
    }
}
