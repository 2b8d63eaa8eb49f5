//! The rules of a zone.

use crate::row_samples::{SERVER, first_soa, row, rows, zone_name};
use action_codec::{Action, ActionRef, action_of};
use dns_name::laws::case_does_not_matter;
use dns_name::{Name, Pattern};
use qname_index::LookupName;
use std::alloc::Global;
use std::process::Abort;
use trigger_codec::Trigger;
use zone_index::Zone;
use zone_rows::Transfer;

// A zone with one rule: for the name server `ns.test` NODATA.
fn one<R: Abort>(rt: &R, alloc: Global) -> Zone {
    let origin = zone_name(rt, alloc);
    let rows = rows(rt, alloc, &[SERVER]);
    let soa = first_soa(alloc).expect(rt, "no error");
    Zone::new(origin)
        .apply(alloc, Transfer::Whole { soa, rows })
        .expect(rt, "no error")
}

#[test]
fn a_server_meets_its_rule(rt: HostRuntime) {
    let zone = one(&rt, rt.alloc());
    case_does_not_matter();
    let name = Name::from_text(rt.alloc(), b"NS.test")
        .expect(&rt, "no error")
        .lower(rt.alloc())
        .expect(&rt, "no error");
    match zone.index() {
        None => panic!(rt; "an index"),
        Some(index) => {
            let found = index.rules().nsdname(&LookupName::of(&name));
            assert!(rt; matches!(found, Some((_, ActionRef::NoData))));
        }
    }
    let trigger = Trigger::NsDname(Pattern::new(rt.alloc(), &name, false).expect(&rt, "no error"));
    assert!(rt; matches!(zone.rule(&trigger), Some(ActionRef::NoData)));
}

#[test]
fn live_rows_are_what_a_rule_does(rt: HostRuntime) {
    let live = row(&rt, rt.alloc(), SERVER);
    let base = Name::from_text(rt.alloc(), b"ns.test").expect(&rt, "no error");
    let trigger = Trigger::NsDname(Pattern::new(rt.alloc(), &base, false).expect(&rt, "no error"));
    let action = action_of(rt.alloc(), &trigger, &[&live]).expect(&rt, "no error");
    assert!(rt; matches!(action, Some(Action::NoData)));
}
