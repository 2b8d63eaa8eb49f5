//! Zones that others took the place of, and who gives them up.

use crate::asserts::assert_same;
use crate::publishing::{publish_at, whole};
use crate::stores::{Trial, attempt};
use policy_publish::{PolicyReader, Publisher, StoreName};
use std::alloc::Global;
use std::process::Abort;
use std::sync::Wait;

// Publishes the zone of this number with this serial, and says how many zones are left that others took the place of.
fn left_behind<N: StoreName, R: Wait>(
    rt: &R,
    alloc: Global,
    publisher: &mut Publisher<N>,
    number: u32,
    serial: u32,
) -> Option<usize> {
    let transfer = whole(alloc, serial, &[])?;
    if publish_at(rt, publisher, number, transfer) {
        Some(publisher.give_up_old())
    } else {
        None
    }
}

// Whether the reader takes a version.
fn takes<N: StoreName>(reader: &mut PolicyReader<N>) -> bool {
    reader.pin().is_ok()
}

#[test]
fn no_reader_gives_up_a_zone(rt: HostRuntime) {
    attempt(rt, rt.alloc(), Trial::OldZones)
}

/// A zone that a reader holds stays with the publisher until the reader takes another version, and then nobody else has it: neither
/// the reader nor the copy that readers don't see. So does what was known of all zones, when another zone was published behind it.
pub fn keep_old<N: StoreName, R: Wait + Abort>(
    rt: &R,
    alloc: Global,
    publisher: &mut Publisher<N>,
    readers: &mut Vec<PolicyReader<N>>,
) {
    let mut reader = readers.pop().expect(rt, "a reader");
    assert_same(rt, left_behind(rt, alloc, publisher, 1, 1), Some(0));
    assert_same(rt, takes(&mut reader), true);
    assert_same(rt, left_behind(rt, alloc, publisher, 1, 2), Some(1));
    assert_same(rt, left_behind(rt, alloc, publisher, 2, 1), Some(2));
    assert_same(rt, left_behind(rt, alloc, publisher, 1, 3), Some(2));
    assert_same(rt, takes(&mut reader), true);
    assert_same(rt, publisher.give_up_old(), 0);
}
