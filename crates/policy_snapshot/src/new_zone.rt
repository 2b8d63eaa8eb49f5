//! A zone in place of another one.

ghost use Rattle.std.specs.Prelude.{◌≡◌, ◌≤◌, Some};
ghost use Rattle.policy_snapshot.specs.Listing.{IsThere, zones_after, zones_before};
ghost use Rattle.policy_snapshot.specs.Policy.{zone_at};

use std::alloc::Global;
use std::sync::Arc;
use zone_index::Zone;

/// A policy in which a zone is put into the place of the one of its number.
#[derive(Drop)]
pub(crate) struct NewZone<'a> {
    /// The zones before, the first of them zone 1.
    pub(crate) zones: &'a [Arc<Zone, Global>],
    /// The number.
    pub(crate) number: u32,
    /// The zone that has this number now.
    pub(crate) zone: &'a Zone,
}

impl<'a> NewZone<'a> {
    /// The zone of this number, which is this one unless it is put into its place.
    pub(crate) fn or_new(&self, number: u32, zone: &'a Zone) -> &'a Zone
        requires number { 1 ≤ number }
        requires there { IsThere self.now }
        requires zone { zone_at (zones_before self.now) number ≡ Some zone.now }
        ensures { zone_at (zones_after self.now) number ≡ Some result.now }
    {
        if number == self.number {
            self.zone
        } else {
            zone
        }
    }
}
