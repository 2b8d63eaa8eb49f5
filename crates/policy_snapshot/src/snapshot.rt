//! A policy at one time.

ghost use Rattle.std.specs.Prelude.{◌≡◌, ◌≤◌, ◌<◌, ◌-◌, ◌∷◌, [], ◌++◌, List, length, map, slice_set, option_copied};
ghost use Rattle.std.specs.Prelude.{IfOk, IfSome, IsSome};
ghost use Rattle.std.specs.Arc.{arc_value};
ghost use Rattle.zone_rows.specs.declared.zone.TheConstants.{ZONE_LIMIT};
ghost use Rattle.zone_rows.specs.Content.{unloaded};
ghost use Rattle.zone_rows.specs.Zone.{Gives, apply_outcome};
ghost use Rattle.zone_index.specs.Changes.{AreChanges};
ghost use Rattle.policy_snapshot.specs.declared.entry.Entry.{Entry};
ghost use Rattle.policy_snapshot.specs.Knowing.{KnowsAll};
ghost use Rattle.policy_snapshot.specs.Policy.{zone_at};
ghost use Rattle.policy_snapshot.specs.Stands.{HaveRows, Stands, new_snapshot, with_zone};

use crate::new_zone::NewZone;
use crate::old_zone::OldZone;
use crate::summaries::{most_rows, no_summaries, shared_summaries, summaries_after};
use dns_name::Name;
use policy_override::{Overrides, ZoneSet};
use std::alloc::{AllocError, Global};
use std::marker::Model;
use std::sync::Arc;
use summary_index::{NameSummary, PrefixSummary};
use trigger_codec::ByKind;
use zone_index::{Changes, Zone};
use zone_rows::{ApplyError, Transfer};

/// The ordered zones of a policy as they are after a list of accepted transfers, each taken as a whole, and the operator's override of
/// each. Nothing changes it: a transfer makes a new snapshot, which shares the zones that the transfer doesn't change, and all
/// overrides. Contracts see the zones as plain ones, the overrides, and how many transfers were accepted, up to 2^64 - 1.
pub struct Snapshot {
    // The first of them is zone 1.
    zones: Vec<Arc<Zone, Global>>,
    // In the same order.
    overrides: Arc<Overrides, Global>,
    // What is known of their rules together.
    summaries: Arc<ByKind<PrefixSummary, NameSummary>, Global>,
    accepted: u64,
}

// Written out, so that wherever one is dropped this is one call.
impl Drop for Snapshot {
    fn drop(self) {
        let Snapshot {
            zones: _,
            overrides: _,
            summaries: _,
            accepted: _,
        } = self;
    }
}

impl Model for Snapshot {
    ghost use Rattle.std.specs.Prelude.{◌≤◌, length, map};
    ghost use Rattle.std.specs.Arc.{arc_value};
    ghost use Rattle.zone_rows.specs.declared.zone.TheConstants.{ZONE_LIMIT};
    ghost use Rattle.policy_snapshot.specs.Knowing.{KnowsAll};
    ghost use Rattle.policy_snapshot.specs.Stands.{HaveRows, PlainSnapshot};

    ghost Value = { PlainSnapshot };

    ghost view = { λ s. record {
      zones = map arc_value s.zones.items;
      overrides = arc_value s.overrides;
      accepted = s.accepted;
    } };

    ghost invariant = { λ s. (length s.zones.items ≤ ZONE_LIMIT)
        × (HaveRows (map arc_value s.zones.items)
        × KnowsAll (map arc_value s.zones.items) (arc_value s.summaries)) };
}

impl Snapshot {
    /// Zones of these settings in this order, with nothing loaded. There are at most 64.
    pub fn start(alloc: Global, settings: &[ZoneSet]) -> Result<Self, AllocError>
        requires { length settings.now ≤ ZONE_LIMIT }
        ensures { IfOk result (λ snapshot. snapshot ≡ new_snapshot settings.now) }
    {
        let mut zones = Vec::with_capacity(alloc, settings.len())?;
        for set in settings {
            zones.push(empty_zone(alloc, &set.origin)?)?;
        }
        let overrides = Arc::new(alloc, Overrides::of(alloc, settings)?)?;
        let summaries = shared_summaries(alloc, no_summaries(alloc))?;
        Ok(Snapshot {
            zones,
            overrides,
            summaries,
            accepted: 0,
        })
    }

    /// How many zones the policy has, at most 64. Its clauses also say that the rows of each zone are rows.
    pub fn zone_count(&self) -> usize
        ensures count { result ≡ length self.now.zones }
        ensures limit { result ≤ ZONE_LIMIT }
        ensures rows { HaveRows self.now.zones }
    {
        self.zones.len()
    }

    /// How many transfers were accepted; it stands still at 2^64 - 1.
    pub fn accepted(&self) -> u64
        ensures { result ≡ self.now.accepted }
    {
        self.accepted
    }

    /// The same policy, whose zones are shared, and behind which no other holds anything: a thread that holds it so counts its
    /// holders alone.
    pub fn again(&self, alloc: Global) -> Result<Snapshot, AllocError>
        ensures { IfOk result (λ copy. copy ≡ self.now) }
    {
        let overrides = Arc::try_clone(&self.overrides)?;
        let summaries = Arc::try_clone(&self.summaries)?;
        let zones = shared(alloc, &self.zones)?;
        Ok(Snapshot {
            zones,
            overrides,
            summaries,
            accepted: self.accepted,
        })
    }

    /// The zones in order, the first of them zone 1.
    pub(crate) fn zones(&self) -> &[Arc<Zone, Global>]
        ensures zones { map arc_value result.now ≡ self.now.zones }
        ensures limit { length result.now ≤ ZONE_LIMIT }
        ensures rows { HaveRows self.now.zones }
    {
        self.zones.as_slice()
    }

    /// The operator's override of each zone.
    pub(crate) fn overrides(&self) -> &Overrides
        ensures { result.now ≡ self.now.overrides }
    {
        &self.overrides
    }

    /// What is known of the rules of all zones together.
    pub(crate) fn summaries(&self) -> &ByKind<PrefixSummary, NameSummary>
        ensures { KnowsAll self.now.zones result.now }
    {
        &self.summaries
    }

    /// The zone of a number, where there is one; the first is zone 1.
    pub fn zone(&self, number: u32) -> Option<&Zone>
        ensures { option_copied result ≡ zone_at self.now.zones number }
    {
        if number == 0 {
            return None;
        }
        match self.zones.get(number as usize - 1) {
            None => None,
            Some(zone) => Some(zone),
        }
    }

    /// One more handle on the zone of a number, where there is one, and on what is known of all zones together. It takes no memory, and
    /// answers an error only where there are 2^63 handles.
    pub fn hold(&self, number: u32) -> Result<Option<OldZone>, AllocError> {
        if number == 0 {
            return Ok(None);
        }
        match self.zones.get(number as usize - 1) {
            None => Ok(None),
            Some(zone) => {
                let summaries = Arc::try_clone(&self.summaries)?;
                Ok(Some(OldZone::of(Arc::try_clone(zone)?, summaries)))
            }
        }
    }

    /// The policy after one more transfer of the zone of this number, whole or in steps, or why the zone can't take it. The
    /// other zones are shared, and this snapshot stays as it is. Its time is that of `Zone::apply_changes`, and that of what is known of all
    /// zones: some steps for each trigger whose rules change, or, where these are many, a merge of the rules of all zones of the kind.
    pub fn apply(
        &self,
        alloc: Global,
        number: u32,
        transfer: Transfer,
    ) -> Result<Snapshot, ApplyError>
        requires { IsSome (zone_at self.now.zones number) }
        ensures exact { IfSome (zone_at self.now.zones number) (λ zone.
            Gives result (with_zone self.now number (apply_outcome zone transfer))) }
        ensures stands { IfOk result (λ next. (entries : List Entry) → Stands self.now entries →
            Stands next (entries ++ record { zone = number; transfer = transfer } ∷ [])) }
    {
        let place = number as usize - 1;
        let old: &Zone = &self.zones[place];
        let most = most_rows(self.summaries(), &self.zones);
        let (zone, changes) = old.apply_changes(alloc, transfer, most)?;
        // called for its clause: the rows of the new zone are rows
        let _index = zone.index();
        let summaries = self.summaries_with(alloc, number, &zone, &changes)?;
        let zones = with_zone_at(alloc, &self.zones, place, zone)?;
        let overrides = Arc::try_clone(&self.overrides)?;
        Ok(Snapshot {
            zones,
            overrides,
            summaries,
            accepted: self.accepted.saturating_add(1),
        })
    }

    // What is known of the rules of all zones, once the zone of this number is another, whose rules at other triggers than these are as
    // before.
    fn summaries_with(
        &self,
        alloc: Global,
        number: u32,
        zone: &Zone,
        changes: &Changes,
    ) -> Result<Arc<ByKind<PrefixSummary, NameSummary>, Global>, AllocError>
        requires there { IsSome (zone_at self.now.zones number) }
        requires changes { IfSome (zone_at self.now.zones number) (λ old. AreChanges old zone.now changes.now) }
        ensures { IfOk result (λ summaries. KnowsAll (slice_set self.now.zones (number - 1) zone.now) (arc_value summaries)) }
    {
        let next = NewZone {
            zones: &self.zones,
            number,
            zone,
        };
        let summaries = summaries_after(alloc, self.summaries(), &next, changes)?;
        shared_summaries(alloc, summaries)
    }
}

// A zone of this origin with nothing loaded.
fn empty_zone(alloc: Global, origin: &Name) -> Result<Arc<Zone, Global>, AllocError>
    ensures { IfOk result (λ zone. arc_value zone ≡ unloaded origin.now) }
{
    let zone = Zone::new(origin.clone()?);
    Ok(Arc::new(alloc, zone)?)
}

// The zones with this one at a place, the others shared.
fn with_zone_at(
    alloc: Global,
    zones: &[Arc<Zone, Global>],
    place: usize,
    zone: Zone,
) -> Result<Vec<Arc<Zone, Global>>, AllocError>
    requires { place < length zones.now }
    ensures { IfOk result
        (λ all. map arc_value all.items ≡ slice_set (map arc_value zones.now) place zone) }
{
    let mut all = shared(alloc, zones)?;
    all[place] = Arc::new(alloc, zone)?;
    Ok(all)
}

// The same zones, shared.
fn shared(alloc: Global, zones: &[Arc<Zone, Global>]) -> Result<Vec<Arc<Zone, Global>>, AllocError>
    ensures { IfOk result (λ all. map arc_value all.items ≡ map arc_value zones.now) }
{
    let mut all = Vec::with_capacity(alloc, zones.len())?;
    for zone in zones {
        all.push(Arc::try_clone(zone)?)?;
    }
    Ok(all)
}
