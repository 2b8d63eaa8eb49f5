//! What an index is to be made of.

ghost use Rattle.std.specs.Prelude.{◌≡◌, ◌≤◌, length, IfOk, None};
ghost use Rattle.zone_index.specs.PlaceOctets.{place_octets};
ghost use Rattle.zone_index.specs.Places.{entry_at, no_places, with_entry};

use crate::does::Does;
use crate::group::{Group, keep};
use crate::pattern_entries::PatternEntries;
use crate::place::Place;
use crate::place_entries;
use crate::places::Places;
use crate::prefix_entries::PrefixEntries;
use crate::trigger_index::TriggerIndex;
use crate::usage::Usage;
use packed_lists::{Held, SharedTable};
use std::alloc::{AllocError, Global};
use std::marker::Model;

/// What stands at the places of a zone, place by place, to be made an index at once. Contracts see what they see of that index.
pub(crate) struct IndexEntries<'a> {
    places: Places<PrefixEntries, PatternEntries<'a>>,
    groups: SharedTable<Held<Group>>,
    usage: Usage,
    alloc: Global,
}

impl<'a> Model for IndexEntries<'a> {
    ghost use Rattle.zone_index.specs.Groups.{AreAllWell, places_in};
    ghost use Rattle.zone_index.specs.Places.{PlainPlaces};

    ghost Value = { PlainPlaces };

    ghost view = { λ t. places_in t.groups t.places };

    ghost invariant = { λ t. AreAllWell t.groups t.places };
}

// Written out, so that wherever one is dropped this is one call.
impl<'a> Drop for IndexEntries<'a> {
    fn drop(self) {
        let IndexEntries {
            places: _,
            groups: _,
            usage: _,
            alloc: _,
        } = self;
    }
}

impl<'a> IndexEntries<'a> {
    /// Nothing. It takes no memory.
    pub(crate) fn empty(alloc: Global) -> Self
        ensures { result ≡ no_places }
    {
        IndexEntries {
            places: place_entries::empty(alloc),
            groups: SharedTable::new(alloc),
            usage: Usage::none(),
            alloc,
        }
    }

    /// With these rows at the place, which has none, and whose octets are these. There is at least one.
    pub(crate) fn put(
        self,
        place: &Place,
        octets: &'a [u8],
        numbers: &[u32],
        does: Does,
    ) -> Result<Self, AllocError>
        requires octets { octets.now ≡ place_octets place.now }
        requires some { 1 ≤ length numbers.now }
        requires none { entry_at self place.now ≡ None }
        ensures { IfOk result (λ entries. entries
            ≡ with_entry self.entry place.now (record { numbers = numbers.now; does = does })) }
    {
        let IndexEntries {
            places,
            groups,
            usage,
            alloc,
        } = self;
        let mut places = places;
        let mut groups = groups;
        let value = keep(alloc, &mut groups, numbers, does)?;
        place_entries::put(&mut places, place, octets, value)?;
        let usage = usage.with_entry();
        Ok(IndexEntries {
            places,
            groups,
            usage,
            alloc,
        })
    }

    /// The index. Where the places came in the order of their octets, it takes one pass over them.
    pub(crate) fn built(self) -> Result<TriggerIndex, AllocError>
        ensures { IfOk result (λ index. index ≡ self.entry) }
    {
        let IndexEntries {
            places,
            groups,
            usage,
            alloc,
        } = self;
        let places = place_entries::built(alloc, places)?;
        Ok(TriggerIndex::of(alloc, places, groups, usage))
    }
}
