//! What stands at each trigger.

ghost use Rattle.std.specs.Prelude.{◌≡◌, ◌≤◌, length, map, IfOk};
ghost use Rattle.std.specs.List.Sorted.{IsStrictlySortedBy};
ghost use Rattle.std.specs.Map.{keys_of};
ghost use Rattle.std.specs.Option.{option_map};
ghost use Rattle.ip_prefix.specs.Prefix.{prefix_order};
ghost use Rattle.octet_trie.specs.Trie.{found_entry};
ghost use Rattle.qname_index.specs.Trie.{IsNameTrie};
ghost use Rattle.zone_index.specs.ActingEntries.{StandsAt, StandsByKey, at_pattern, at_prefix, marked_if_entry, pattern_values, prefix_values};
ghost use Rattle.zone_index.specs.Entry.{entry_seen};
ghost use Rattle.zone_index.specs.Groups.{AreAllWell, places_in};
ghost use Rattle.zone_index.specs.Places.{AreLower, AreRanked, best_rule, entry_at, has_rule, longest_rule, no_places, rule_at, with_entry, without_entry};

use crate::does::Does;
use crate::entry::EntryRef;
use crate::group::{Group, keep, lend};
use crate::look_up::{best, longest};
use crate::patterns::Patterns;
use crate::place::Place;
use crate::places::Places;
use crate::prefixes::Prefixes;
use crate::tries;
use crate::usage::Usage;
use ip_prefix::{Addr, Prefix};
use octet_trie::OctetFound;
use packed_lists::{Held, Share, SharedTable};
use qname_index::{LookupName, PatternRef};
use std::alloc::{AllocError, Global};
use std::marker::Model;
use trie_keys::Marked;
use trigger_codec::{Kind, Trigger};

/// What stands at the places of a zone. Contracts see the entries of each kind of trigger in order of precedence, and those of the
/// other rows. A copy shares what is the same in both.
pub struct TriggerIndex {
    places: Places<Prefixes, Patterns>,
    groups: SharedTable<Held<Group>>,
    usage: Usage,
    alloc: Global,
}

impl Model for TriggerIndex {
    ghost use Rattle.zone_index.specs.Groups.{AreAllWell, places_in};
    ghost use Rattle.zone_index.specs.Places.{PlainPlaces};

    ghost Value = { PlainPlaces };

    ghost view = { λ t. places_in t.groups t.places };

    ghost invariant = { λ t. AreAllWell t.groups t.places };
}

// Written out, so that wherever one is dropped this is one call.
impl Drop for TriggerIndex {
    fn drop(self) {
        let TriggerIndex {
            places: _,
            groups: _,
            usage: _,
            alloc: _,
        } = self;
    }
}

impl TriggerIndex {
    /// Nothing. It takes no memory.
    pub fn empty(alloc: Global) -> Self
        ensures { result ≡ no_places }
    {
        TriggerIndex {
            places: tries::empty(alloc),
            groups: SharedTable::new(alloc),
            usage: Usage::none(),
            alloc,
        }
    }

    // What these tries and groups say.
    pub(crate) fn of(
        alloc: Global,
        places: Places<Prefixes, Patterns>,
        groups: SharedTable<Held<Group>>,
        usage: Usage,
    ) -> Self
        requires { AreAllWell groups places }
        ensures { result ≡ places_in groups places }
    {
        TriggerIndex {
            places,
            groups,
            usage,
            alloc,
        }
    }

    /// The same version once more: for edits that leave this one as it is.
    pub fn share(&self) -> Result<Self, AllocError>
        ensures { IfOk result (λ index. index ≡ self.now) }
    {
        let groups = self.groups.share()?;
        let places = tries::share(&self.places)?;
        Ok(TriggerIndex {
            places,
            groups,
            usage: self.usage,
            alloc: self.alloc,
        })
    }

    /// What stands at the place. It takes no memory.
    pub fn get(&self, place: &Place) -> Option<EntryRef<'_>>
        ensures { option_map entry_seen result ≡ entry_at self.now place.now }
    {
        match tries::get(&self.places, place) {
            Some(value) => Some(lend(&self.groups, value)),
            None => None,
        }
    }

    /// What stands at the trigger. It takes no memory.
    pub fn rule(&self, trigger: &Trigger) -> Option<EntryRef<'_>>
        ensures { option_map entry_seen result ≡ rule_at self.now.rules trigger.now }
    {
        match tries::get_rule(&self.places.rules, trigger) {
            Some(value) => Some(lend(&self.groups, value)),
            None => None,
        }
    }

    /// With these rows at the place, in place of this version. There is at least one.
    pub fn put(self, place: &Place, numbers: &[u32], does: Does) -> Result<Self, AllocError>
        requires { 1 ≤ length numbers.now }
        ensures { IfOk result (λ index. index
            ≡ with_entry self place.now (record { numbers = numbers.now; does = does })) }
    {
        let usage = self.usage_without(place).with_entry();
        let TriggerIndex {
            places,
            groups,
            usage: _,
            alloc,
        } = self;
        let mut groups = groups;
        let value = keep(alloc, &mut groups, numbers, does)?;
        let places = tries::put(places, place, value)?;
        Ok(TriggerIndex {
            places,
            groups,
            usage,
            alloc,
        })
    }

    /// Without what stands at the place, in place of this version.
    pub fn take(self, place: &Place) -> Result<Self, AllocError>
        ensures { IfOk result (λ index. index ≡ without_entry self place.now) }
    {
        let usage = self.usage_without(place);
        let TriggerIndex {
            places,
            groups,
            usage: _,
            alloc,
        } = self;
        let places = tries::take(places, place)?;
        Ok(TriggerIndex {
            places,
            groups,
            usage,
            alloc,
        })
    }

    // The usage without what stands at the place.
    fn usage_without(&self, place: &Place) -> Usage {
        match self.get(place) {
            Some(entry) => self.usage.without_entry(entry.weight()),
            None => self.usage,
        }
    }

    /// Whether so much stands in groups for nothing that the index is better built anew: more than 8,192 numbers, and more than
    /// there are entries. A row that a group keeps as an answer weighs as much as 16 numbers.
    pub fn is_thin(&self) -> bool {
        self.usage.is_thin()
    }

    /// Whether there is a rule of this kind. It takes constant time.
    pub fn has(&self, kind: Kind) -> bool
        ensures { result ≡ has_rule self.now.rules kind }
    {
        tries::has(&self.places.rules, kind)
    }

    /// The keys of the patterns of the kind at which something acts, in the order of their octets, each with this value.
    pub fn patterns_by_key<N: Copy + Drop>(
        &self,
        alloc: Global,
        kind: Kind,
        value: N,
    ) -> Result<Vec<OctetFound<'_, N, bool>>, AllocError>
        ensures keys { IfOk result (λ entries. IsNameTrie (map found_entry entries.items)) }
        ensures found { IfOk result (λ entries. StandsByKey
            (λ p. marked_if_entry value (at_pattern (pattern_values self.now.rules kind) p)) (map found_entry entries.items)) }
    {
        tries::acting_keys(alloc, &self.places.rules, kind, value)
    }

    /// The prefixes of the kind at which something acts, in order of precedence, each with this value.
    pub fn prefixes<N: Copy + Drop>(
        &self,
        alloc: Global,
        kind: Kind,
        value: N,
    ) -> Result<Vec<(Prefix, Marked<N, bool>)>, AllocError>
        ensures sorted { IfOk result (λ entries. IsStrictlySortedBy prefix_order (keys_of entries.items)) }
        ensures found { IfOk result (λ entries. StandsAt
            (λ p. marked_if_entry value (at_prefix (prefix_values self.now.rules kind) p)) entries.items) }
    {
        tries::acting_prefixes(alloc, &self.places.rules, kind, value)
    }

    /// Called for its clauses: triggers and owners stand in order of precedence, each once, and their names are in lower case.
    pub fn in_order(&self)
        ensures ranked { AreRanked self.now }
        ensures lower { AreLower self.now }
    {
        tries::in_order(&self.places);
    }

    /// The rule that comes first of those about a client of this address.
    pub fn client_ip(&self, addr: Addr) -> Option<(Prefix, EntryRef<'_>)>
        ensures { option_map (λ e. (e.0, entry_seen e.1)) result
            ≡ longest_rule addr self.now.rules.client_ip }
    {
        longest(&self.groups, &self.places.rules.client_ip, addr)
    }

    /// The rule that comes first of those about a query for the name.
    pub fn qname(&self, name: &LookupName) -> Option<(PatternRef<'_>, EntryRef<'_>)>
        ensures { option_map (λ e. (e.0, entry_seen e.1)) result
            ≡ best_rule name.now self.now.rules.qname }
    {
        best(&self.groups, &self.places.rules.qname, name)
    }

    /// The rule that comes first of those about this address in an answer.
    pub fn response_ip(&self, addr: Addr) -> Option<(Prefix, EntryRef<'_>)>
        ensures { option_map (λ e. (e.0, entry_seen e.1)) result
            ≡ longest_rule addr self.now.rules.response_ip }
    {
        longest(&self.groups, &self.places.rules.response_ip, addr)
    }

    /// The rule that comes first of those about a name server of this name.
    pub fn nsdname(&self, name: &LookupName) -> Option<(PatternRef<'_>, EntryRef<'_>)>
        ensures { option_map (λ e. (e.0, entry_seen e.1)) result
            ≡ best_rule name.now self.now.rules.nsdname }
    {
        best(&self.groups, &self.places.rules.nsdname, name)
    }

    /// The rule that comes first of those about a name server of this address.
    pub fn nsip(&self, addr: Addr) -> Option<(Prefix, EntryRef<'_>)>
        ensures { option_map (λ e. (e.0, entry_seen e.1)) result
            ≡ longest_rule addr self.now.rules.nsip }
    {
        longest(&self.groups, &self.places.rules.nsip, addr)
    }
}
