//! A policy zone with its rules.

ghost use Rattle.std.specs.Prelude.{◌≡◌, IfOk, option_copied, option_map};
ghost use Rattle.action_codec.specs.Seen.{action_seen};
ghost use Rattle.zone_rows.specs.Content.{content_count, content_serial, unloaded};
ghost use Rattle.zone_rows.specs.Distinct.{HasDistinctRows};
ghost use Rattle.zone_rows.specs.Zone.{Gives, apply_outcome};
ghost use Rattle.zone_index.specs.Changes.{AreChangesBy, ListsTriggersOf, GivesChanged};
ghost use Rattle.zone_index.specs.Indexed.{GivesLoaded, HasRows, content_after, content_rule, index_of};

use crate::changes::{Changes, changed_by_steps, changed_by_whole, held_count};
use crate::indexed::copied_name;
use crate::loaded::{Loaded, stepped, whole};
use crate::rules::Rules;
use action_codec::ActionRef;
use dns_name::Name;
use dns_name::laws::{case_does_not_matter, names_of_equal_octets_are_equal};
use dns_record::laws::rows_of_one_identity_differ_in_the_ttl_alone;
use dns_record::{Record, Soa};
use std::alloc::{AllocError, Global};
use std::marker::Model;
use trigger_codec::Trigger;
use zone_rows::{ApplyError, Transfer};

/// A policy zone: its origin, and what it holds once a transfer was taken. Contracts see these, and not the index.
pub struct Zone {
    origin: Name,
    // `None` where nothing is loaded.
    loaded: Option<Loaded>,
}

// Written out, so that wherever one is dropped this is one call.
impl Drop for Zone {
    fn drop(self) {
        let Zone {
            origin: _,
            loaded: _,
        } = self;
    }
}

/// The index of a loaded zone, lent: the SOA record that replies by its rules carry, and its rules.
#[derive(Drop)]
pub struct Index<'a> {
    soa_record: &'a Record,
    rules: Rules<'a>,
}

impl<'a> Model for Index<'a> {
    ghost use Rattle.zone_index.specs.Indexed.{PlainIndex};

    ghost Value = { PlainIndex };

    ghost view = { λ i. record { soa_record = i.soa_record.now; rules = i.rules } };
}

impl<'a> Index<'a> {
    // The index of what is loaded.
    pub(crate) fn new(soa_record: &'a Record, rules: Rules<'a>) -> Self
        ensures { result ≡ record { soa_record = soa_record.now; rules = rules.entry } }
    {
        Index { soa_record, rules }
    }

    /// The SOA record of the zone, its origin as owner.
    pub fn soa_record(&self) -> &'a Record
        ensures { result.now ≡ self.now.soa_record }
    {
        self.soa_record
    }

    /// The rules of the zone.
    pub fn rules(&self) -> &Rules<'a>
        ensures { result.now ≡ self.now.rules }
    {
        &self.rules
    }
}

impl Model for Zone {
    ghost use Rattle.zone_rows.specs.declared.zone.PlainZone.{PlainZone};
    ghost use Rattle.zone_index.specs.Indexed.{IsLoadedIf, content_of};

    ghost Value = { PlainZone };

    ghost view = { λ z. record { origin = z.origin; content = content_of z.loaded } };

    ghost invariant = { λ z. IsLoadedIf z.origin z.loaded };
}

impl Zone {
    /// A zone with nothing loaded.
    pub fn new(origin: Name) -> Self
        ensures { result ≡ unloaded origin }
    {
        Zone {
            origin,
            loaded: None,
        }
    }

    /// The name of the zone, as it was given.
    pub fn origin(&self) -> &Name
        ensures { result.now ≡ self.now.origin }
    {
        &self.origin
    }

    /// The serial of what is loaded; `None` where nothing is.
    pub fn serial(&self) -> Option<u32>
        ensures { result ≡ content_serial self.now.content }
    {
        match &self.loaded {
            None => None,
            Some(loaded) => Some(loaded.soa.serial),
        }
    }

    /// The SOA of what is loaded; `None` where nothing is.
    pub fn soa(&self) -> Option<&Soa>
        ensures { option_copied result ≡ option_map (λ content. content.soa) self.now.content }
    {
        match &self.loaded {
            None => None,
            Some(loaded) => Some(&loaded.soa),
        }
    }

    /// How many rows are loaded; `None` where nothing is.
    pub fn row_count(&self) -> Option<usize>
        ensures { result ≡ content_count self.now.content }
    {
        match &self.loaded {
            None => None,
            Some(loaded) => Some(loaded.rows.len()),
        }
    }

    /// The zone after a transfer, whole or in steps, or why it can't take it. This zone stays as it is, and shares with the new one
    /// what is the same in both. The time of steps is that of the rows that they name, each with the rows of its trigger, and of one
    /// word for each 512 rows of the zone; but where that is more than the time of a whole transfer of the zone's rows, they are
    /// applied to its rows, and the index is made anew.
    pub fn apply(&self, alloc: Global, transfer: Transfer) -> Result<Zone, ApplyError>
        ensures { Gives result (apply_outcome self.now transfer) }
    {
        match self.loaded_after(alloc, transfer) {
            Err(error) => Err(error),
            Ok(loaded) => Ok(Zone {
                origin: copied_name(&self.origin)?,
                loaded: Some(loaded),
            }),
        }
    }

    /// The zone after a transfer, as [`apply`](Self::apply) gives it, and which of its rules may not be those of this zone. Where steps
    /// name more rows than `most`, or a whole transfer has more or takes the place of more, these are all; then none is listed.
    pub fn apply_changes(
        &self,
        alloc: Global,
        transfer: Transfer,
        most: usize,
    ) -> Result<(Zone, Changes), ApplyError>
        ensures changed { GivesChanged self.now result (apply_outcome self.now transfer) }
        ensures listed { IfOk result (λ changed. ListsTriggersOf most self.now transfer changed.1) }
    {
        let changes = self.changes_by(alloc, &transfer, most)?;
        match self.apply(alloc, transfer) {
            Err(error) => Err(error),
            Ok(zone) => Ok((zone, changes)),
        }
    }

    // Which rules may not be the same after a transfer.
    fn changes_by(
        &self,
        alloc: Global,
        transfer: &Transfer,
        most: usize,
    ) -> Result<Changes, AllocError>
        ensures changes { IfOk result (AreChangesBy self.now transfer.now) }
        ensures listed { IfOk result (ListsTriggersOf most self.now transfer.now) }
    {
        names_of_equal_octets_are_equal();
        case_does_not_matter();
        rows_of_one_identity_differ_in_the_ttl_alone();
        let loaded = self.loaded.as_ref();
        // called for its clause: what is loaded are rows
        let _count = held_count(loaded);
        match transfer {
            Transfer::Whole { soa: _, rows } => {
                changed_by_whole(alloc, &self.origin, loaded, rows, most)
            }
            Transfer::Steps(steps) => {
                changed_by_steps(alloc, &self.origin, steps.as_slice(), most)
            }
        }
    }

    // What is loaded after a transfer.
    fn loaded_after(&self, alloc: Global, transfer: Transfer) -> Result<Loaded, ApplyError>
        ensures { GivesLoaded result self.now.origin (content_after self.now.content transfer) }
    {
        match transfer {
            Transfer::Whole { soa, rows } => {
                whole(alloc, &self.origin, self.loaded.as_ref(), soa, rows)
            }
            Transfer::Steps(steps) => stepped(alloc, &self.origin, self.loaded.as_ref(), steps),
        }
    }

    /// The index of what is loaded; `None` where nothing is. Its clauses also say that the rows are rows, which
    /// the laws of rules want, and that no two of them have one identity.
    pub fn index(&self) -> Option<Index<'_>>
        ensures index { result ≡ index_of self.now.origin self.now.content }
        ensures rows { HasRows self.now.content }
        ensures distinct { HasDistinctRows self.now }
    {
        match &self.loaded {
            None => None,
            Some(loaded) => Some(loaded.index()),
        }
    }

    /// What the rule of exactly this trigger does: what the live rows of the trigger do. `None` where there are
    /// none, or they do nothing. It takes no memory, and looks at no more nodes of a trie than the name has octets or the prefix bits.
    pub fn rule(&self, trigger: &Trigger) -> Option<ActionRef<'_>>
        ensures { option_map action_seen result ≡ content_rule self.now.origin self.now.content trigger.now }
    {
        match &self.loaded {
            None => None,
            Some(loaded) => loaded.rows.rule(trigger),
        }
    }
}
