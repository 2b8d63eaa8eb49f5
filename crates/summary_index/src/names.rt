//! What is known of all zones together, for a kind of trigger that is a pattern.

ghost use Rattle.std.specs.Prelude.{◌≡◌, ℕ, ◌+◌, ◌≤◌, ◌==◌, ◌&&◌, [], true, false, map, not, IfOk};
ghost use Rattle.std.specs.BTreeMap.{is_at};
ghost use Rattle.std.specs.List.{AllByRecursion};
ghost use Rattle.std.specs.List.Sorted.{IsStrictlySortedBy};
ghost use Rattle.std.specs.Map.{keys_of};
ghost use Rattle.dns_name.specs.Alike.{PlainPattern, matches};
ghost use Rattle.octet_trie.specs.Trie.{found_entry};
ghost use Rattle.qname_index.specs.Best.{pattern_order};
ghost use Rattle.qname_index.specs.Index.{IsKey};
ghost use Rattle.qname_index.specs.Ranked.{pattern_key};
ghost use Rattle.qname_index.specs.Trie.{IsNameTrie};
ghost use Rattle.summary_index.specs.Entries.{zones_by_key};
ghost use Rattle.summary_index.specs.Summary.{may_fit, no_rules, put_zones, zones_at, zones_in};
ghost use Rattle.summary_index.specs.Zones.{has_zone};
ghost use Rattle.zone_rows.specs.declared.zone.TheConstants.{ZONE_LIMIT};

use crate::entries::{marked, without_zone};
use crate::zones::Zones;
use dns_name::Pattern;
use octet_trie::OctetFound;
use qname_index::laws::keys_are_of_patterns;
use qname_index::{LookupName, NameTrie};
use std::alloc::{AllocError, Global};
use std::marker::Model;
use std::sync::ledger::Ledger;
use trie_keys::{Marked, Steps};

/// Which zones of a policy have rules of a kind whose triggers are patterns; and where the kind is listed, which have a rule of each
/// pattern. An edit gives a new version, and the two share what is the same in both.
pub struct NameSummary {
    having: Zones,
    is_listed: bool,
    trie: NameTrie<Zones, bool>,
}

impl Model for NameSummary {
    ghost use Rattle.dns_name.specs.Alike.{PlainPattern};
    ghost use Rattle.summary_index.specs.Summary.{PlainSummary};

    ghost Value = { PlainSummary PlainPattern };

    ghost view = { λ s. record { having = s.having; is_listed = s.is_listed; triggers = s.trie } };
}

// Written out, so that wherever one is dropped this is one call.
impl Drop for NameSummary {
    fn drop(self) {
        let NameSummary {
            having: _,
            is_listed: _,
            trie: _,
        } = self;
    }
}

// The zones of an entry, if there is one.
fn zones_of(entry: Option<Marked<Zones, bool>>) -> Zones
    ensures { result ≡ zones_in entry }
{
    match entry {
        None => Zones::default(),
        Some(entry) => entry.value,
    }
}

impl NameSummary {
    /// No zone has rules of the kind, which isn't listed. It takes no memory.
    pub fn empty(alloc: Global) -> Self
        ensures { result ≡ no_rules }
    {
        NameSummary {
            having: Zones::default(),
            is_listed: false,
            trie: NameTrie::empty(alloc),
        }
    }

    /// The same version once more, for edits that leave this one as it is. It takes the time of copying the last blocks of a trie.
    pub fn share(&self) -> Result<Self, AllocError>
        ensures { IfOk result (λ summary. summary ≡ self.now) }
    {
        Ok(NameSummary {
            having: self.having,
            is_listed: self.is_listed,
            trie: self.trie.share()?,
        })
    }

    /// The zones that have rules of the kind.
    pub fn having(&self) -> Zones
        ensures { result ≡ self.now.having }
    {
        self.having
    }

    /// Whether it is known which zones have a rule of a pattern.
    pub fn is_listed(&self) -> bool
        ensures { result ≡ self.now.is_listed }
    {
        self.is_listed
    }

    /// Called for its clauses: the patterns stand in order of precedence, and are of names in lower case.
    pub fn in_order(&self)
        ensures sorted { IsStrictlySortedBy pattern_order (keys_of self.now.triggers) }
        ensures keys { AllByRecursion (λ e. IsKey e.0) self.now.triggers }
    {
        self.trie.in_order();
    }

    /// The zones that have a rule whose pattern matches the name; where the kind isn't listed, those that have rules of it. It takes no
    /// memory, and looks at no more than 256 nodes.
    pub fn zones_for_name<L: Ledger>(&self, name: &LookupName, steps: &mut Steps<L>) -> Zones
        ensures zones { (n : ℕ) → has_zone result n ≡ may_fit (λ p. matches p name.now) self.now n }
        ensures cost { steps.new ≤ steps.old + 256 }
    {
        if self.is_listed {
            self.trie.joined(name, steps)
        } else {
            self.having
        }
    }

    /// The zones that have a rule of exactly this pattern, where the kind is listed. It takes no memory.
    pub fn zones_at(&self, pattern: &Pattern) -> Zones
        ensures { result ≡ zones_at pattern_order pattern.now self.now.triggers }
    {
        zones_of(self.trie.get(pattern))
    }

    /// These zones have rules of the kind, which is listed: the entries say which have a rule of each pattern. They stand in the order
    /// of the octets of their patterns' keys, each once; their marks don't count. It takes one pass, and room for a copy of the entries
    /// until the trie is made. An `Err` comes where allocation fails, or where there is more than a trie may have.
    pub fn listed(
        alloc: Global,
        having: Zones,
        entries: &[OctetFound<'_, Zones, bool>],
    ) -> Result<Self, AllocError>
        requires { IsNameTrie (map found_entry entries.now) }
        ensures having { IfOk result (λ summary. summary.having ≡ having) }
        ensures listed { IfOk result (λ summary. summary.is_listed ≡ true) }
        ensures at { IfOk result (λ summary. (p : PlainPattern) → IsKey p →
            zones_at pattern_order p summary.triggers ≡ zones_by_key (pattern_key p) entries.now) }
    {
        keys_are_of_patterns();
        let entries = marked(alloc, entries)?;
        let trie = NameTrie::of(alloc, &entries)?;
        Ok(NameSummary {
            having,
            is_listed: true,
            trie,
        })
    }

    /// The entries by the octets of their patterns' keys, in the order of these, without the zone of this number, which is from 1 to 64,
    /// and without those that no zone is left at.
    pub fn without_zone(&self, number: u32) -> Result<Vec<OctetFound<'_, Zones, bool>>, AllocError>
        requires some { 1 ≤ number }
        requires within { number ≤ ZONE_LIMIT }
        ensures keys { IfOk result (λ entries. IsNameTrie (map found_entry entries.items)) }
        ensures zones { IfOk result (λ entries. (p : PlainPattern) → IsKey p → (n : ℕ) → 1 ≤ n → n ≤ ZONE_LIMIT →
            has_zone (zones_by_key (pattern_key p) entries.items) n
            ≡ (not (n == number) && has_zone (zones_at pattern_order p self.now.triggers) n)) }
        ensures left { IfOk result (λ entries. AllByRecursion (λ e. (e.value.value == 0) ≡ false) entries.items) }
    {
        keys_are_of_patterns();
        let entries = self.trie.by_key()?;
        let alloc = *entries.allocator();
        without_zone(alloc, &entries, number)
    }

    /// The same zones have rules of the kind, which isn't listed, in place of this version. It takes no memory.
    pub fn unlisted(self, alloc: Global) -> Self
        ensures having { result.having ≡ self.having }
        ensures listed { result.is_listed ≡ false }
        ensures triggers { result.triggers ≡ [] }
    {
        let NameSummary {
            having,
            is_listed: _,
            trie: _,
        } = self;
        NameSummary {
            having,
            is_listed: false,
            trie: NameTrie::empty(alloc),
        }
    }

    /// With these zones as those that have rules of the kind, in place of this version.
    pub fn with_having(self, zones: Zones) -> Self
        ensures having { result.having ≡ zones }
        ensures listed { result.is_listed ≡ self.is_listed }
        ensures triggers { result.triggers ≡ self.triggers }
    {
        let NameSummary {
            having: _,
            is_listed,
            trie,
        } = self;
        NameSummary {
            having: zones,
            is_listed,
            trie,
        }
    }

    /// With these zones as those that have a rule of the pattern, in place of this version; a pattern without zones takes no room. An
    /// `Err` comes where allocation fails, or where there is as much in the trie as there may be.
    pub fn put(self, pattern: &Pattern, zones: Zones) -> Result<Self, AllocError>
        ensures having { IfOk result (λ summary. summary.having ≡ self.having) }
        ensures listed { IfOk result (λ summary. summary.is_listed ≡ self.is_listed) }
        ensures here { IfOk result (λ summary. zones_at pattern_order pattern.now summary.triggers ≡ zones) }
        ensures elsewhere { IfOk result (λ summary. (p : PlainPattern) → is_at (pattern_order p) pattern.now ≡ false →
            zones_at pattern_order p summary.triggers ≡ zones_at pattern_order p self.triggers) }
    {
        self.in_order();
        let NameSummary {
            having,
            is_listed,
            trie,
        } = self;
        let trie = put(trie, pattern, zones)?;
        Ok(NameSummary {
            having,
            is_listed,
            trie,
        })
    }
}

// With these zones at the pattern, in place of this version.
fn put(
    trie: NameTrie<Zones, bool>,
    pattern: &Pattern,
    zones: Zones,
) -> Result<NameTrie<Zones, bool>, AllocError>
    ensures { IfOk result (λ other. other ≡ put_zones pattern_order pattern.now zones trie) }
{
    if zones.is_empty() {
        return trie.removed(pattern);
    }
    let value = Marked {
        value: zones,
        mark: true,
    };
    trie.inserted(pattern, value)
}
