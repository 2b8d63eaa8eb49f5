//! What is known of all zones together, for a kind of trigger that is a prefix.

ghost use Rattle.std.specs.Prelude.{◌≡◌, ℕ, ◌+◌, ◌≤◌, ◌==◌, ◌&&◌, [], true, false, not, IfOk};
ghost use Rattle.std.specs.BTreeMap.{is_at};
ghost use Rattle.std.specs.List.{AllByRecursion};
ghost use Rattle.std.specs.List.Sorted.{IsStrictlySortedBy};
ghost use Rattle.std.specs.Map.{keys_of};
ghost use Rattle.ip_prefix.specs.Prefix.{PlainPrefix, contains, prefix_order};
ghost use Rattle.summary_index.specs.Summary.{may_fit, no_rules, put_zones, zones_at, zones_in};
ghost use Rattle.summary_index.specs.Zones.{has_zone};
ghost use Rattle.zone_rows.specs.declared.zone.TheConstants.{ZONE_LIMIT};

use crate::prefix_entries::{marked_prefixes, without_zone};
use crate::zones::Zones;
use ip_prefix::{Addr, Prefix};
use prefix_index::PrefixTrie;
use std::alloc::{AllocError, Global};
use std::marker::Model;
use std::sync::ledger::Ledger;
use trie_keys::{Marked, Steps};

/// Which zones of a policy have rules of a kind whose triggers are prefixes; and where the kind is listed, which have a rule of each
/// prefix. An edit gives a new version, and the two share what is the same in both.
pub struct PrefixSummary {
    having: Zones,
    is_listed: bool,
    trie: PrefixTrie<Zones, bool>,
}

impl Model for PrefixSummary {
    ghost use Rattle.ip_prefix.specs.Prefix.{PlainPrefix};
    ghost use Rattle.summary_index.specs.Summary.{PlainSummary};

    ghost Value = { PlainSummary PlainPrefix };

    ghost view = { λ s. record { having = s.having; is_listed = s.is_listed; triggers = s.trie } };
}

// Written out, so that wherever one is dropped this is one call.
impl Drop for PrefixSummary {
    fn drop(self) {
        let PrefixSummary {
            having: _,
            is_listed: _,
            trie: _,
        } = self;
    }
}

// The zones of an entry, if there is one.
fn zones_of(entry: Option<Marked<Zones, bool>>) -> Zones
    ensures { result ≡ zones_in entry }
{
    match entry {
        None => Zones::default(),
        Some(entry) => entry.value,
    }
}

impl PrefixSummary {
    /// No zone has rules of the kind, which isn't listed. It takes no memory.
    pub fn empty(alloc: Global) -> Self
        ensures { result ≡ no_rules }
    {
        PrefixSummary {
            having: Zones::default(),
            is_listed: false,
            trie: PrefixTrie::empty(alloc),
        }
    }

    /// The same version once more, for edits that leave this one as it is. It takes the time of copying the last blocks of a trie.
    pub fn share(&self) -> Result<Self, AllocError>
        ensures { IfOk result (λ summary. summary ≡ self.now) }
    {
        Ok(PrefixSummary {
            having: self.having,
            is_listed: self.is_listed,
            trie: self.trie.share()?,
        })
    }

    /// The zones that have rules of the kind.
    pub fn having(&self) -> Zones
        ensures { result ≡ self.now.having }
    {
        self.having
    }

    /// Whether it is known which zones have a rule of a prefix.
    pub fn is_listed(&self) -> bool
        ensures { result ≡ self.now.is_listed }
    {
        self.is_listed
    }

    /// Called for its clause: the prefixes stand in order of precedence.
    pub fn in_order(&self)
        ensures { IsStrictlySortedBy prefix_order (keys_of self.now.triggers) }
    {
        self.trie.in_order();
    }

    /// The zones that have a rule whose prefix contains the address; where the kind isn't listed, those that have rules of it. It takes
    /// no memory, and looks at no more than 129 nodes.
    pub fn zones_for_addr<L: Ledger>(&self, addr: Addr, steps: &mut Steps<L>) -> Zones
        ensures zones { (n : ℕ) → has_zone result n ≡ may_fit (λ p. contains p addr) self.now n }
        ensures cost { steps.new ≤ steps.old + 129 }
    {
        if self.is_listed {
            self.trie.joined(addr, steps)
        } else {
            self.having
        }
    }

    /// The zones that have a rule of exactly this prefix, where the kind is listed. It takes no memory.
    pub fn zones_at(&self, prefix: &Prefix) -> Zones
        ensures { result ≡ zones_at prefix_order prefix.now self.now.triggers }
    {
        zones_of(self.trie.get(prefix))
    }

    /// These zones have rules of the kind, which is listed: the entries say which have a rule of each prefix. They stand in order of
    /// precedence, each once; their marks don't count. It takes room for a copy of the entries until the trie is made. An `Err` comes
    /// where allocation fails, or where there is more than a trie may have.
    pub fn listed(
        alloc: Global,
        having: Zones,
        entries: &[(Prefix, Marked<Zones, bool>)],
    ) -> Result<Self, AllocError>
        requires { IsStrictlySortedBy prefix_order (keys_of entries.now) }
        ensures having { IfOk result (λ summary. summary.having ≡ having) }
        ensures listed { IfOk result (λ summary. summary.is_listed ≡ true) }
        ensures at { IfOk result (λ summary. (p : PlainPrefix) →
            zones_at prefix_order p summary.triggers ≡ zones_at prefix_order p entries.now) }
    {
        let entries = marked_prefixes(alloc, entries)?;
        let trie = PrefixTrie::of(alloc, &entries)?;
        Ok(PrefixSummary {
            having,
            is_listed: true,
            trie,
        })
    }

    /// The entries in order of precedence, without the zone of this number, which is from 1 to 64, and without those that no zone is
    /// left at.
    pub fn without_zone(
        &self,
        alloc: Global,
        number: u32,
    ) -> Result<Vec<(Prefix, Marked<Zones, bool>)>, AllocError>
        requires some { 1 ≤ number }
        requires within { number ≤ ZONE_LIMIT }
        ensures sorted { IfOk result (λ entries. IsStrictlySortedBy prefix_order (keys_of entries.items)) }
        ensures zones { IfOk result (λ entries. (p : PlainPrefix) → (n : ℕ) → 1 ≤ n → n ≤ ZONE_LIMIT →
            has_zone (zones_at prefix_order p entries.items) n
            ≡ (not (n == number) && has_zone (zones_at prefix_order p self.now.triggers) n)) }
        ensures left { IfOk result (λ entries. AllByRecursion (λ e. (e.1.value == 0) ≡ false) entries.items) }
    {
        self.in_order();
        let entries = self.trie.entries(alloc)?;
        without_zone(alloc, &entries, number)
    }

    /// The same zones have rules of the kind, which isn't listed, in place of this version. It takes no memory.
    pub fn unlisted(self, alloc: Global) -> Self
        ensures having { result.having ≡ self.having }
        ensures listed { result.is_listed ≡ false }
        ensures triggers { result.triggers ≡ [] }
    {
        let PrefixSummary {
            having,
            is_listed: _,
            trie: _,
        } = self;
        PrefixSummary {
            having,
            is_listed: false,
            trie: PrefixTrie::empty(alloc),
        }
    }

    /// With these zones as those that have rules of the kind, in place of this version.
    pub fn with_having(self, zones: Zones) -> Self
        ensures having { result.having ≡ zones }
        ensures listed { result.is_listed ≡ self.is_listed }
        ensures triggers { result.triggers ≡ self.triggers }
    {
        let PrefixSummary {
            having: _,
            is_listed,
            trie,
        } = self;
        PrefixSummary {
            having: zones,
            is_listed,
            trie,
        }
    }

    /// With these zones as those that have a rule of the prefix, in place of this version; a prefix without zones takes no room. An
    /// `Err` comes where allocation fails, or where there is as much in the trie as there may be.
    pub fn put(self, prefix: &Prefix, zones: Zones) -> Result<Self, AllocError>
        ensures having { IfOk result (λ summary. summary.having ≡ self.having) }
        ensures listed { IfOk result (λ summary. summary.is_listed ≡ self.is_listed) }
        ensures here { IfOk result (λ summary. zones_at prefix_order prefix.now summary.triggers ≡ zones) }
        ensures elsewhere { IfOk result (λ summary. (p : PlainPrefix) → is_at (prefix_order p) prefix.now ≡ false →
            zones_at prefix_order p summary.triggers ≡ zones_at prefix_order p self.triggers) }
    {
        self.in_order();
        let PrefixSummary {
            having,
            is_listed,
            trie,
        } = self;
        let trie = put(trie, prefix, zones)?;
        Ok(PrefixSummary {
            having,
            is_listed,
            trie,
        })
    }
}

// With these zones at the prefix, in place of this version.
fn put(
    trie: PrefixTrie<Zones, bool>,
    prefix: &Prefix,
    zones: Zones,
) -> Result<PrefixTrie<Zones, bool>, AllocError>
    ensures { IfOk result (λ other. other ≡ put_zones prefix_order prefix.now zones trie) }
{
    if zones.is_empty() {
        return trie.removed(prefix);
    }
    let value = Marked {
        value: zones,
        mark: true,
    };
    trie.inserted(prefix, value)
}
