//! Values by pattern of names.

ghost use Rattle.std.specs.Prelude.{◌≡◌, ◌<◌, ◌+◌, [], true, map, IfOk};
ghost use Rattle.std.specs.BTreeMap.{insert_entry, is_at};
ghost use Rattle.std.specs.List.{AllByRecursion};
ghost use Rattle.std.specs.List.Sorted.{IsStrictlySortedBy};
ghost use Rattle.std.specs.Map.{keys_of, lookup, remove_entry};
ghost use Rattle.std.specs.Option.{option_map};
ghost use Rattle.octet_trie.specs.Trie.{found_entry};
ghost use Rattle.qname_index.specs.Best.{pattern_order};
ghost use Rattle.qname_index.specs.Found.{found_pattern};
ghost use Rattle.qname_index.specs.Trie.{IsNameTrie, best_acting};
ghost use Rattle.trigger_codec.specs.Bases.{IsPattern};
ghost use Rattle.zone_index.specs.ActingEntries.{StandsByKey, at_pattern, marked_if_kept};
ghost use Rattle.zone_index.specs.Counted.{some_kept};
ghost use Rattle.zone_index.specs.Kept.{is_kept, kept_acts};
ghost use Rattle.zone_index.specs.Made.{AreFoundPatterns, patterns_of};

use crate::acting_entries::acting_keys;
use crate::kept::Kept;
use crate::tally::{tally, tally_without};
use dns_name::Pattern;
use octet_trie::OctetFound;
use qname_index::{Found, LookupName, NameTrie};
use std::alloc::{AllocError, Global};
use std::marker::{Brand, Model};
use std::sync::ledger::{Blank, Ledger};
use trie_keys::{Mark, Marked, Steps};

/// Values by pattern. Contracts see the list of the entries in order of precedence.
pub(crate) struct Patterns {
    trie: NameTrie<u32, Kept>,
    // how many entries act
    acting: usize,
}

impl Model for Patterns {
    ghost use Rattle.std.specs.Prelude.{ℕ, List};
    ghost use Rattle.dns_name.specs.Alike.{PlainPattern};
    ghost use Rattle.trie_keys.specs.declared.marked.Marked.{Marked};
    ghost use Rattle.zone_index.specs.Counted.{ArePatterns};
    ghost use Rattle.zone_index.specs.declared.kept.Kept.{Kept};

    ghost Value = { List (PlainPattern × Marked ℕ Kept) };

    ghost view = { λ p. p.trie };

    ghost invariant = { λ p. ArePatterns p.trie p.acting };
}

// Written out, so that wherever one is dropped this is one call.
impl Drop for Patterns {
    fn drop(self) {
        let Patterns { trie: _, acting: _ } = self;
    }
}

impl Patterns {
    // No entries.
    pub(crate) fn empty(alloc: Global) -> Self
        ensures { result ≡ [] }
    {
        Patterns {
            trie: NameTrie::empty(alloc),
            acting: 0,
        }
    }

    // These entries, of which so many act.
    pub(crate) fn of(
        alloc: Global,
        found: &[OctetFound<'_, u32, Kept>],
        acting: usize,
    ) -> Result<Self, AllocError>
        requires { AreFoundPatterns found.now acting }
        ensures { IfOk result (λ patterns. patterns ≡ patterns_of found.now) }
    {
        let trie = NameTrie::of(alloc, found)?;
        Ok(Patterns { trie, acting })
    }

    // The same version once more.
    pub(crate) fn share(&self) -> Result<Self, AllocError>
        ensures { IfOk result (λ other. other ≡ self.now) }
    {
        Ok(Patterns {
            trie: self.trie.share()?,
            acting: self.acting,
        })
    }

    // The value at exactly this pattern.
    pub(crate) fn get(&self, pattern: &Pattern) -> Option<Marked<u32, Kept>>
        ensures { result ≡ lookup (is_at (pattern_order pattern.now)) self.now }
    {
        self.trie.get(pattern)
    }

    // Whether some entry acts.
    pub(crate) fn has(&self) -> bool
        ensures has { result ≡ some_kept self.now }
        ensures sorted { IsStrictlySortedBy pattern_order (keys_of self.now) }
        ensures lower { AllByRecursion IsPattern (keys_of self.now) }
    {
        self.acting > 0
    }

    // With the value at the pattern, in place of this version.
    pub(crate) fn put(self, pattern: &Pattern, value: Marked<u32, Kept>) -> Result<Self, AllocError>
        requires { is_kept value.mark ≡ true }
        ensures { IfOk result (λ other. other ≡ insert_entry pattern_order self pattern.now value) }
    {
        // called for its clauses: the base is a name in lower case
        let _base = pattern.base();
        let old = self.get(pattern);
        let Patterns { trie, acting } = self;
        let acting = tally(acting, old, value)?;
        let trie = trie.inserted(pattern, value)?;
        Ok(Patterns { trie, acting })
    }

    // Without the pattern, in place of this version.
    pub(crate) fn take(self, pattern: &Pattern) -> Result<Self, AllocError>
        ensures { IfOk result
            (λ other. other ≡ remove_entry (is_at (pattern_order pattern.now)) self) }
    {
        let old = self.get(pattern);
        let Patterns { trie, acting } = self;
        let acting = tally_without(acting, old);
        let trie = trie.removed(pattern)?;
        Ok(Patterns { trie, acting })
    }

    // The keys of the patterns whose entries act, in the order of their octets, each with this value.
    pub(crate) fn acting_keys<N: Copy + Drop>(
        &self,
        alloc: Global,
        value: N,
    ) -> Result<Vec<OctetFound<'_, N, bool>>, AllocError>
        ensures keys { IfOk result (λ entries. IsNameTrie (map found_entry entries.items)) }
        ensures found { IfOk result (λ entries.
            StandsByKey (λ p. marked_if_kept value (at_pattern self.now p)) (map found_entry entries.items)) }
    {
        let found = self.trie.by_key()?;
        let entries = acting_keys(alloc, &found, self.acting, value)?;
        Ok(entries)
    }

    // The first entry in order of precedence whose pattern matches the name, of those that act.
    pub(crate) fn best(&self, name: &LookupName) -> Option<Found<'_, u32, Kept>>
        ensures { option_map found_pattern result ≡ best_acting kept_acts name.now self.now }
    {
        best_from::<Brand>(Blank::new(1), &self.trie, name)
    }
}

// The same, with a new ledger for the count of steps.
fn best_from<'a, L: Ledger>(
    blank: Blank,
    trie: &'a NameTrie<u32, Kept>,
    name: &LookupName,
) -> Option<Found<'a, u32, Kept>>
    requires name { blank.name ≡ L.name }
    requires parts { blank.parts ≡ L.parts }
    requires some { 0 < blank.parts }
    ensures { option_map found_pattern result ≡ best_acting kept_acts name.now trie.now }
{
    let mut steps = Steps::<L>::start(blank);
    trie.best(name, &mut steps)
}
