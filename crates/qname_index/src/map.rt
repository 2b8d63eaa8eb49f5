//! A map from patterns of names.

ghost use Rattle.std.specs.Prelude.{◌≡◌, ℕ, ◌+◌, ◌≤◌, ◌&&◌, [], true, map, IfOk};
ghost use Rattle.std.specs.BTreeMap.{insert_entry, is_at};
ghost use Rattle.std.specs.List.{AllByRecursion, list_any};
ghost use Rattle.std.specs.List.Sorted.{IsStrictlySortedBy};
ghost use Rattle.std.specs.Map.{keys_of, lookup, remove_entry};
ghost use Rattle.std.specs.Option.{option_map};
ghost use Rattle.dns_name.specs.Alike.{matches};
ghost use Rattle.octet_trie.specs.Listed.{ArePresent};
ghost use Rattle.octet_trie.specs.Trie.{found_entry};
ghost use Rattle.qname_index.specs.Best.{pattern_order};
ghost use Rattle.trie_keys.specs.Filling.{with_all};
ghost use Rattle.qname_index.specs.Found.{found_pattern};
ghost use Rattle.qname_index.specs.Index.{IsKey};
ghost use Rattle.qname_index.specs.Listing.{AreListed};
ghost use Rattle.qname_index.specs.Ranked.{ArePatternKeys, patterns, ranked_patterns};
ghost use Rattle.qname_index.specs.Trie.{IsNameTrie, best_acting};

use crate::key::Key;
use crate::listing::{listing_cmp, push_entries};
use crate::lookup_name::LookupName;
use crate::pattern_ref::PatternRef;
use dns_name::Pattern;
use dns_name::laws::names_that_are_alike;
use octet_trie::{OctetFound, OctetTrie};
use std::alloc::{AllocError, Global};
use std::marker::Model;
use std::sync::ledger::Ledger;
use trie_keys::{Mark, Marked, NumberSet, Steps};

/// An entry: its pattern, which lies in the trie, and its value.
#[derive(Drop)]
pub struct Found<'a, N, M> {
    /// Its pattern.
    pub pattern: PatternRef<'a>,
    /// Its value.
    pub value: Marked<N, M>,
}

/// A map from patterns of names to small plain values with their marks. Contracts see the list of its entries in order of
/// precedence, each pattern once: exact patterns before wild ones, then the base of more labels first. An edit gives a new
/// version, and the two share what is the same in both.
pub struct NameTrie<N, M: Mark> {
    trie: OctetTrie<N, M>,
}

// Written out, so that wherever one is dropped this is one call.
impl<N: Drop, M: Mark> Drop for NameTrie<N, M> {
    fn drop(self) {
        let NameTrie { trie: _ } = self;
    }
}

impl<N, M: Mark> Model for NameTrie<N, M> {
    ghost use Rattle.std.specs.Prelude.{List};
    ghost use Rattle.dns_name.specs.Alike.{PlainPattern};
    ghost use Rattle.trie_keys.specs.declared.marked.Marked.{Marked};
    ghost use Rattle.qname_index.specs.Ranked.{ranked_patterns};
    ghost use Rattle.qname_index.specs.Trie.{IsNameTrie};

    ghost Value = { List (PlainPattern × Marked N M) };

    ghost view = { λ t. ranked_patterns t.trie };

    ghost invariant = { λ t. IsNameTrie t.trie };
}

impl<N: Copy + Drop, M: Mark> NameTrie<N, M> {
    /// No entries. It takes no memory.
    pub fn empty(alloc: Global) -> Self
    where
        N: Default,
        ensures { result ≡ [] }
    {
        NameTrie {
            trie: OctetTrie::empty(alloc),
        }
    }

    /// The entries by the octets of their patterns' keys ([`Key`]), of which a later one of a pattern counts in place of an earlier
    /// one. Where they stand in the order of their keys, each key once, it takes one pass over them.
    pub fn of(alloc: Global, entries: &[OctetFound<'_, N, M>]) -> Result<Self, AllocError>
    where
        N: Default,
        requires keys { ArePatternKeys (map found_entry entries.now) }
        requires present { ArePresent M.present entries.now }
        ensures { let these = patterns (map found_entry entries.now) in
            IfOk result (λ trie. trie ≡ with_all pattern_order [] these) }
    {
        let trie = OctetTrie::of(alloc, entries)?;
        Ok(NameTrie { trie })
    }

    /// The same version once more: for an edit of many patterns, by [`inserted`](Self::inserted) and [`removed`](Self::removed),
    /// which leaves this version as it is.
    pub fn share(&self) -> Result<Self, AllocError>
        ensures { IfOk result (λ trie. trie ≡ self.now) }
    {
        Ok(NameTrie {
            trie: self.trie.share()?,
        })
    }

    /// With the value at the pattern. This version stays as it is.
    pub fn with(&self, pattern: &Pattern, value: Marked<N, M>) -> Result<Self, AllocError>
        requires { M.present value.mark ≡ true }
        ensures { IfOk result
            (λ trie. trie ≡ insert_entry pattern_order self.now pattern.now value) }
    {
        self.share()?.inserted(pattern, value)
    }

    /// Without the pattern. This version stays as it is.
    pub fn without(&self, pattern: &Pattern) -> Result<Self, AllocError>
        ensures { IfOk result
            (λ trie. trie ≡ remove_entry (is_at (pattern_order pattern.now)) self.now) }
    {
        self.share()?.removed(pattern)
    }

    /// With the value at the pattern, in place of this version: one of many edits. An `Err` comes where allocation fails, or
    /// where there is as much in the trie as there may be.
    pub fn inserted(self, pattern: &Pattern, value: Marked<N, M>) -> Result<Self, AllocError>
        requires { M.present value.mark ≡ true }
        ensures { IfOk result
            (λ trie. trie ≡ insert_entry pattern_order self pattern.now value) }
    {
        let NameTrie { trie } = self;
        let key = Key::of(pattern.base());
        let trie = trie.inserted(key.as_slice(), pattern.is_wild(), value)?;
        Ok(NameTrie { trie })
    }

    /// Without the pattern, in place of this version: one of many edits.
    pub fn removed(self, pattern: &Pattern) -> Result<Self, AllocError>
        ensures { IfOk result
            (λ trie. trie ≡ remove_entry (is_at (pattern_order pattern.now)) self) }
    {
        let NameTrie { trie } = self;
        let key = Key::of(pattern.base());
        let trie = trie.removed(key.as_slice(), pattern.is_wild())?;
        Ok(NameTrie { trie })
    }

    /// The value at exactly this pattern, whether it acts or not. It takes no memory.
    pub fn get(&self, pattern: &Pattern) -> Option<Marked<N, M>>
        ensures { result ≡ lookup (is_at (pattern_order pattern.now)) self.now }
    {
        let key = Key::of(pattern.base());
        self.trie.get(key.as_slice(), pattern.is_wild())
    }

    /// Called for its clauses: the entries stand in order of precedence, and their patterns are of names in lower case.
    pub fn in_order(&self)
        ensures sorted { IsStrictlySortedBy pattern_order (keys_of self.now) }
        ensures keys { AllByRecursion (λ e. IsKey e.0) self.now }
    {
        let _trie = &self.trie;
    }

    /// The first entry in order of precedence whose pattern matches the name, of those that act: the exact one, or else the wild
    /// one of the longest base. It takes no memory, and looks at no more than 256 nodes.
    pub fn best<L: Ledger>(
        &self,
        name: &LookupName,
        steps: &mut Steps<L>,
    ) -> Option<Found<'_, N, M>>
        ensures found { option_map found_pattern result ≡ best_acting M.acts name.now self.now }
        ensures cost { steps.new ≤ steps.old + 256 }
    {
        names_that_are_alike();
        match self.trie.best(name.octets(), steps) {
            Some(found) => Some(Found {
                pattern: PatternRef::new(found.key, found.wild),
                value: found.value,
            }),
            None => None,
        }
    }

    /// The entries by the octets of their patterns' keys, in the order of these, of which each stands once.
    pub fn by_key(&self) -> Result<Vec<OctetFound<'_, N, M>>, AllocError>
        ensures patterns { IfOk result
            (λ entries. ranked_patterns (map found_entry entries.items) ≡ self.now) }
        ensures keys { IfOk result (λ entries. IsNameTrie (map found_entry entries.items)) }
    {
        self.trie.entries()
    }

    /// All entries in the canonical order of their bases (RFC 4034, section 6.1), an exact pattern before the wild one of the same
    /// base.
    pub fn entries(&self, alloc: Global) -> Result<Vec<(Pattern, Marked<N, M>)>, AllocError>
        ensures { IfOk result (λ entries. AreListed self.now entries.items) }
    {
        let found = self.trie.entries()?;
        let mut entries = Vec::new(alloc);
        push_entries(alloc, &found, &mut entries)?;
        entries.sort_by(|a, b| listing_cmp(&a.0, &b.0))?;
        Ok(entries)
    }
}

impl<N: NumberSet, M: Mark> NameTrie<N, M> {
    /// The union of the sets at all patterns that match the name. It takes no memory, and looks at no more than 256 nodes.
    pub fn joined<L: Ledger>(&self, name: &LookupName, steps: &mut Steps<L>) -> N
        ensures found { (n : ℕ) → N.has result n
            ≡ list_any (λ e. matches e.0 name.now && N.has e.1.value n) self.now }
        ensures cost { steps.new ≤ steps.old + 256 }
    {
        names_that_are_alike();
        self.trie.joined(name.octets(), steps)
    }
}
