//! A map from prefixes.

ghost use Rattle.std.specs.Prelude.{◌≡◌, ℕ, ◌+◌, ◌≤◌, ◌&&◌, [], true, IfOk, IfSome};
ghost use Rattle.std.specs.BTreeMap.{insert_entry, is_at};
ghost use Rattle.std.specs.List.{list_any};
ghost use Rattle.std.specs.List.Sorted.{IsStrictlySortedBy};
ghost use Rattle.std.specs.Map.{keys_of, lookup, remove_entry};
ghost use Rattle.ip_prefix.specs.Prefix.{contains, prefix_order};
ghost use Rattle.prefix_index.specs.Longest.{longest_acting};
ghost use Rattle.prefix_index.specs.Ranked.{with_all};
ghost use Rattle.prefix_index.specs.Trie.{ArePresent};

use crate::bit_trie::BitTrie;
use crate::key::Key;
use crate::keyed::push_prefixes;
use crate::long::Long;
use crate::short::Short;
use ip_prefix::{Addr, Prefix};
use std::alloc::{AllocError, Global};
use std::marker::Model;
use std::sync::ledger::Ledger;
use trie_keys::{Mark, Marked, NumberSet, Steps};

/// A map from prefixes to plain values with their marks. Contracts see the list of its entries in the order of precedence of their
/// prefixes, each prefix once. An edit gives a new version, and the two share what is the same in both.
pub struct PrefixTrie<N, M: Mark> {
    four: BitTrie<Short, N, M>,
    six: BitTrie<Long, N, M>,
}

// Written out, so that wherever one is dropped this is one call.
impl<N: Drop, M: Mark> Drop for PrefixTrie<N, M> {
    fn drop(self) {
        let PrefixTrie { four: _, six: _ } = self;
    }
}

impl<N, M: Mark> Model for PrefixTrie<N, M> {
    ghost use Rattle.std.specs.Prelude.{List};
    ghost use Rattle.ip_prefix.specs.Prefix.{PlainPrefix};
    ghost use Rattle.trie_keys.specs.declared.marked.Marked.{Marked};
    ghost use Rattle.prefix_index.specs.Ranked.{AreSome, ranked_prefixes};

    ghost Value = { List (PlainPrefix × Marked N M) };

    ghost view = { λ t. ranked_prefixes t.four t.six };

    ghost invariant = { λ t. AreSome t.four × AreSome t.six };
}

impl<N: Copy + Drop, M: Mark> PrefixTrie<N, M> {
    /// No entries. It takes no memory.
    pub fn empty(alloc: Global) -> Self
        ensures { result ≡ [] }
    {
        PrefixTrie {
            four: BitTrie::empty(alloc),
            six: BitTrie::empty(alloc),
        }
    }

    /// The entries, of which a later one of a prefix counts in place of an earlier one.
    pub fn of(alloc: Global, entries: &[(Prefix, Marked<N, M>)]) -> Result<Self, AllocError>
        requires { ArePresent M.present entries.now }
        ensures { IfOk result (λ trie. trie ≡ with_all [] entries.now) }
    {
        if let Some(trie) = Self::of_distinct(alloc, entries)? {
            return Ok(trie);
        }
        let mut trie = PrefixTrie::empty(alloc);
        for entry in entries {
            trie = trie.inserted(&entry.0, entry.1)?;
        }
        Ok(trie)
    }

    // The entries, or `None` where a prefix stands twice.
    fn of_distinct(
        alloc: Global,
        entries: &[(Prefix, Marked<N, M>)],
    ) -> Result<Option<Self>, AllocError>
        requires { ArePresent M.present entries.now }
        ensures { IfOk result (λ built. IfSome built (λ trie. trie ≡ with_all [] entries.now)) }
    {
        let Some(four) = BitTrie::of(alloc, entries)? else {
            return Ok(None);
        };
        let Some(six) = BitTrie::of(alloc, entries)? else {
            return Ok(None);
        };
        Ok(Some(PrefixTrie { four, six }))
    }

    /// The same version once more: for an edit of many prefixes, by [`inserted`](Self::inserted) and [`removed`](Self::removed),
    /// which leaves this version as it is.
    pub fn share(&self) -> Result<Self, AllocError>
        ensures { IfOk result (λ trie. trie ≡ self.now) }
    {
        let four = self.four.share()?;
        let six = self.six.share()?;
        Ok(PrefixTrie { four, six })
    }

    /// The same version, of copies of the nodes in use alone.
    pub fn rebuilt(&self) -> Result<Self, AllocError>
        ensures { IfOk result (λ trie. trie ≡ self.now) }
    {
        let four = self.four.rebuilt()?;
        let six = self.six.rebuilt()?;
        Ok(PrefixTrie { four, six })
    }

    /// With the value at the prefix. This version stays as it is.
    pub fn with(&self, prefix: &Prefix, value: Marked<N, M>) -> Result<Self, AllocError>
        requires { M.present value.mark ≡ true }
        ensures { IfOk result (λ trie. trie ≡ insert_entry prefix_order self.now prefix.now value) }
    {
        self.share()?.inserted(prefix, value)
    }

    /// Without the prefix. This version stays as it is.
    pub fn without(&self, prefix: &Prefix) -> Result<Self, AllocError>
        ensures { IfOk result (λ trie. trie ≡ remove_entry (is_at (prefix_order prefix.now)) self.now) }
    {
        self.share()?.removed(prefix)
    }

    /// With the value at the prefix, in place of this version: one of many edits.
    pub fn inserted(self, prefix: &Prefix, value: Marked<N, M>) -> Result<Self, AllocError>
        requires { M.present value.mark ≡ true }
        ensures { IfOk result (λ trie. trie ≡ insert_entry prefix_order self prefix.now value) }
    {
        let PrefixTrie { four, six } = self;
        match prefix.addr() {
            Addr::V4(number) => {
                let four = four.inserted(Short::new(number, prefix.length()), value)?;
                Ok(PrefixTrie { four, six })
            }
            Addr::V6(number) => {
                let six = six.inserted(Long::new(number, prefix.length()), value)?;
                Ok(PrefixTrie { four, six })
            }
        }
    }

    /// Without the prefix, in place of this version: one of many edits.
    pub fn removed(self, prefix: &Prefix) -> Result<Self, AllocError>
        ensures { IfOk result (λ trie. trie ≡ remove_entry (is_at (prefix_order prefix.now)) self) }
    {
        let PrefixTrie { four, six } = self;
        match prefix.addr() {
            Addr::V4(number) => {
                let four = four.removed(&Short::new(number, prefix.length()))?;
                Ok(PrefixTrie { four, six })
            }
            Addr::V6(number) => {
                let six = six.removed(&Long::new(number, prefix.length()))?;
                Ok(PrefixTrie { four, six })
            }
        }
    }

    /// All entries in the order of precedence.
    pub fn entries(&self, alloc: Global) -> Result<Vec<(Prefix, Marked<N, M>)>, AllocError>
        ensures { IfOk result (λ entries. entries.items ≡ self.now) }
    {
        let four = self.four.entries(alloc)?;
        let six = self.six.entries(alloc)?;
        let mut entries = Vec::new(alloc);
        push_prefixes(&four, &mut entries)?;
        push_prefixes(&six, &mut entries)?;
        entries.sort_by(|a, b| a.0.rank_cmp(&b.0))?;
        Ok(entries)
    }

    /// Called for its clause: the entries stand in order of precedence.
    pub fn in_order(&self)
        ensures { IsStrictlySortedBy prefix_order (keys_of self.now) }
    {
        let _four = &self.four;
    }

    /// The value at exactly this prefix, whether it acts or not. It takes no memory.
    pub fn get(&self, prefix: &Prefix) -> Option<Marked<N, M>>
        ensures { result ≡ lookup (is_at (prefix_order prefix.now)) self.now }
    {
        match prefix.addr() {
            Addr::V4(number) => self.four.get(&Short::new(number, prefix.length())),
            Addr::V6(number) => self.six.get(&Long::new(number, prefix.length())),
        }
    }

    /// The entry of the longest prefix that contains the address, of those that act: the first such entry in the order of
    /// precedence. It takes no memory, and looks at no more than 129 nodes.
    pub fn longest<L: Ledger>(
        &self,
        addr: Addr,
        steps: &mut Steps<L>,
    ) -> Option<(Prefix, Marked<N, M>)>
        ensures found { result ≡ longest_acting M.acts addr self.now }
        ensures cost { steps.new ≤ steps.old + 129 }
    {
        match addr {
            Addr::V4(number) => match self.four.longest(&Short::new(number, 32), steps) {
                Some(found) => Some((found.0.prefix(), found.1)),
                None => None,
            },
            Addr::V6(number) => match self.six.longest(&Long::new(number, 128), steps) {
                Some(found) => Some((found.0.prefix(), found.1)),
                None => None,
            },
        }
    }
}

impl<N: NumberSet, M: Mark> PrefixTrie<N, M> {
    /// The union of the sets at all prefixes that contain the address, whether they act or not. It takes no memory, and looks at no
    /// more than 129 nodes.
    pub fn joined<L: Ledger>(&self, addr: Addr, steps: &mut Steps<L>) -> N
        ensures found { (n : ℕ) → N.has result n
            ≡ list_any (λ e. contains e.0 addr && N.has e.1.value n) self.now }
        ensures cost { steps.new ≤ steps.old + 129 }
    {
        match addr {
            Addr::V4(number) => self.four.joined(&Short::new(number, 32), steps),
            Addr::V6(number) => self.six.joined(&Long::new(number, 128), steps),
        }
    }
}
