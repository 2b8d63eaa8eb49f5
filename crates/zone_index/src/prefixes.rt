//! Values by address prefix.

ghost use Rattle.std.specs.Prelude.{◌≡◌, ◌<◌, ◌+◌, [], true, IfOk};
ghost use Rattle.std.specs.BTreeMap.{insert_entry, is_at};
ghost use Rattle.std.specs.List.Sorted.{IsStrictlySortedBy};
ghost use Rattle.std.specs.Map.{keys_of, lookup, remove_entry};
ghost use Rattle.ip_prefix.specs.Prefix.{prefix_order};
ghost use Rattle.prefix_index.specs.Longest.{longest_acting};
ghost use Rattle.zone_index.specs.ActingEntries.{StandsAt, at_prefix, marked_if_kept};
ghost use Rattle.zone_index.specs.Counted.{some_kept};
ghost use Rattle.zone_index.specs.Kept.{is_kept, kept_acts};
ghost use Rattle.zone_index.specs.Made.{AreFoundPrefixes, prefixes_of};

use crate::acting_entries::acting_prefixes;
use crate::kept::Kept;
use crate::tally::{tally, tally_without};
use ip_prefix::{Addr, Prefix};
use prefix_index::PrefixTrie;
use std::alloc::{AllocError, Global};
use std::marker::{Brand, Model};
use std::sync::ledger::{Blank, Ledger};
use trie_keys::{Mark, Marked, Steps};

/// Values by prefix. Contracts see the list of the entries in order of precedence.
pub(crate) struct Prefixes {
    trie: PrefixTrie<u32, Kept>,
    // how many entries act
    acting: usize,
}

impl Model for Prefixes {
    ghost use Rattle.std.specs.Prelude.{ℕ, List};
    ghost use Rattle.ip_prefix.specs.Prefix.{PlainPrefix, prefix_order};
    ghost use Rattle.trie_keys.specs.declared.marked.Marked.{Marked};
    ghost use Rattle.zone_index.specs.Counted.{IsCounted};
    ghost use Rattle.zone_index.specs.declared.kept.Kept.{Kept};

    ghost Value = { List (PlainPrefix × Marked ℕ Kept) };

    ghost view = { λ p. p.trie };

    ghost invariant = { λ p. IsCounted prefix_order p.trie p.acting };
}

// Written out, so that wherever one is dropped this is one call.
impl Drop for Prefixes {
    fn drop(self) {
        let Prefixes { trie: _, acting: _ } = self;
    }
}

impl Prefixes {
    // No entries.
    pub(crate) fn empty(alloc: Global) -> Self
        ensures { result ≡ [] }
    {
        Prefixes {
            trie: PrefixTrie::empty(alloc),
            acting: 0,
        }
    }

    // These entries, of which so many act.
    pub(crate) fn of(
        alloc: Global,
        found: &[(Prefix, Marked<u32, Kept>)],
        acting: usize,
    ) -> Result<Self, AllocError>
        requires { AreFoundPrefixes found.now acting }
        ensures { IfOk result (λ prefixes. prefixes ≡ prefixes_of found.now) }
    {
        let trie = PrefixTrie::of(alloc, found)?;
        Ok(Prefixes { trie, acting })
    }

    // The same version once more.
    pub(crate) fn share(&self) -> Result<Self, AllocError>
        ensures { IfOk result (λ other. other ≡ self.now) }
    {
        Ok(Prefixes {
            trie: self.trie.share()?,
            acting: self.acting,
        })
    }

    // The value at exactly this prefix.
    pub(crate) fn get(&self, prefix: &Prefix) -> Option<Marked<u32, Kept>>
        ensures { result ≡ lookup (is_at (prefix_order prefix.now)) self.now }
    {
        self.trie.get(prefix)
    }

    // Whether some entry acts.
    pub(crate) fn has(&self) -> bool
        ensures has { result ≡ some_kept self.now }
        ensures sorted { IsStrictlySortedBy prefix_order (keys_of self.now) }
    {
        self.acting > 0
    }

    // With the value at the prefix, in place of this version.
    pub(crate) fn put(self, prefix: &Prefix, value: Marked<u32, Kept>) -> Result<Self, AllocError>
        requires { is_kept value.mark ≡ true }
        ensures { IfOk result (λ other. other ≡ insert_entry prefix_order self prefix.now value) }
    {
        let old = self.get(prefix);
        let Prefixes { trie, acting } = self;
        let acting = tally(acting, old, value)?;
        let trie = trie.inserted(prefix, value)?;
        Ok(Prefixes { trie, acting })
    }

    // Without the prefix, in place of this version.
    pub(crate) fn take(self, prefix: &Prefix) -> Result<Self, AllocError>
        ensures { IfOk result
            (λ other. other ≡ remove_entry (is_at (prefix_order prefix.now)) self) }
    {
        let old = self.get(prefix);
        let Prefixes { trie, acting } = self;
        let acting = tally_without(acting, old);
        let trie = trie.removed(prefix)?;
        Ok(Prefixes { trie, acting })
    }

    // The prefixes whose entries act, in order of precedence, each with this value.
    pub(crate) fn acting_prefixes<N: Copy + Drop>(
        &self,
        alloc: Global,
        value: N,
    ) -> Result<Vec<(Prefix, Marked<N, bool>)>, AllocError>
        ensures sorted { IfOk result (λ entries. IsStrictlySortedBy prefix_order (keys_of entries.items)) }
        ensures found { IfOk result
            (λ entries. StandsAt (λ p. marked_if_kept value (at_prefix self.now p)) entries.items) }
    {
        let found = self.trie.entries(alloc)?;
        let entries = acting_prefixes(alloc, &found, self.acting, value)?;
        Ok(entries)
    }

    // The entry of the longest prefix that contains the address, of those that act.
    pub(crate) fn longest(&self, addr: Addr) -> Option<(Prefix, Marked<u32, Kept>)>
        ensures { result ≡ longest_acting kept_acts addr self.now }
    {
        longest_from::<Brand>(Blank::new(1), &self.trie, addr)
    }
}

// The same, with a new ledger for the count of steps.
fn longest_from<L: Ledger>(
    blank: Blank,
    trie: &PrefixTrie<u32, Kept>,
    addr: Addr,
) -> Option<(Prefix, Marked<u32, Kept>)>
    requires name { blank.name ≡ L.name }
    requires parts { blank.parts ≡ L.parts }
    requires some { 0 < blank.parts }
    ensures { result ≡ longest_acting kept_acts addr trie.now }
{
    let mut steps = Steps::<L>::start(blank);
    trie.longest(addr, &mut steps)
}
