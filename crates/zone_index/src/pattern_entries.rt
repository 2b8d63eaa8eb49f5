//! Entries by pattern of names, of which a trie is to be made.

ghost use Rattle.std.specs.Prelude.{◌≡◌, [], true, IfOk, OnOk, None};
ghost use Rattle.std.specs.BTreeMap.{insert_entry, is_at};
ghost use Rattle.std.specs.Map.{lookup};
ghost use Rattle.qname_index.specs.Key.{name_key};
ghost use Rattle.qname_index.specs.Best.{pattern_order};
ghost use Rattle.zone_index.specs.Kept.{is_kept};

use crate::kept::Kept;
use crate::patterns::Patterns;
use crate::tally::tally;
use dns_name::Pattern;
use octet_trie::OctetFound;
use qname_index::laws::keys_are_of_patterns;
use std::alloc::{AllocError, Global};
use std::marker::Model;
use trie_keys::Marked;

/// Entries by pattern. Contracts see the list of them in order of precedence.
pub(crate) struct PatternEntries<'a> {
    found: Vec<OctetFound<'a, u32, Kept>>,
    // how many of them act
    acting: usize,
}

impl<'a> Model for PatternEntries<'a> {
    ghost use Rattle.std.specs.Prelude.{ℕ, List};
    ghost use Rattle.dns_name.specs.Alike.{PlainPattern};
    ghost use Rattle.trie_keys.specs.declared.marked.Marked.{Marked};
    ghost use Rattle.zone_index.specs.Made.{AreFoundPatterns, patterns_of};
    ghost use Rattle.zone_index.specs.declared.kept.Kept.{Kept};

    ghost Value = { List (PlainPattern × Marked ℕ Kept) };

    ghost view = { λ p. patterns_of p.found.items };

    ghost invariant = { λ p. AreFoundPatterns p.found.items p.acting };
}

// Written out, so that wherever one is dropped this is one call.
impl<'a> Drop for PatternEntries<'a> {
    fn drop(self) {
        let PatternEntries {
            found: _,
            acting: _,
        } = self;
    }
}

impl<'a> PatternEntries<'a> {
    /// No entries. It takes no memory.
    pub(crate) fn empty(alloc: Global) -> Self
        ensures { result ≡ [] }
    {
        PatternEntries {
            found: Vec::new(alloc),
            acting: 0,
        }
    }

    /// Puts the value at the pattern, which has none. The key is that of its base.
    pub(crate) fn put(
        &mut self,
        pattern: &Pattern,
        key: &'a [u8],
        value: Marked<u32, Kept>,
    ) -> Result<(), AllocError>
        requires key { key.now ≡ name_key pattern.now.base }
        requires present { is_kept value.mark ≡ true }
        requires none { lookup (is_at (pattern_order pattern.now)) self.old ≡ None }
        ensures { OnOk result (self.new ≡ insert_entry pattern_order self.old pattern.now value) }
    {
        keys_are_of_patterns();
        // called for its clauses: the base is a name in lower case
        let _base = pattern.base();
        let wild = pattern.is_wild();
        let acting = tally(self.acting, None, value)?;
        self.found.push(OctetFound { key, wild, value })?;
        self.acting = acting;
        Ok(())
    }

    /// The trie of the entries.
    pub(crate) fn built(self, alloc: Global) -> Result<Patterns, AllocError>
        ensures { IfOk result (λ patterns. patterns ≡ self.entry) }
    {
        let PatternEntries { found, acting } = self;
        Patterns::of(alloc, &found, acting)
    }
}
