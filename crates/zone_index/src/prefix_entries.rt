//! Entries by address prefix, of which a trie is to be made.

ghost use Rattle.std.specs.Prelude.{◌≡◌, [], true, IfOk, OnOk, None};
ghost use Rattle.std.specs.BTreeMap.{insert_entry, is_at};
ghost use Rattle.std.specs.Map.{lookup};
ghost use Rattle.ip_prefix.specs.Prefix.{prefix_order};
ghost use Rattle.zone_index.specs.Kept.{is_kept};

use crate::kept::Kept;
use crate::prefixes::Prefixes;
use crate::tally::tally;
use ip_prefix::Prefix;
use std::alloc::{AllocError, Global};
use std::marker::Model;
use trie_keys::Marked;

/// Entries by prefix. Contracts see the list of them in order of precedence.
pub(crate) struct PrefixEntries {
    found: Vec<(Prefix, Marked<u32, Kept>)>,
    // how many of them act
    acting: usize,
}

impl Model for PrefixEntries {
    ghost use Rattle.std.specs.Prelude.{ℕ, List};
    ghost use Rattle.ip_prefix.specs.Prefix.{PlainPrefix};
    ghost use Rattle.trie_keys.specs.declared.marked.Marked.{Marked};
    ghost use Rattle.zone_index.specs.Made.{AreFoundPrefixes, prefixes_of};
    ghost use Rattle.zone_index.specs.declared.kept.Kept.{Kept};

    ghost Value = { List (PlainPrefix × Marked ℕ Kept) };

    ghost view = { λ p. prefixes_of p.found.items };

    ghost invariant = { λ p. AreFoundPrefixes p.found.items p.acting };
}

// Written out, so that wherever one is dropped this is one call.
impl Drop for PrefixEntries {
    fn drop(self) {
        let PrefixEntries {
            found: _,
            acting: _,
        } = self;
    }
}

impl PrefixEntries {
    /// No entries. It takes no memory.
    pub(crate) fn empty(alloc: Global) -> Self
        ensures { result ≡ [] }
    {
        PrefixEntries {
            found: Vec::new(alloc),
            acting: 0,
        }
    }

    /// Puts the value at the prefix, which has none.
    pub(crate) fn put(
        &mut self,
        prefix: &Prefix,
        value: Marked<u32, Kept>,
    ) -> Result<(), AllocError>
        requires present { is_kept value.mark ≡ true }
        requires none { lookup (is_at (prefix_order prefix.now)) self.old ≡ None }
        ensures { OnOk result (self.new ≡ insert_entry prefix_order self.old prefix.now value) }
    {
        let acting = tally(self.acting, None, value)?;
        self.found.push((*prefix, value))?;
        self.acting = acting;
        Ok(())
    }

    /// The trie of the entries.
    pub(crate) fn built(self, alloc: Global) -> Result<Prefixes, AllocError>
        ensures { IfOk result (λ prefixes. prefixes ≡ self) }
    {
        let PrefixEntries { found, acting } = self;
        Prefixes::of(alloc, &found, acting)
    }
}
