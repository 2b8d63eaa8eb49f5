//! A trie.

ghost use Rattle.std.specs.Prelude.{◌≡◌, ℕ, ◌+◌, ◌≤◌, [], true, IfOk, IfSome};
ghost use Rattle.std.specs.BTreeMap.{insert_entry, is_at};
ghost use Rattle.std.specs.Map.{lookup, remove_entry};
ghost use Rattle.trie_keys.specs.Sorting.{AreEntries};
ghost use Rattle.prefix_index.specs.Made.{IsMadeOf};
ghost use Rattle.prefix_index.specs.Trie.{ArePresent};
ghost use Rattle.prefix_index.specs.Walk.{acts_at, any_has, last_hit};

use crate::build::build;
use crate::copy::copy;
use crate::key::Key;
use crate::keyed::keyed_entries;
use crate::node::Node;
use crate::put::put;
use crate::take::take;
use crate::walk;
use ip_prefix::Prefix;
use packed_lists::{Share, SharedList};
use std::alloc::{AllocError, Global};
use std::marker::Model;
use std::sync::ledger::Ledger;
use trie_keys::{Mark, Marked, NumberSet, Steps};

// A map from strings of bits. Contracts see its entries in the order of their keys. An edit gives a new version, and the two share
// what is the same in both.
#[derive(Drop)]
pub(crate) struct BitTrie<K: Key, N, M: Mark> {
    nodes: SharedList<Node<K, N, M>>,
    root: u32,
    // how many nodes there were when these were built anew
    fresh: usize,
    alloc: Global,
}

impl<K: Key, N, M: Mark> Model for BitTrie<K, N, M> {
    ghost use Rattle.std.specs.Prelude.{List};
    ghost use Rattle.trie_keys.specs.declared.marked.Marked.{Marked};
    ghost use Rattle.prefix_index.specs.Nodes.{stands};
    ghost use Rattle.prefix_index.specs.PlainNode.{plain_nodes};
    ghost use Rattle.prefix_index.specs.Trie.{IsTrie};

    ghost Value = { List (K × Marked N M) };

    ghost view = { λ t. (stands K.keys (plain_nodes M.present t.nodes) t.root).list };

    ghost invariant = { λ t. IsTrie K.keys (plain_nodes M.present t.nodes) t.root };
}

impl<K: Key, N: Copy + Drop, M: Mark> BitTrie<K, N, M> {
    // No entries. It takes no memory.
    pub(crate) fn empty(alloc: Global) -> Self
        ensures { result ≡ [] }
    {
        BitTrie {
            nodes: SharedList::new(alloc),
            root: 0,
            fresh: 0,
            alloc,
        }
    }

    // The same version once more.
    pub(crate) fn share(&self) -> Result<Self, AllocError>
        ensures { IfOk result (λ trie. trie ≡ self.now) }
    {
        Ok(BitTrie {
            nodes: self.nodes.share()?,
            root: self.root,
            fresh: self.fresh,
            alloc: self.alloc,
        })
    }

    // The entries whose prefixes have a key of this family, or `None` where a key stands twice.
    pub(crate) fn of(
        alloc: Global,
        entries: &[(Prefix, Marked<N, M>)],
    ) -> Result<Option<Self>, AllocError>
        requires { ArePresent M.present entries.now }
        ensures { IfOk result (λ built. IfSome built (IsMadeOf K.keys K.from entries.now)) }
    {
        let mut keyed = keyed_entries::<K, N, M>(alloc, entries)?;
        keyed.sort_by(|a, b| a.0.order(&b.0))?;
        let mut nodes = SharedList::new(alloc);
        let Some(root) = build(&mut nodes, &keyed)? else {
            return Ok(None);
        };
        let fresh = nodes.len();
        Ok(Some(BitTrie {
            nodes,
            root,
            fresh,
            alloc,
        }))
    }

    // This version, or one of copies of the nodes in use, once there are more than twice as many as at the last time.
    fn tidied(self) -> Result<Self, AllocError>
        ensures { IfOk result (λ trie. trie ≡ self) }
    {
        if (self.nodes.len() / 2).saturating_sub(1024) > self.fresh {
            self.rebuilt()
        } else {
            Ok(self)
        }
    }

    // The same version, of copies of the nodes in use.
    pub(crate) fn rebuilt(&self) -> Result<Self, AllocError>
        ensures { IfOk result (λ trie. trie ≡ self.now) }
    {
        let mut nodes = SharedList::new(self.alloc);
        let root = copy(&self.nodes, self.root, &mut nodes)?;
        let fresh = nodes.len();
        Ok(BitTrie {
            nodes,
            root,
            fresh,
            alloc: self.alloc,
        })
    }

    // With the value at the key, in place of this version.
    pub(crate) fn inserted(self, key: K, value: Marked<N, M>) -> Result<Self, AllocError>
        requires valid { K.keys.valid key ≡ true }
        requires present { M.present value.mark ≡ true }
        ensures { IfOk result (λ trie. trie ≡ insert_entry K.keys.order self key value) }
    {
        let BitTrie {
            mut nodes,
            root,
            fresh,
            alloc,
        } = self;
        let root = put(&mut nodes, root, key, value)?;
        BitTrie {
            nodes,
            root,
            fresh,
            alloc,
        }
        .tidied()
    }

    // Without the key, in place of this version.
    pub(crate) fn removed(self, key: &K) -> Result<Self, AllocError>
        requires { K.keys.valid key.now ≡ true }
        ensures ok { IfOk result (λ trie. trie ≡ remove_entry (is_at (K.keys.order key.now)) self) }
        ensures entries { AreEntries K.keys self }
    {
        let BitTrie {
            mut nodes,
            root,
            fresh,
            alloc,
        } = self;
        let root = take(&mut nodes, root, key)?;
        BitTrie {
            nodes,
            root,
            fresh,
            alloc,
        }
        .tidied()
    }

    // The value at exactly this key. It takes no memory.
    pub(crate) fn get(&self, key: &K) -> Option<Marked<N, M>>
        requires { K.keys.valid key.now ≡ true }
        ensures { result ≡ lookup (is_at (K.keys.order key.now)) self.now }
    {
        walk::get(&self.nodes, self.root, key)
    }

    // The entry of the longest key with which the key begins, of those at which look-ups stop: the last such entry. It takes no
    // memory.
    pub(crate) fn longest<L: Ledger>(
        &self,
        key: &K,
        steps: &mut Steps<L>,
    ) -> Option<(K, Marked<N, M>)>
        ensures found { result ≡ last_hit K.keys (acts_at M.acts) key.now self.now }
        ensures cost { steps.new ≤ steps.old + (K.keys.width + 1) }
        ensures entries { AreEntries K.keys self.now }
    {
        walk::longest(&self.nodes, self.root, key, steps)
    }

    // The entries in the order of their keys.
    pub(crate) fn entries(&self, alloc: Global) -> Result<Vec<(K, Marked<N, M>)>, AllocError>
        ensures ok { IfOk result (λ entries. entries.items ≡ self.now) }
        ensures entries { AreEntries K.keys self.now }
    {
        let mut entries = Vec::new(alloc);
        walk::collect(&self.nodes, self.root, &mut entries)?;
        Ok(entries)
    }
}

impl<K: Key, N: NumberSet, M: Mark> BitTrie<K, N, M> {
    // The union of the sets at all keys with which the key begins. It takes no memory.
    pub(crate) fn joined<L: Ledger>(&self, key: &K, steps: &mut Steps<L>) -> N
        ensures found { (n : ℕ) → N.has result n ≡ any_has K.keys N.has key.now n self.now }
        ensures cost { steps.new ≤ steps.old + (K.keys.width + 1) }
        ensures entries { AreEntries K.keys self.now }
    {
        walk::joined(&self.nodes, self.root, key, steps)
    }
}
