//! A trie.

ghost use Rattle.std.specs.Prelude.{◌≡◌, ℕ, ◌+◌, ◌≤◌, ◌&&◌, [], true, length, map, IfOk, IfSome};
ghost use Rattle.std.specs.BTreeMap.{insert_entry, is_at};
ghost use Rattle.std.specs.Cmp.Lexicographic.{slice_cmp};
ghost use Rattle.std.specs.List.{list_any};
ghost use Rattle.std.specs.Map.{lookup, remove_entry};
ghost use Rattle.std.specs.Option.{option_map};
ghost use Rattle.std.specs.Ordering.{nat_cmp};
ghost use Rattle.octet_trie.specs.Fits.{fits};
ghost use Rattle.octet_trie.specs.ListKeys.{entry_key, octet_keys};
ghost use Rattle.octet_trie.specs.Listed.{ArePresent, AreShort};
ghost use Rattle.octet_trie.specs.Trie.{found_entry};
ghost use Rattle.trie_keys.specs.Filling.{with_all};
ghost use Rattle.trie_keys.specs.Scan.{last_where};
ghost use Rattle.trie_keys.specs.Sorting.{AreEntries};

use crate::build::build;
use crate::collect::collect;
use crate::node::Node;
use crate::order::are_in_order;
use crate::put::put;
use crate::rebuild::copy_node;
use crate::store::Store;
use crate::take::take;
use crate::walk;
use std::alloc::{AllocError, Global};
use std::marker::Model;
use std::sync::ledger::Ledger;
use trie_keys::{Mark, Marked, NumberSet, Steps};

// How many nodes more than twice those that were in use may stand before they are copied.
const SPARE: u32 = 2048;

/// An entry of a trie: the octets of its key, whether it is wild, and its value.
#[derive(Drop)]
pub struct OctetFound<'a, N, M> {
    /// The octets of its key.
    pub key: &'a [u8],
    /// Whether it is wild.
    pub wild: bool,
    /// Its value.
    pub value: Marked<N, M>,
}

/// A map from keys of up to 254 octets, each exact or wild, to small plain values with marks. Contracts see its entries in the
/// order of their keys, an exact one before the wild one of the same octets, and both before those of longer keys. An edit gives a
/// new version, and the two share what is the same in both.
#[derive(Drop)]
pub struct OctetTrie<N, M: Mark> {
    store: Store<N, M>,
    root: Node<N, M>,
    // how many nodes there were when these were built anew
    fresh: u32,
    alloc: Global,
}

impl<N, M: Mark> Model for OctetTrie<N, M> {
    ghost use Rattle.std.specs.Prelude.{ℕ, List};
    ghost use Rattle.octet_trie.specs.Nodes.{stands};
    ghost use Rattle.octet_trie.specs.Plain.{plain};
    ghost use Rattle.octet_trie.specs.Trie.{IsTrie};
    ghost use Rattle.trie_keys.specs.declared.marked.Marked.{Marked};

    ghost Value = { List (List ℕ × Marked N M) };

    ghost view = { λ t. (stands t.store (plain M.present t.root)).list };

    ghost invariant = { λ t. IsTrie t.store (plain M.present t.root) };
}

impl<N: Copy + Drop, M: Mark> OctetTrie<N, M> {
    /// No entries. It takes no memory.
    pub fn empty(alloc: Global) -> Self
    where
        N: Default,
        ensures { result ≡ [] }
    {
        OctetTrie {
            store: Store::new(alloc),
            root: Node::root(),
            fresh: 0,
            alloc,
        }
    }

    /// The entries, of which a later one of a key counts in place of an earlier one. Where they stand in the order of their keys,
    /// each key once, it takes one pass over them, in which the octets of each key are looked at a few times and are stored once
    /// where no longer key begins with them. An `Err` comes where allocation fails, or where there are more nodes or octets than
    /// there may be.
    pub fn of(alloc: Global, entries: &[OctetFound<'_, N, M>]) -> Result<Self, AllocError>
    where
        N: Default,
        requires short { AreShort entries.now }
        requires present { ArePresent M.present entries.now }
        ensures { IfOk result
            (λ trie. trie ≡ with_all (slice_cmp nat_cmp) [] (map found_entry entries.now)) }
    {
        if let Some(trie) = Self::of_listed(alloc, entries)? {
            return Ok(trie);
        }
        let mut trie = OctetTrie::empty(alloc);
        for entry in entries {
            trie = trie.inserted(entry.key, entry.wild, entry.value)?;
        }
        Ok(trie)
    }

    // The entries, or `None` where there are none, or where they don't stand in the order of their keys, each key once.
    fn of_listed(
        alloc: Global,
        entries: &[OctetFound<'_, N, M>],
    ) -> Result<Option<Self>, AllocError>
        requires short { AreShort entries.now }
        requires present { ArePresent M.present entries.now }
        ensures { let these = map found_entry entries.now in
            IfOk result (λ made. IfSome made (λ trie. trie ≡ with_all (slice_cmp nat_cmp) [] these)) }
    {
        if entries.is_empty() || !are_in_order(entries) {
            return Ok(None);
        }
        let mut store = Store::new(alloc);
        let Some(root) = build(alloc, &mut store, &entries[0].key[..0], 0, entries)? else {
            return Ok(None);
        };
        let fresh = store.len();
        Ok(Some(OctetTrie {
            store,
            root,
            fresh,
            alloc,
        }))
    }

    /// The same version once more. It takes the time of copying the last blocks, of up to 1,024 nodes and 4,096 octets.
    pub fn share(&self) -> Result<Self, AllocError>
        ensures { IfOk result (λ trie. trie ≡ self.now) }
    {
        Ok(OctetTrie {
            store: self.store.share()?,
            root: self.root,
            fresh: self.fresh,
            alloc: self.alloc,
        })
    }

    // This version, or one of copies of the nodes in use, once there are more than twice as many as at the last time.
    fn tidied(self) -> Result<Self, AllocError>
        ensures { IfOk result (λ trie. trie ≡ self) }
    {
        if (self.store.len() / 2).saturating_sub(SPARE / 2) > self.fresh {
            self.rebuilt()
        } else {
            Ok(self)
        }
    }

    /// The same version, of copies of the nodes in use and of the octets of their keys.
    pub fn rebuilt(&self) -> Result<Self, AllocError>
        ensures { IfOk result (λ trie. trie ≡ self.now) }
    {
        let mut store = Store::new(self.alloc);
        let root = copy_node(self.alloc, &self.store, &self.root, &mut store)?;
        let fresh = store.len();
        Ok(OctetTrie {
            store,
            root,
            fresh,
            alloc: self.alloc,
        })
    }

    /// With the value at the key, in place of this version: one of many edits. An `Err` comes where allocation fails, or where
    /// there are as many nodes or octets as there may be.
    pub fn inserted(
        self,
        octets: &[u8],
        wild: bool,
        value: Marked<N, M>,
    ) -> Result<Self, AllocError>
        requires short { length octets.now ≤ 254 }
        requires present { M.present value.mark ≡ true }
        ensures { IfOk result
            (λ trie. trie ≡ insert_entry (slice_cmp nat_cmp) self (entry_key octets.now wild)
            value) }
    {
        let OctetTrie {
            mut store,
            root,
            fresh,
            alloc,
        } = self;
        let root = put(&mut store, &root, octets, wild, value)?;
        OctetTrie {
            store,
            root,
            fresh,
            alloc,
        }
        .tidied()
    }

    /// Without the key, in place of this version: one of many edits. Where there is no value at the key, nothing changes.
    pub fn removed(self, octets: &[u8], wild: bool) -> Result<Self, AllocError>
        requires { length octets.now ≤ 254 }
        ensures { IfOk result
            (λ trie. trie ≡ remove_entry (is_at (slice_cmp nat_cmp (entry_key octets.now wild)))
            self) }
    {
        if self.get(octets, wild).is_none() {
            return Ok(self);
        }
        self.taken(octets, wild)
    }

    // Without the key, where it has a value.
    fn taken(self, octets: &[u8], wild: bool) -> Result<Self, AllocError>
        requires { length octets.now ≤ 254 }
        ensures { IfOk result
            (λ trie. trie ≡ remove_entry (is_at (slice_cmp nat_cmp (entry_key octets.now wild)))
            self) }
    {
        let OctetTrie {
            mut store,
            root,
            fresh,
            alloc,
        } = self;
        let root = take(&mut store, &root, octets, wild)?;
        OctetTrie {
            store,
            root,
            fresh,
            alloc,
        }
        .tidied()
    }

    /// With the value at the key. This version stays as it is.
    pub fn with(&self, octets: &[u8], wild: bool, value: Marked<N, M>) -> Result<Self, AllocError>
        requires short { length octets.now ≤ 254 }
        requires present { M.present value.mark ≡ true }
        ensures { IfOk result
            (λ trie. trie ≡ insert_entry (slice_cmp nat_cmp) self.now (entry_key octets.now wild)
            value) }
    {
        self.share()?.inserted(octets, wild, value)
    }

    /// Without the key. This version stays as it is.
    pub fn without(&self, octets: &[u8], wild: bool) -> Result<Self, AllocError>
        requires { length octets.now ≤ 254 }
        ensures { IfOk result
            (λ trie. trie ≡ remove_entry (is_at (slice_cmp nat_cmp (entry_key octets.now wild)))
            self.now) }
    {
        self.share()?.removed(octets, wild)
    }

    /// The value at the key, whether it acts or not. It takes no memory.
    pub fn get(&self, octets: &[u8], wild: bool) -> Option<Marked<N, M>>
        requires { length octets.now ≤ 254 }
        ensures value { result ≡ lookup (is_at (slice_cmp nat_cmp (entry_key octets.now wild)))
            self.now }
        ensures ordered { AreEntries octet_keys self.now }
    {
        walk::get(&self.store, &self.root, octets, wild)
    }

    /// The exact entry of the octets, or else the wild one of the longest key that is shorter and begins them, each only where it
    /// acts. It takes no memory, and as many steps as there are nodes on the way.
    pub fn best<L: Ledger>(
        &self,
        octets: &[u8],
        steps: &mut Steps<L>,
    ) -> Option<OctetFound<'_, N, M>>
        ensures found { option_map found_entry result ≡ last_where
            (λ e. fits octets.now e.0 && M.acts e.1.mark) self.now }
        ensures cost { steps.new ≤ steps.old + 256 }
        ensures ordered { AreEntries octet_keys self.now }
    {
        match walk::best(&self.store, &self.root, octets, steps) {
            Some(hit) => Some(OctetFound {
                key: self.store.read(hit.key, hit.len),
                wild: hit.wild,
                value: hit.value,
            }),
            None => None,
        }
    }

    /// The entries in the order of their keys.
    pub fn entries(&self) -> Result<Vec<OctetFound<'_, N, M>>, AllocError>
        ensures { IfOk result (λ entries. map found_entry entries.items ≡ self.now) }
    {
        let mut entries = Vec::new(self.alloc);
        collect(&self.store, &self.root, &mut entries)?;
        Ok(entries)
    }
}

impl<N: NumberSet, M: Mark> OctetTrie<N, M> {
    /// The union of the sets at all keys that answer a question for the octets: the exact one of the octets, and the wild one of each
    /// shorter key that begins them, whether they act or not. It takes no memory, and as many steps as there are nodes on the way.
    pub fn joined<L: Ledger>(&self, octets: &[u8], steps: &mut Steps<L>) -> N
        ensures found { (n : ℕ) → N.has result n
            ≡ list_any (λ e. fits octets.now e.0 && N.has e.1.value n) self.now }
        ensures cost { steps.new ≤ steps.old + 256 }
    {
        walk::joined(&self.store, &self.root, octets, steps)
    }
}
