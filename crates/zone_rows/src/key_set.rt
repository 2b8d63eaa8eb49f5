//! A set of keys, in order.

ghost use Rattle.std.specs.Prelude.{◌≡◌, ◌||◌, ℕ, List, [], not, IfOk, OnOk, OnErr};
ghost use Rattle.std.specs.Str.{bytes_eq};
ghost use Rattle.zone_rows.specs.KeySet.{has_key};

use std::alloc::{AllocError, Global};
use std::collections::BTreeSet;
use std::marker::Model;

/// A set of keys. A look-up takes no memory and does not walk the set.
#[derive(Drop)]
pub struct KeySet {
    keys: BTreeSet<Vec<u8>>,
}

impl Model for KeySet {
    ghost use Rattle.std.specs.Prelude.{ℕ, List, map};

    ghost Value = { List (List ℕ) };

    ghost view = { λ s. map (λ k. k.items) s.keys.keys };
}

impl KeySet {
    /// No keys. It takes no memory.
    pub fn new(alloc: Global) -> Self
        ensures { result ≡ [] }
    {
        KeySet {
            keys: BTreeSet::new(alloc),
        }
    }

    /// Whether the set has the key.
    pub fn contains(&self, key: &[u8]) -> bool
        ensures { result ≡ has_key self.now key.now }
    {
        self.keys.contains(key)
    }

    /// Puts the key into the set, and says whether it is new. An `Err` leaves the set as it was.
    pub fn insert(&mut self, key: Vec<u8>) -> Result<bool, AllocError>
        ensures new { IfOk result (λ is_new. is_new ≡ not (has_key self.old key.items)) }
        ensures ok { OnOk result ((other : List ℕ) →
            has_key self.new other ≡ (bytes_eq other key.items || has_key self.old other)) }
        ensures err { OnErr result (self.new ≡ self.old) }
    {
        Ok(self.keys.insert(key)?)
    }
}
