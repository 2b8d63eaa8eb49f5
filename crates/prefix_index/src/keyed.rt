//! Entries by prefix as entries by key.

ghost use Rattle.std.specs.Prelude.{◌≡◌, ◌≤◌, [], ◌∷◌, ◌++◌, map, IfOk};
ghost use Rattle.std.specs.List.{AllByRecursion};
ghost use Rattle.prefix_index.specs.Made.{AreKeys, keyed_by};

use crate::key::Key;
use ip_prefix::Prefix;
use std::alloc::{AllocError, Global};
use trie_keys::{Mark, Marked};

// Puts the entry at the end, if its prefix has a key of this family.
fn push_keyed<K: Key, N: Copy + Drop, M: Mark>(
    keyed: &mut Vec<(K, Marked<N, M>)>,
    entry: &(Prefix, Marked<N, M>),
) -> Result<(), AllocError>
    requires { AreKeys K.keys keyed.old.items }
    ensures all { let more = keyed_by K.from (entry.now ∷ []) in
        IfOk result (λ _. keyed.new.items ≡ keyed.old.items ++ more) }
    ensures keys { IfOk result (λ _. AreKeys K.keys keyed.new.items) }
{
    match K::of(&entry.0) {
        Some(key) => {
            keyed.push((key, entry.1))?;
            Ok(())
        }
        None => Ok(()),
    }
}

// The entries whose prefixes have a key of this family, as they come.
pub(crate) fn keyed_entries<K: Key, N: Copy + Drop, M: Mark>(
    alloc: Global,
    entries: &[(Prefix, Marked<N, M>)],
) -> Result<Vec<(K, Marked<N, M>)>, AllocError>
    ensures all { IfOk result (λ keyed. keyed.items ≡ keyed_by K.from entries.now) }
    ensures keys { IfOk result (λ keyed. AreKeys K.keys keyed.items) }
{
    let mut keyed: Vec<(K, Marked<N, M>)> = Vec::new(alloc);
    for entry in entries {
        push_keyed(&mut keyed, entry)?;
    }
    Ok(keyed)
}

// Puts the entries by their prefixes at the end.
pub(crate) fn push_prefixes<K: Key, N: Copy + Drop, M: Mark>(
    keyed: &[(K, Marked<N, M>)],
    entries: &mut Vec<(Prefix, Marked<N, M>)>,
) -> Result<(), AllocError>
    requires { AllByRecursion (λ e. 1 ≤ K.keys.len e.0) keyed.now }
    ensures { let more = map (λ e. (K.to e.0, e.1)) keyed.now in
        IfOk result (λ _. entries.new.items ≡ entries.old.items ++ more) }
{
    for entry in keyed {
        entries.push((entry.0.prefix(), entry.1))?;
    }
    Ok(())
}
