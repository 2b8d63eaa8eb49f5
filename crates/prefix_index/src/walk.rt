//! Look-ups.

ghost use Rattle.std.specs.Prelude.{◌≡◌, ℕ, ◌+◌, ◌≤◌, ◌||◌, ◌++◌, length, true, IfOk};
ghost use Rattle.std.specs.BTreeMap.{is_at};
ghost use Rattle.std.specs.Map.{lookup};
ghost use Rattle.trie_keys.specs.Scan.{option_else, own};
ghost use Rattle.prefix_index.specs.Nodes.{AreWell, stands};
ghost use Rattle.prefix_index.specs.PlainNode.{plain_nodes, value_of};
ghost use Rattle.prefix_index.specs.Walk.{acts_at, any_has, depth, last_hit, own_has, own_hit};

use crate::key::Key;
use crate::node::{Node, node_at};
use packed_lists::SharedList;
use std::alloc::AllocError;
use std::sync::ledger::Ledger;
use trie_keys::{Mark, Marked, NumberSet, Steps};

// The value of the node itself.
fn own_value<K: Key, N: Copy + Drop, M: Mark>(node: &Node<K, N, M>) -> Option<Marked<N, M>>
    ensures { result ≡ value_of M.present node.now.value }
{
    if node.value.mark.is_present() {
        Some(node.value)
    } else {
        None
    }
}

// The value at exactly this key, among those for which the number stands.
pub(crate) fn get<K: Key, N: Copy + Drop, M: Mark>(
    nodes: &SharedList<Node<K, N, M>>,
    at: u32,
    key: &K,
) -> Option<Marked<N, M>>
    requires well { AreWell K.keys (plain_nodes M.present nodes.now) }
    requires within { at ≤ length (plain_nodes M.present nodes.now) }
    requires valid { K.keys.valid key.now ≡ true }
    ensures { let entries = (stands K.keys (plain_nodes M.present nodes.now) at).list in
        result ≡ lookup (is_at (K.keys.order key.now)) entries }
{
    if at == 0 {
        return None;
    }
    let node = node_at(nodes, at);
    let common = node.key.common(key);
    if common < node.key.len() {
        None
    } else if common < key.len() {
        if key.bit(common) {
            get(nodes, node.one, key)
        } else {
            get(nodes, node.zero, key)
        }
    } else {
        own_value(node)
    }
}

// The entry of the node itself, if look-ups stop at it.
fn own_hit<K: Key, N: Copy + Drop, M: Mark>(node: &Node<K, N, M>) -> Option<(K, Marked<N, M>)>
    ensures { result ≡ own_hit (acts_at M.acts) node.now.key (value_of M.present node.now.value) }
{
    if node.value.mark.is_present() && node.value.mark.does_act() {
        Some((node.key, node.value))
    } else {
        None
    }
}

// What was found, or else the entry of the node itself.
fn found_or_own<K: Key, N: Copy + Drop, M: Mark>(
    found: Option<(K, Marked<N, M>)>,
    node: &Node<K, N, M>,
) -> Option<(K, Marked<N, M>)>
    ensures { let own = own_hit (acts_at M.acts) node.now.key (value_of M.present node.now.value) in
        result ≡ option_else found own }
{
    match found {
        Some(found) => Some(found),
        None => own_hit(node),
    }
}

// The entry of the longest key with which the key begins, of those for which the number stands and at which look-ups stop.
pub(crate) fn longest<K: Key, N: Copy + Drop, M: Mark, L: Ledger>(
    nodes: &SharedList<Node<K, N, M>>,
    at: u32,
    key: &K,
    steps: &mut Steps<L>,
) -> Option<(K, Marked<N, M>)>
    requires well { AreWell K.keys (plain_nodes M.present nodes.now) }
    requires within { at ≤ length (plain_nodes M.present nodes.now) }
    ensures found { let entries = (stands K.keys (plain_nodes M.present nodes.now) at).list in
        result ≡ last_hit K.keys (acts_at M.acts) key.now entries }
    ensures none { at ≡ 0 → steps.new ≡ steps.old }
    ensures cost { let sub = stands K.keys (plain_nodes M.present nodes.now) at in
        steps.new + depth K.keys sub ≤ steps.old + (K.keys.width + 1) }
{
    if at == 0 {
        return None;
    }
    steps.tick();
    let node = node_at(nodes, at);
    let common = node.key.common(key);
    if common < node.key.len() {
        None
    } else if common < key.len() {
        if key.bit(common) {
            found_or_own(longest(nodes, node.one, key, steps), node)
        } else {
            found_or_own(longest(nodes, node.zero, key, steps), node)
        }
    } else {
        own_hit(node)
    }
}

// The set of the node itself, with no numbers where the node has no value.
fn own_set<K: Key, N: NumberSet, M: Mark>(node: &Node<K, N, M>) -> N
    ensures { let own = value_of M.present node.now.value in
        (n : ℕ) → N.has result n ≡ own_has N.has n own }
{
    if node.value.mark.is_present() {
        node.value.value
    } else {
        N::none()
    }
}

// The numbers of the set, and those of the node itself.
fn with_own<K: Key, N: NumberSet, M: Mark>(set: N, node: &Node<K, N, M>) -> N
    ensures { let own = value_of M.present node.now.value in
        (n : ℕ) → N.has result n ≡ (N.has set n || own_has N.has n own) }
{
    set.union(own_set(node))
}

// The union of the sets at all keys with which the key begins, of those for which the number stands.
pub(crate) fn joined<K: Key, N: NumberSet, M: Mark, L: Ledger>(
    nodes: &SharedList<Node<K, N, M>>,
    at: u32,
    key: &K,
    steps: &mut Steps<L>,
) -> N
    requires well { AreWell K.keys (plain_nodes M.present nodes.now) }
    requires within { at ≤ length (plain_nodes M.present nodes.now) }
    ensures found { let entries = (stands K.keys (plain_nodes M.present nodes.now) at).list in
        (n : ℕ) → N.has result n ≡ any_has K.keys N.has key.now n entries }
    ensures none { at ≡ 0 → steps.new ≡ steps.old }
    ensures cost { let sub = stands K.keys (plain_nodes M.present nodes.now) at in
        steps.new + depth K.keys sub ≤ steps.old + (K.keys.width + 1) }
{
    if at == 0 {
        return N::none();
    }
    steps.tick();
    let node = node_at(nodes, at);
    let common = node.key.common(key);
    if common < node.key.len() {
        N::none()
    } else if common < key.len() {
        if key.bit(common) {
            with_own(joined(nodes, node.one, key, steps), node)
        } else {
            with_own(joined(nodes, node.zero, key, steps), node)
        }
    } else {
        own_set(node)
    }
}

// Puts the entry of the node itself at the end.
fn collect_own<K: Key, N: Copy + Drop, M: Mark>(
    node: &Node<K, N, M>,
    out: &mut Vec<(K, Marked<N, M>)>,
) -> Result<(), AllocError>
    ensures { let entry = own node.now.key (value_of M.present node.now.value) in
        IfOk result (λ _. out.new.items ≡ out.old.items ++ entry) }
{
    if node.value.mark.is_present() {
        out.push((node.key, node.value))?;
        Ok(())
    } else {
        Ok(())
    }
}

// Puts the entries for which the number stands at the end.
pub(crate) fn collect<K: Key, N: Copy + Drop, M: Mark>(
    nodes: &SharedList<Node<K, N, M>>,
    at: u32,
    out: &mut Vec<(K, Marked<N, M>)>,
) -> Result<(), AllocError>
    requires well { AreWell K.keys (plain_nodes M.present nodes.now) }
    requires within { at ≤ length (plain_nodes M.present nodes.now) }
    ensures { let entries = (stands K.keys (plain_nodes M.present nodes.now) at).list in
        IfOk result (λ _. out.new.items ≡ out.old.items ++ entries) }
{
    if at == 0 {
        return Ok(());
    }
    let node = node_at(nodes, at);
    collect_own(node, out)?;
    collect(nodes, node.zero, out)?;
    collect(nodes, node.one, out)?;
    Ok(())
}
