//! Nodes made of a list of entries.

ghost use Rattle.std.specs.Prelude.{◌≡◌, ◌∷◌, ◌≤◌, cond, length, take, true, IfOk, IfSome, IsTrue};
ghost use Rattle.std.specs.List.{AllByRecursion};
ghost use Rattle.trie_keys.specs.Keys.{Under};
ghost use Rattle.prefix_index.specs.Nodes.{AreWell, Built};
ghost use Rattle.prefix_index.specs.PlainNode.{plain_nodes};
ghost use Rattle.prefix_index.specs.Trie.{ArePresent, AreValid};

use crate::key::Key;
use crate::node::{Node, push_branch, push_value};
use packed_lists::SharedList;
use std::alloc::AllocError;
use trie_keys::{Mark, Marked};

// Whether the key begins with the other, and has this bit behind it.
fn is_under<K: Key>(top: &K, key: &K, one: bool) -> bool
    requires { K.keys.valid key.now ≡ true }
    ensures { IsTrue result → Under K.keys top.now (cond one 1 0) key.now }
{
    let len = top.len();
    if top.common(key) < len || key.len() <= len {
        return false;
    }
    key.bit(len) == one
}

// How many entries there are before the first whose key isn't so.
fn count_under<K: Key, N: Copy + Drop, M: Mark>(
    entries: &[(K, Marked<N, M>)],
    top: &K,
    one: bool,
) -> usize
    requires { AreValid K.keys entries.now }
    ensures within { result ≤ length entries.now }
    ensures under { AllByRecursion (λ e. Under K.keys top.now (cond one 1 0) e.0) (take result entries.now) }
{
    let mut count = 0;
    for entry in entries {
        if !is_under(top, &entry.0, one) {
            return count;
        }
        count += 1;
    }
    count
}

// Puts a node of its own value, and those of the entries under it, behind the others.
#[cycle(build)]
fn build_above<K: Key, N: Copy + Drop, M: Mark>(
    nodes: &mut SharedList<Node<K, N, M>>,
    key: K,
    value: Marked<N, M>,
    rest: &[(K, Marked<N, M>)],
) -> Result<Option<u32>, AllocError>
    requires well { AreWell K.keys (plain_nodes M.present nodes.old) }
    requires valid_key { K.keys.valid key ≡ true }
    requires present_key { M.present value.mark ≡ true }
    requires valid { AreValid K.keys rest.now }
    requires present { ArePresent M.present rest.now }
    ensures { let old = plain_nodes M.present nodes.old in
        let new = plain_nodes M.present nodes.new in
        let entries = (key, value) ∷ rest.now in
        IfOk result (λ built. IfSome built (λ number. Built K.keys old new entries number)) }
{
    let zeros = count_under(rest, &key, false);
    let zero_part = &rest[..zeros];
    let one_part = &rest[zeros..];
    if count_under(one_part, &key, true) < one_part.len() {
        return Ok(None);
    }
    let Some(zero) = build(nodes, zero_part)? else {
        return Ok(None);
    };
    let Some(one) = build(nodes, one_part)? else {
        return Ok(None);
    };
    let number = push_value(nodes, key, value, zero, one)?;
    Ok(Some(number))
}

// Puts a node without a value, and those of the entries under it, behind the others.
#[cycle(build)]
fn build_apart<K: Key, N: Copy + Drop, M: Mark>(
    nodes: &mut SharedList<Node<K, N, M>>,
    key: K,
    spare: N,
    entries: &[(K, Marked<N, M>)],
) -> Result<Option<u32>, AllocError>
    requires well { AreWell K.keys (plain_nodes M.present nodes.old) }
    requires valid_key { K.keys.valid key ≡ true }
    requires valid { AreValid K.keys entries.now }
    requires present { ArePresent M.present entries.now }
    ensures { let old = plain_nodes M.present nodes.old in
        let new = plain_nodes M.present nodes.new in
        IfOk result (λ built. IfSome built (λ number. Built K.keys old new entries.now number)) }
{
    let zeros = count_under(entries, &key, false);
    let zero_part = &entries[..zeros];
    let one_part = &entries[zeros..];
    if zeros == 0 || one_part.is_empty() || count_under(one_part, &key, true) < one_part.len() {
        return Ok(None);
    }
    let Some(zero) = build(nodes, zero_part)? else {
        return Ok(None);
    };
    let Some(one) = build(nodes, one_part)? else {
        return Ok(None);
    };
    let number = push_branch(nodes, key, spare, zero, one)?;
    Ok(Some(number))
}

// Puts the nodes of the entries behind the others, and gives the number of the last of them, or `None` where the entries do not
// stand in the order of their keys, each key once.
#[cycle(build)]
pub(crate) fn build<K: Key, N: Copy + Drop, M: Mark>(
    nodes: &mut SharedList<Node<K, N, M>>,
    entries: &[(K, Marked<N, M>)],
) -> Result<Option<u32>, AllocError>
    requires well { AreWell K.keys (plain_nodes M.present nodes.old) }
    requires valid { AreValid K.keys entries.now }
    requires present { ArePresent M.present entries.now }
    ensures { let old = plain_nodes M.present nodes.old in
        let new = plain_nodes M.present nodes.new in
        IfOk result (λ built. IfSome built (λ number. Built K.keys old new entries.now number)) }
{
    if entries.is_empty() {
        return Ok(Some(0));
    }
    let first = entries[0];
    let common = first.0.common(&entries[entries.len() - 1].0);
    if common == first.0.len() {
        let rest = &entries[1..];
        build_above(nodes, first.0, first.1, rest)
    } else {
        build_apart(nodes, first.0.cut(common), first.1.value, entries)
    }
}
