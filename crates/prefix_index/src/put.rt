//! Edits.

ghost use Rattle.std.specs.Prelude.{◌≡◌, ◌<◌, ◌≤◌, length, true, IfOk};
ghost use Rattle.prefix_index.specs.Nodes.{AreWell, IsAt, Put};
ghost use Rattle.prefix_index.specs.PlainNode.{plain_node, plain_nodes};

use crate::key::Key;
use crate::node::{Node, node_at, push, push_branch, push_value};
use packed_lists::SharedList;
use std::alloc::AllocError;
use trie_keys::{Mark, Marked};

// Puts the value at the node's key.
fn put_here<K: Key, N: Copy + Drop, M: Mark>(
    nodes: &mut SharedList<Node<K, N, M>>,
    at: u32,
    node: &Node<K, N, M>,
    value: Marked<N, M>,
) -> Result<u32, AllocError>
    requires well { AreWell K.keys (plain_nodes M.present nodes.old) }
    requires present { M.present value.mark ≡ true }
    requires is_at { IsAt K.keys (plain_nodes M.present nodes.old) at (plain_node M.present node.now) }
    ensures { let old = plain_nodes M.present nodes.old in
        let new = plain_nodes M.present nodes.new in
        IfOk result (λ number. Put K.keys old new at node.now.key value number) }
{
    push_value(nodes, node.key, value, node.zero, node.one)
}

// Puts the value at a key that is a part of the node's.
fn put_above<K: Key, N: Copy + Drop, M: Mark>(
    nodes: &mut SharedList<Node<K, N, M>>,
    at: u32,
    node: &Node<K, N, M>,
    key: K,
    value: Marked<N, M>,
) -> Result<u32, AllocError>
    requires well { AreWell K.keys (plain_nodes M.present nodes.old) }
    requires within { at ≤ length (plain_nodes M.present nodes.old) }
    requires valid { K.keys.valid key ≡ true }
    requires present { M.present value.mark ≡ true }
    requires is_at { IsAt K.keys (plain_nodes M.present nodes.old) at (plain_node M.present node.now) }
    requires agrees { K.keys.agree (K.keys.len key) key node.now.key ≡ true }
    requires longer { K.keys.len key < K.keys.len node.now.key }
    ensures { let old = plain_nodes M.present nodes.old in
        let new = plain_nodes M.present nodes.new in
        IfOk result (λ number. Put K.keys old new at key value number) }
{
    if node.key.bit(key.len()) {
        push_value(nodes, key, value, 0, at)
    } else {
        push_value(nodes, key, value, at, 0)
    }
}

// Puts the value at a key that parts from the node's.
fn put_beside<K: Key, N: Copy + Drop, M: Mark>(
    nodes: &mut SharedList<Node<K, N, M>>,
    at: u32,
    node: &Node<K, N, M>,
    common: u32,
    key: K,
    value: Marked<N, M>,
) -> Result<u32, AllocError>
    requires well { AreWell K.keys (plain_nodes M.present nodes.old) }
    requires within { at ≤ length (plain_nodes M.present nodes.old) }
    requires valid { K.keys.valid key ≡ true }
    requires present { M.present value.mark ≡ true }
    requires is_at { IsAt K.keys (plain_nodes M.present nodes.old) at (plain_node M.present node.now) }
    requires agrees { K.keys.agree common node.now.key key ≡ true }
    requires shorter { common < K.keys.len node.now.key }
    requires short { common < K.keys.len key }
    requires differ { K.keys.symbol node.now.key common ≡ K.keys.symbol key common → ⊥ }
    ensures { let old = plain_nodes M.present nodes.old in
        let new = plain_nodes M.present nodes.new in
        IfOk result (λ number. Put K.keys old new at key value number) }
{
    let part = node.key.cut(common);
    let other = push_value(nodes, key, value, 0, 0)?;
    if key.bit(common) {
        push_branch(nodes, part, value.value, at, other)
    } else {
        push_branch(nodes, part, value.value, other, at)
    }
}

// Puts the value at the key into what the number stands for, and gives the number of that.
pub(crate) fn put<K: Key, N: Copy + Drop, M: Mark>(
    nodes: &mut SharedList<Node<K, N, M>>,
    at: u32,
    key: K,
    value: Marked<N, M>,
) -> Result<u32, AllocError>
    requires well { AreWell K.keys (plain_nodes M.present nodes.old) }
    requires within { at ≤ length (plain_nodes M.present nodes.old) }
    requires valid { K.keys.valid key ≡ true }
    requires present { M.present value.mark ≡ true }
    ensures { let old = plain_nodes M.present nodes.old in
        let new = plain_nodes M.present nodes.new in
        IfOk result (λ number. Put K.keys old new at key value number) }
{
    if at == 0 {
        return push_value(nodes, key, value, 0, 0);
    }
    let node = *node_at(nodes, at);
    let common = node.key.common(&key);
    if common < node.key.len() {
        if common < key.len() {
            put_beside(nodes, at, &node, common, key, value)
        } else {
            put_above(nodes, at, &node, key, value)
        }
    } else if common < key.len() {
        if key.bit(common) {
            let one = put(nodes, node.one, key, value)?;
            push(nodes, node.key, node.value, node.zero, one)
        } else {
            let zero = put(nodes, node.zero, key, value)?;
            push(nodes, node.key, node.value, zero, node.one)
        }
    } else {
        put_here(nodes, at, &node, value)
    }
}
