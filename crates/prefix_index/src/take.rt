//! Removals.

ghost use Rattle.std.specs.Prelude.{◌≡◌, ◌<◌, ◌≤◌, length, true, None, IfOk};
ghost use Rattle.prefix_index.specs.Nodes.{AreWell, IsNode, Joined, Taken, subs_of};
ghost use Rattle.prefix_index.specs.PlainNode.{node_of, plain_nodes, value_of};

use crate::key::Key;
use crate::node::{Node, node_at, push, push_branch};
use packed_lists::SharedList;
use std::alloc::AllocError;
use trie_keys::{Mark, Marked};

// Puts a node behind the others, unless it has no value and at most one kid, which then stands for it.
fn join<K: Key, N: Copy + Drop, M: Mark>(
    nodes: &mut SharedList<Node<K, N, M>>,
    key: K,
    value: Marked<N, M>,
    zero: u32,
    one: u32,
) -> Result<u32, AllocError>
    requires well { AreWell K.keys (plain_nodes M.present nodes.old) }
    requires node { let node = node_of key (value_of M.present value) zero one in
        IsNode K.keys (subs_of K.keys (plain_nodes M.present nodes.old)) node }
    ensures { let old = plain_nodes M.present nodes.old in
        let new = plain_nodes M.present nodes.new in
        let node = node_of key (value_of M.present value) zero one in
        IfOk result (λ number. Joined K.keys old new node number) }
{
    if value.mark.is_present() {
        push(nodes, key, value, zero, one)
    } else {
        join_kids(nodes, key, value.value, zero, one)
    }
}

// The same for a node without a value. What stands in the place of a value means nothing.
fn join_kids<K: Key, N: Copy + Drop, M: Mark>(
    nodes: &mut SharedList<Node<K, N, M>>,
    key: K,
    spare: N,
    zero: u32,
    one: u32,
) -> Result<u32, AllocError>
    requires well { AreWell K.keys (plain_nodes M.present nodes.old) }
    requires node { let node = node_of key None zero one in
        IsNode K.keys (subs_of K.keys (plain_nodes M.present nodes.old)) node }
    ensures { let old = plain_nodes M.present nodes.old in
        let new = plain_nodes M.present nodes.new in
        let node = node_of key None zero one in
        IfOk result (λ number. Joined K.keys old new node number) }
{
    if zero == 0 {
        Ok(one)
    } else if one == 0 {
        Ok(zero)
    } else {
        push_branch(nodes, key, spare, zero, one)
    }
}

// Takes the key out of what the number stands for, and gives the number of what is left.
pub(crate) fn take<K: Key, N: Copy + Drop, M: Mark>(
    nodes: &mut SharedList<Node<K, N, M>>,
    at: u32,
    key: &K,
) -> Result<u32, AllocError>
    requires well { AreWell K.keys (plain_nodes M.present nodes.old) }
    requires within { at ≤ length (plain_nodes M.present nodes.old) }
    requires valid { K.keys.valid key.now ≡ true }
    ensures { let old = plain_nodes M.present nodes.old in
        let new = plain_nodes M.present nodes.new in
        IfOk result (λ number. Taken K.keys old new at key.now number) }
{
    if at == 0 {
        return Ok(0);
    }
    let node = *node_at(nodes, at);
    let common = node.key.common(key);
    if common < node.key.len() {
        Ok(at)
    } else if common < key.len() {
        if key.bit(common) {
            let one = take(nodes, node.one, key)?;
            join(nodes, node.key, node.value, node.zero, one)
        } else {
            let zero = take(nodes, node.zero, key)?;
            join(nodes, node.key, node.value, zero, node.one)
        }
    } else {
        join_kids(nodes, node.key, node.value.value, node.zero, node.one)
    }
}
