//! A node of a trie.

ghost use Rattle.std.specs.Prelude.{◌≡◌, ◌<◌, ◌≤◌, length, true, Some, None, IfOk};
ghost use Rattle.prefix_index.specs.Nodes.{AreWell, IsAt, IsNode, Pushed, subs_of};
ghost use Rattle.prefix_index.specs.PlainNode.{node_of, plain_node, plain_nodes, value_of};

use crate::key::Key;
use packed_lists::SharedList;
use std::alloc::AllocError;
use trie_keys::{Mark, Marked};

// A node: its key, its value, and the numbers of those under it, the one whose keys have a bit 0 behind the key and the one with
// a bit 1. The number 0 is that of no node. There is a value where the mark says so.
#[derive(Clone, Copy, Drop)]
pub(crate) struct Node<K, N, M> {
    pub(crate) key: K,
    pub(crate) value: Marked<N, M>,
    pub(crate) zero: u32,
    pub(crate) one: u32,
}

// Puts a node behind the others, and gives its number.
pub(crate) fn push<K: Key, N: Copy + Drop, M: Mark>(
    nodes: &mut SharedList<Node<K, N, M>>,
    key: K,
    value: Marked<N, M>,
    zero: u32,
    one: u32,
) -> Result<u32, AllocError>
    requires well { AreWell K.keys (plain_nodes M.present nodes.old) }
    requires node { let node = node_of key (value_of M.present value) zero one in
        IsNode K.keys (subs_of K.keys (plain_nodes M.present nodes.old)) node }
    ensures { let old = plain_nodes M.present nodes.old in
        let new = plain_nodes M.present nodes.new in
        let node = node_of key (value_of M.present value) zero one in
        IfOk result (λ number. Pushed K.keys old new node number) }
{
    let len = nodes.len();
    nodes.push(Node {
        key,
        value,
        zero,
        one,
    })?;
    Ok((len + 1) as u32)
}

// Puts a node with a value behind the others, and gives its number.
pub(crate) fn push_value<K: Key, N: Copy + Drop, M: Mark>(
    nodes: &mut SharedList<Node<K, N, M>>,
    key: K,
    value: Marked<N, M>,
    zero: u32,
    one: u32,
) -> Result<u32, AllocError>
    requires well { AreWell K.keys (plain_nodes M.present nodes.old) }
    requires present { M.present value.mark ≡ true }
    requires node { let node = node_of key (Some value) zero one in
        IsNode K.keys (subs_of K.keys (plain_nodes M.present nodes.old)) node }
    ensures { let old = plain_nodes M.present nodes.old in
        let new = plain_nodes M.present nodes.new in
        let node = node_of key (Some value) zero one in
        IfOk result (λ number. Pushed K.keys old new node number) }
{
    push(nodes, key, value, zero, one)
}

// Puts a node without a value behind the others, and gives its number. What stands in the place of a value means nothing.
pub(crate) fn push_branch<K: Key, N: Copy + Drop, M: Mark>(
    nodes: &mut SharedList<Node<K, N, M>>,
    key: K,
    spare: N,
    zero: u32,
    one: u32,
) -> Result<u32, AllocError>
    requires well { AreWell K.keys (plain_nodes M.present nodes.old) }
    requires node { let node = node_of key None zero one in
        IsNode K.keys (subs_of K.keys (plain_nodes M.present nodes.old)) node }
    ensures { let old = plain_nodes M.present nodes.old in
        let new = plain_nodes M.present nodes.new in
        let node = node_of key None zero one in
        IfOk result (λ number. Pushed K.keys old new node number) }
{
    let value = Marked {
        value: spare,
        mark: M::absent(),
    };
    push(nodes, key, value, zero, one)
}

// The node of the number.
pub(crate) fn node_at<K: Key, N: Copy + Drop, M: Mark>(
    nodes: &SharedList<Node<K, N, M>>,
    at: u32,
) -> &Node<K, N, M>
    requires well { AreWell K.keys (plain_nodes M.present nodes.now) }
    requires some { 0 < at }
    requires within { at ≤ length (plain_nodes M.present nodes.now) }
    ensures { let nodes = plain_nodes M.present nodes.now in
        IsAt K.keys nodes at (plain_node M.present result.now) }
{
    nodes.get(at as usize - 1)
}
