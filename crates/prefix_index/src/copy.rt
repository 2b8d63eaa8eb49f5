//! Copies of the nodes that are in use.

ghost use Rattle.std.specs.Prelude.{◌≤◌, length, IfOk};
ghost use Rattle.prefix_index.specs.Nodes.{AreWell, Copied};
ghost use Rattle.prefix_index.specs.PlainNode.{plain_nodes};

use crate::key::Key;
use crate::node::{Node, node_at, push};
use packed_lists::SharedList;
use std::alloc::AllocError;
use trie_keys::Mark;

// Copies what the number stands for, and no other nodes, and gives the number of the copy.
pub(crate) fn copy<K: Key, N: Copy + Drop, M: Mark>(
    source: &SharedList<Node<K, N, M>>,
    at: u32,
    nodes: &mut SharedList<Node<K, N, M>>,
) -> Result<u32, AllocError>
    requires source { AreWell K.keys (plain_nodes M.present source.now) }
    requires within { at ≤ length (plain_nodes M.present source.now) }
    requires well { AreWell K.keys (plain_nodes M.present nodes.old) }
    ensures { let source = plain_nodes M.present source.now in
        let old = plain_nodes M.present nodes.old in
        let new = plain_nodes M.present nodes.new in
        IfOk result (λ number. Copied K.keys source at old new number) }
{
    if at == 0 {
        return Ok(0);
    }
    let node = *node_at(source, at);
    let zero = copy(source, node.zero, nodes)?;
    let one = copy(source, node.one, nodes)?;
    push(nodes, node.key, node.value, zero, one)
}
