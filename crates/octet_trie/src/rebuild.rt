//! Copies of the nodes that are in use.

ghost use Rattle.std.specs.Prelude.{◌≡◌, ◌<◌, ◌++◌, length, IfOk};
ghost use Rattle.octet_trie.specs.Copies.{AreAll, IsCopied, IsKeyAt, stands_all};
ghost use Rattle.octet_trie.specs.ListKeys.{symbols};
ghost use Rattle.octet_trie.specs.Nodes.{AreKids, IsNode};
ghost use Rattle.octet_trie.specs.Plain.{plain};

use crate::node::Node;
use crate::store::Store;
use std::alloc::{AllocError, Global};
use trie_keys::Mark;

// Puts some nodes behind all others, side by side.
pub(crate) fn push_all<N: Copy + Drop, M: Mark>(
    into: &mut Store<N, M>,
    nodes: &Vec<Node<N, M>>,
) -> Result<(), AllocError>
    requires { AreAll M.present into.old nodes.now.items }
    ensures { IfOk result
        (λ _. into.new ≡ record into.old
        { subs = into.old.subs ++ stands_all M.present into.old nodes.now.items }) }
{
    for node in nodes {
        into.push(*node)?;
    }
    Ok(())
}

// A place for the octets of a key: where those of a node under it are, or a new one.
pub(crate) fn place_key<N: Copy + Drop, M: Mark>(
    into: &mut Store<N, M>,
    name: &[u8],
    kids: &Vec<Node<N, M>>,
) -> Result<u32, AllocError>
    requires short { length name.now < 255 }
    requires nodes { AreAll M.present into.old kids.now.items }
    requires under { AreKids (symbols name.now) 0 (stands_all M.present into.old kids.now.items) }
    ensures { IfOk result
        (λ place. IsKeyAt into.old into.new name.now (length name.now) place) }
{
    if kids.is_empty() {
        let place = into.write(name)?;
        Ok(place)
    } else {
        Ok(kids[0].key)
    }
}

// Copies all for which the node stands, but the node itself, which is given.
pub(crate) fn copy_node<N: Copy + Drop, M: Mark>(
    alloc: Global,
    source: &Store<N, M>,
    node: &Node<N, M>,
    into: &mut Store<N, M>,
) -> Result<Node<N, M>, AllocError>
    requires { IsNode source.now (plain M.present node.now) }
    ensures { IfOk result
        (λ m. IsCopied source.now (plain M.present node.now) into.old into.new
        (plain M.present m)) }
{
    let mut kids = Vec::new(alloc);
    for place in 0..u32::from(node.count) {
        let kid = source.kid(node, place);
        let kid = copy_node(alloc, source, &kid, into)?;
        kids.push(kid)?;
    }
    let key = place_key(into, source.name(node), &kids)?;
    let first = into.len();
    push_all(into, &kids)?;
    Ok(node.moved(key, first))
}
