//! Values put at keys.

ghost use Rattle.std.specs.Prelude.{◌≡◌, ◌<◌, ◌≤◌, true, length, slice_index, take, IfOk};
ghost use Rattle.octet_trie.specs.Edits.{GapAt, GoesOn, IsBranch, IsLeaf, OneKid, Put};
ghost use Rattle.octet_trie.specs.ListKeys.{entry_key};
ghost use Rattle.octet_trie.specs.Nodes.{IsNode, kids_of, name_of};
ghost use Rattle.octet_trie.specs.Plain.{plain};

use crate::copy::rekid;
use crate::find::{common, find_kid};
use crate::node::Node;
use crate::store::Store;
use std::alloc::AllocError;
use trie_keys::{Mark, Marked};

// A node with a value at its key, and nothing under it.
fn leaf<N: Copy + Drop, M: Mark>(
    store: &mut Store<N, M>,
    octets: &[u8],
    symbol: u8,
    wild: bool,
    value: Marked<N, M>,
) -> Result<Node<N, M>, AllocError>
    requires short { length octets.now < 255 }
    requires present { M.present value.mark ≡ true }
    ensures { IfOk result
        (λ m. IsLeaf store.old store.new octets.now symbol wild value (plain M.present m)) }
{
    let key = store.write(octets)?;
    Ok(Node::leaf(key, octets.len() as u8, symbol, wild, value))
}

// Puts the value at a key that goes on behind the node's, where nothing under the node has the next octet.
fn put_leaf<N: Copy + Drop, M: Mark>(
    store: &mut Store<N, M>,
    node: &Node<N, M>,
    place: u32,
    octets: &[u8],
    wild: bool,
    value: Marked<N, M>,
) -> Result<Node<N, M>, AllocError>
    requires node { IsNode store.old (plain M.present node.now) }
    requires short { length octets.now < 255 }
    requires present { M.present value.mark ≡ true }
    requires longer { node.now.len < length octets.now }
    requires goes { GoesOn (name_of store.old.octets (plain M.present node.now)) octets.now }
    requires gap { GapAt (kids_of store.old.subs (plain M.present node.now))
        (slice_index octets.now node.now.len) place }
    ensures { IfOk result
        (λ m. Put store.old store.new (plain M.present node.now) (entry_key octets.now wild) value
        (plain M.present m)) }
{
    let leaf = leaf(store, octets, octets[node.len as usize], wild, value)?;
    rekid(store, node, place, Some(leaf), place)
}

// A node of the first octets of the node's key, over that node alone.
fn branch_at<N: Copy + Drop, M: Mark>(
    store: &mut Store<N, M>,
    node: &Node<N, M>,
    len: u8,
) -> Result<Node<N, M>, AllocError>
    requires node { IsNode store.old (plain M.present node.now) }
    requires shorter { len < node.now.len }
    ensures { IfOk result
        (λ m. IsBranch store.old store.new (plain M.present node.now) len (plain M.present m)) }
{
    let symbol = store.octet(node, len as usize);
    let kids = store.len();
    store.push(node.with_symbol(symbol))?;
    Ok(node.branch(len, kids))
}

// Puts the value at a key that begins with the node's, where the one node under that one has another octet.
fn put_apart<N: Copy + Drop, M: Mark>(
    store: &mut Store<N, M>,
    node: &Node<N, M>,
    other: u8,
    octets: &[u8],
    wild: bool,
    value: Marked<N, M>,
) -> Result<Node<N, M>, AllocError>
    requires node { IsNode store.old (plain M.present node.now) }
    requires short { length octets.now < 255 }
    requires present { M.present value.mark ≡ true }
    requires long { node.now.len ≤ length octets.now }
    requires begins { take node.now.len octets.now ≡ name_of store.old.octets
        (plain M.present node.now) }
    requires one { OneKid (kids_of store.old.subs (plain M.present node.now)) other }
    requires apart { node.now.len < length octets.now → slice_index octets.now node.now.len ≡ other
        → ⊥ }
    ensures { IfOk result
        (λ m. Put store.old store.new (plain M.present node.now) (entry_key octets.now wild) value
        (plain M.present m)) }
{
    let len = node.len as usize;
    if len >= octets.len() {
        Ok(node.with_value(wild, value))
    } else if octets[len] < other {
        put_leaf(store, node, 0, octets, wild, value)
    } else {
        put_leaf(store, node, 1, octets, wild, value)
    }
}

// Puts the value at the key, among the entries for which the node stands.
pub(crate) fn put<N: Copy + Drop, M: Mark>(
    store: &mut Store<N, M>,
    node: &Node<N, M>,
    octets: &[u8],
    wild: bool,
    value: Marked<N, M>,
) -> Result<Node<N, M>, AllocError>
    requires node { IsNode store.old (plain M.present node.now) }
    requires short { length octets.now < 255 }
    requires present { M.present value.mark ≡ true }
    ensures { IfOk result
        (λ m. Put store.old store.new (plain M.present node.now) (entry_key octets.now wild) value
        (plain M.present m)) }
{
    let same = common(store.name(node), octets, 0);
    if same < node.len as usize {
        let other = store.octet(node, same);
        let branch = branch_at(store, node, same as u8)?;
        put_apart(store, &branch, other, octets, wild, value)
    } else if same < octets.len() {
        match find_kid(store, node, octets[same]) {
            Ok(place) => {
                let kid = store.kid(node, place);
                let kid = put(store, &kid, octets, wild, value)?;
                rekid(store, node, place, Some(kid), place + 1)
            }
            Err(place) => put_leaf(store, node, place, octets, wild, value),
        }
    } else {
        Ok(node.with_value(wild, value))
    }
}
