//! Copies of nodes.

ghost use Rattle.std.specs.Prelude.{◌≡◌, ◌+◌, ◌-◌, ◌<◌, ◌≤◌, ◌++◌, length, take, drop, IfOk, IfSome};
ghost use Rattle.octet_trie.specs.Edits.{Rekid, subs_if, with_others};
ghost use Rattle.octet_trie.specs.Nodes.{IsNode, kids_of};
ghost use Rattle.octet_trie.specs.Plain.{plain};

use crate::node::Node;
use crate::store::Store;
use std::alloc::AllocError;
use trie_keys::Mark;

// Copies the nodes of a range of numbers behind all others.
fn copy<N: Copy + Drop, M: Mark>(
    store: &mut Store<N, M>,
    first: u32,
    end: u32,
) -> Result<(), AllocError>
    requires order { first ≤ end }
    requires within { end ≤ length store.old.subs }
    ensures { IfOk result
        (λ _. store.new ≡ record store.old
        { subs = store.old.subs ++ take (end - first) (drop first store.old.subs) }) }
{
    for number in first..end {
        let node = store.get(number);
        store.push(node)?;
    }
    Ok(())
}

// Puts a node, if there is one, behind all others.
fn push_some<N: Copy + Drop, M: Mark>(
    store: &mut Store<N, M>,
    node: Option<Node<N, M>>,
) -> Result<(), AllocError>
    requires { IfSome node (λ n. IsNode store.old (plain M.present n)) }
    ensures { IfOk result
        (λ _. store.new ≡ record store.old
        { subs = store.old.subs ++ subs_if M.present store.old node }) }
{
    match node {
        Some(node) => {
            store.push(node)?;
            Ok(())
        }
        None => Ok(()),
    }
}

// The same node over copies of those right under it, with another one, or none, in place of those from one place up to another.
pub(crate) fn rekid<N: Copy + Drop, M: Mark>(
    store: &mut Store<N, M>,
    node: &Node<N, M>,
    place: u32,
    kid: Option<Node<N, M>>,
    rest: u32,
) -> Result<Node<N, M>, AllocError>
    requires node { IsNode store.old (plain M.present node.now) }
    requires kid { IfSome kid (λ n. IsNode store.old (plain M.present n)) }
    requires order { place ≤ rest }
    requires within { rest ≤ node.now.count }
    ensures { IfOk result
        (λ m. Rekid store.old store.new (plain M.present node.now)
        (with_others (kids_of store.old.subs (plain M.present node.now)) place
        (subs_if M.present store.old kid) rest) (plain M.present m)) }
{
    let kids = store.len();
    copy(store, node.kids, node.kids + place)?;
    push_some(store, kid)?;
    copy(store, node.kids + rest, node.kids + u32::from(node.count))?;
    let count = store.len() - kids;
    Ok(node.with_kids(kids, count as u16))
}
