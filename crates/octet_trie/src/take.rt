//! Keys taken out.

ghost use Rattle.std.specs.Prelude.{◌≡◌, ◌<◌, ◌≤◌, length, IfOk};
ghost use Rattle.octet_trie.specs.Edits.{IsLifted, Taken};
ghost use Rattle.octet_trie.specs.ListKeys.{entry_key};
ghost use Rattle.octet_trie.specs.Nodes.{IsNode};
ghost use Rattle.octet_trie.specs.Plain.{plain};

use crate::copy::rekid;
use crate::find::{common, find_kid};
use crate::node::Node;
use crate::store::Store;
use std::alloc::AllocError;
use trie_keys::Mark;

// What stands in place of a node: the one under it where it has no values and one node under it, and nothing where it has no
// entries.
fn lift<N: Copy + Drop, M: Mark>(store: &Store<N, M>, node: &Node<N, M>) -> Option<Node<N, M>>
    requires { IsNode store.now (plain M.present node.now) }
    ensures { IsLifted M.present store.now (plain M.present node.now) result }
{
    if node.exact_mark.is_present() || node.wild_mark.is_present() || node.count > 1 {
        return Some(*node);
    }
    if node.count == 0 {
        return None;
    }
    let kid = store.kid(node, 0);
    Some(kid.with_symbol(node.symbol))
}

// Takes the key out of the entries for which the node stands.
pub(crate) fn take<N: Copy + Drop, M: Mark>(
    store: &mut Store<N, M>,
    node: &Node<N, M>,
    octets: &[u8],
    wild: bool,
) -> Result<Node<N, M>, AllocError>
    requires node { IsNode store.old (plain M.present node.now) }
    requires short { length octets.now < 255 }
    ensures { IfOk result
        (λ m. Taken store.old store.new (plain M.present node.now) (entry_key octets.now wild)
        (plain M.present m)) }
{
    let same = common(store.name(node), octets, 0);
    if same < node.len as usize {
        Ok(*node)
    } else if same < octets.len() {
        match find_kid(store, node, octets[same]) {
            Ok(place) => {
                let kid = store.kid(node, place);
                let kid = take(store, &kid, octets, wild)?;
                let kid = lift(store, &kid);
                rekid(store, node, place, kid, place + 1)
            }
            Err(_) => Ok(*node),
        }
    } else {
        Ok(node.without_value(wild))
    }
}
