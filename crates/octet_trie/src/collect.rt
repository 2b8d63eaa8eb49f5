//! All entries.

ghost use Rattle.std.specs.Prelude.{◌≡◌, ◌++◌, map, IfOk};
ghost use Rattle.octet_trie.specs.ListKeys.{entry_key};
ghost use Rattle.octet_trie.specs.Nodes.{IsNode, name_of, stands, value_of};
ghost use Rattle.octet_trie.specs.Plain.{plain};
ghost use Rattle.octet_trie.specs.Trie.{found_entry};
ghost use Rattle.trie_keys.specs.Scan.{own};

use crate::node::Node;
use crate::store::Store;
use crate::trie::OctetFound;
use std::alloc::AllocError;
use trie_keys::Mark;

// Puts the exact or the wild entry of the node itself at the end.
fn collect_own<'a, N: Copy + Drop, M: Mark>(
    store: &'a Store<N, M>,
    node: &Node<N, M>,
    wild: bool,
    out: &mut Vec<OctetFound<'a, N, M>>,
) -> Result<(), AllocError>
    requires { IsNode store.now (plain M.present node.now) }
    ensures { IfOk result
        (λ _. map found_entry out.new.items ≡ map found_entry out.old.items ++ own
        (entry_key (name_of store.now.octets (plain M.present node.now)) wild)
        (value_of (plain M.present node.now) wild)) }
{
    match node.value(wild) {
        Some(value) => {
            out.push(OctetFound {
                key: store.name(node),
                wild,
                value,
            })?;
            Ok(())
        }
        None => Ok(()),
    }
}

// Puts the entries for which the node stands at the end.
pub(crate) fn collect<'a, N: Copy + Drop, M: Mark>(
    store: &'a Store<N, M>,
    node: &Node<N, M>,
    out: &mut Vec<OctetFound<'a, N, M>>,
) -> Result<(), AllocError>
    requires { IsNode store.now (plain M.present node.now) }
    ensures { IfOk result
        (λ _. map found_entry out.new.items ≡ map found_entry out.old.items ++
        (stands store.now (plain M.present node.now)).list) }
{
    collect_own(store, node, false, out)?;
    collect_own(store, node, true, out)?;
    for place in 0..u32::from(node.count) {
        let kid = store.kid(node, place);
        collect(store, &kid, out)?;
    }
    Ok(())
}
