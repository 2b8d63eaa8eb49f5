//! Look-ups.

ghost use Rattle.std.specs.Prelude.{◌≡◌, ℕ, ◌+◌, ◌<◌, ◌≤◌, ◌&&◌, ◌||◌, length, take, IfSome};
ghost use Rattle.std.specs.BTreeMap.{is_at};
ghost use Rattle.std.specs.List.{list_any};
ghost use Rattle.std.specs.Map.{lookup};
ghost use Rattle.std.specs.Option.{option_map};
ghost use Rattle.octet_trie.specs.Fits.{acting, entry_of, fits, some_passes};
ghost use Rattle.octet_trie.specs.ListKeys.{entry_key, octet_keys};
ghost use Rattle.octet_trie.specs.Nodes.{IsNode, name_of, stands, value_of};
ghost use Rattle.octet_trie.specs.Plain.{plain};
ghost use Rattle.packed_lists.specs.Octets.{StandsWhole};
ghost use Rattle.trie_keys.specs.Scan.{last_where, option_else};

use crate::find::{common, find_kid};
use crate::node::Node;
use crate::store::Store;
use std::sync::ledger::Ledger;
use trie_keys::{Mark, Marked, NumberSet, Steps};

// An entry that was found, by where the octets of its key stand.
#[derive(Clone, Copy, Drop)]
pub(crate) struct Hit<N, M> {
    pub(crate) value: Marked<N, M>,
    pub(crate) key: u32,
    pub(crate) len: u8,
    pub(crate) wild: bool,
}

// The value at the key, among the entries for which the node stands.
pub(crate) fn get<N: Copy + Drop, M: Mark>(
    store: &Store<N, M>,
    node: &Node<N, M>,
    octets: &[u8],
    wild: bool,
) -> Option<Marked<N, M>>
    requires node { IsNode store.now (plain M.present node.now) }
    requires short { length octets.now < 255 }
    ensures { result ≡ lookup (is_at (octet_keys.order (entry_key octets.now wild)))
        (stands store.now (plain M.present node.now)).list }
{
    let same = common(store.name(node), octets, 0);
    if same < node.len as usize {
        None
    } else if same < octets.len() {
        match find_kid(store, node, octets[same]) {
            Ok(place) => {
                let kid = store.kid(node, place);
                get(store, &kid, octets, wild)
            }
            Err(_) => None,
        }
    } else {
        node.value(wild)
    }
}

// The node's own entry, if it acts, or else what was found before.
fn own_or<N: Copy + Drop, M: Mark>(
    store: &Store<N, M>,
    node: &Node<N, M>,
    wild: bool,
    found: Option<Hit<N, M>>,
) -> Option<Hit<N, M>>
    requires node { IsNode store.now (plain M.present node.now) }
    requires whole { IfSome found (λ h. StandsWhole store.now.octets h.key h.len) }
    ensures found { option_map (entry_of store.now.octets) result ≡ option_else
        (acting (λ v. M.acts v.mark)
        (entry_key (name_of store.now.octets (plain M.present node.now)) wild)
        (value_of (plain M.present node.now) wild)) (option_map (entry_of store.now.octets) found) }
    ensures whole { IfSome result (λ h. StandsWhole store.now.octets h.key h.len) }
{
    let _store = store;
    let Some(value) = node.value(wild) else {
        return found;
    };
    if value.mark.does_act() {
        Some(Hit {
            value,
            key: node.key,
            len: node.len,
            wild,
        })
    } else {
        found
    }
}

// The last entry that acts and answers the question for the octets, among those for which the node stands.
pub(crate) fn best<N: Copy + Drop, M: Mark, L: Ledger>(
    store: &Store<N, M>,
    root: &Node<N, M>,
    octets: &[u8],
    steps: &mut Steps<L>,
) -> Option<Hit<N, M>>
    requires node { IsNode store.now (plain M.present root.now) }
    ensures found { option_map (entry_of store.now.octets) result
        ≡ last_where (λ e. fits octets.now e.0 && M.acts e.1.mark)
        (stands store.now (plain M.present root.now)).list }
    ensures whole { IfSome result (λ h. StandsWhole store.now.octets h.key h.len) }
    ensures cost { steps.new + root.now.len ≤ steps.old + 255 }
{
    let mut node = *root;
    let mut from = 0;
    let mut found = None;
    loop {
        steps.tick();
        let same = common(store.name(&node), octets, from);
        if same < node.len as usize {
            return found;
        }
        if same >= octets.len() {
            return own_or(store, &node, false, found);
        }
        found = own_or(store, &node, true, found);
        let Ok(place) = find_kid(store, &node, octets[same]) else {
            return found;
        };
        node = store.kid(&node, place);
        from = same + 1;
    }
}

// The numbers of the set of the node's own entry, with those that were found before.
fn own_and<N: NumberSet, M: Mark>(node: &Node<N, M>, wild: bool, found: N) -> N
    ensures { (n : ℕ) → N.has result n
        ≡ (some_passes (λ v. N.has v.value n) (value_of (plain M.present node.now) wild)
        || N.has found n) }
{
    match node.value(wild) {
        Some(own) => own.value.union(found),
        None => found,
    }
}

// The union of the sets of all entries that answer the question for the octets, among those for which the node stands.
pub(crate) fn joined<N: NumberSet, M: Mark, L: Ledger>(
    store: &Store<N, M>,
    root: &Node<N, M>,
    octets: &[u8],
    steps: &mut Steps<L>,
) -> N
    requires node { IsNode store.now (plain M.present root.now) }
    ensures found { (n : ℕ) → N.has result n
        ≡ list_any (λ e. fits octets.now e.0 && N.has e.1.value n)
        (stands store.now (plain M.present root.now)).list }
    ensures cost { steps.new + root.now.len ≤ steps.old + 255 }
{
    let mut node = *root;
    let mut from = 0;
    let mut found = N::none();
    loop {
        steps.tick();
        let same = common(store.name(&node), octets, from);
        if same < node.len as usize {
            return found;
        }
        if same >= octets.len() {
            return own_and(&node, false, found);
        }
        found = own_and(&node, true, found);
        let Ok(place) = find_kid(store, &node, octets[same]) else {
            return found;
        };
        node = store.kid(&node, place);
        from = same + 1;
    }
}
