//! Nodes made of entries in the order of their keys.

ghost use Rattle.std.specs.Prelude.{◌≡◌, ◌+◌, ◌<◌, ◌≤◌, ◌++◌, [], true, length, map, IfOk, IfSome};
ghost use Rattle.octet_trie.specs.ListKeys.{entry_key};
ghost use Rattle.octet_trie.specs.Listed.{AllBeginWith, AreListed, ArePresent, entries_from};
ghost use Rattle.octet_trie.specs.Made.{AreKidsMade, IsKidMade, IsMade, some_count};
ghost use Rattle.octet_trie.specs.Plain.{plain};
ghost use Rattle.octet_trie.specs.Trie.{found_entry};
ghost use Rattle.trie_keys.specs.Scan.{own};

use crate::find::common;
use crate::node::Node;
use crate::order::last_with;
use crate::rebuild::{place_key, push_all};
use crate::store::Store;
use crate::trie::OctetFound;
use std::alloc::{AllocError, Global};
use trie_keys::{Mark, Marked};

// A node right under another, and the number of the first entry behind its own.
#[derive(Drop)]
struct Kid<N, M> {
    node: Node<N, M>,
    end: usize,
}

// The value of the entry of the number, if it is that of the exact or of the wild key of these octets.
fn own_value<N: Copy + Drop, M: Mark>(
    entries: &[OctetFound<'_, N, M>],
    number: usize,
    name: &[u8],
    wild: bool,
) -> Option<Marked<N, M>>
    requires begin { AllBeginWith name.now entries.now }
    requires present { ArePresent M.present entries.now }
    ensures present { IfSome result (λ v. M.present v.mark ≡ true) }
    ensures parts { entries_from number entries.now ≡ own (entry_key name.now wild) result
        ++ entries_from (number + some_count result) entries.now }
{
    if number >= entries.len() {
        return None;
    }
    let entry = &entries[number];
    if entry.key.len() == name.len() && entry.wild == wild {
        Some(entry.value)
    } else {
        None
    }
}

// How many values there are.
fn count<N: Copy + Drop, M: Mark>(value: &Option<Marked<N, M>>) -> usize
    ensures { result ≡ some_count value.now }
{
    match value {
        Some(_) => 1,
        None => 0,
    }
}

// Makes the node of the entry of the number and of those behind it that go on with the same octet behind the name.
#[cycle(build)]
fn build_kid<N: Copy + Drop, M: Mark>(
    alloc: Global,
    store: &mut Store<N, M>,
    name: &[u8],
    low: u32,
    entries: &[OctetFound<'_, N, M>],
    number: usize,
) -> Result<Option<Kid<N, M>>, AllocError>
    requires within { number < length entries.now }
    requires listed { AreListed M.present entries.now }
    requires begin { AllBeginWith name.now entries.now }
    requires short { length name.now < 255 }
    ensures further { IfOk result (λ made. IfSome made (λ kid. number < kid.end)) }
    ensures made { let these = entries_from number entries.now in
        IfOk result (λ made. IfSome made (λ kid. IsKidMade store.old store.new name.now low these
        (entries_from kid.end entries.now) (plain M.present kid.node))) }
{
    let first = entries[number].key;
    if first.len() <= name.len() {
        return Ok(None);
    }
    let symbol = first[name.len()];
    if u32::from(symbol) < low {
        return Ok(None);
    }
    let end = last_with(entries, number, 1, name.len(), symbol) + 1;
    let top = &first[..name.len() + 1];
    match build(alloc, store, top, symbol, &entries[number..end])? {
        Some(node) => Ok(Some(Kid { node, end })),
        None => Ok(None),
    }
}

// Makes the nodes of the entries from a number on, side by side under the name.
#[cycle(build)]
fn build_kids<N: Copy + Drop, M: Mark>(
    alloc: Global,
    store: &mut Store<N, M>,
    name: &[u8],
    entries: &[OctetFound<'_, N, M>],
    number: usize,
) -> Result<Option<Vec<Node<N, M>>>, AllocError>
    requires listed { AreListed M.present entries.now }
    requires begin { AllBeginWith name.now entries.now }
    requires short { length name.now < 255 }
    ensures { let these = entries_from number entries.now in
        IfOk result (λ made. IfSome made
        (λ kids. AreKidsMade M.present store.old store.new name.now these [] kids.items)) }
{
    let mut kids = Vec::new(alloc);
    let mut low = 0;
    let mut next = number;
    while next < entries.len() {
        let Some(kid) = build_kid(alloc, store, name, low, entries, next)? else {
            return Ok(None);
        };
        kids.push(kid.node)?;
        low = u32::from(kid.node.symbol) + 1;
        next = kid.end;
    }
    Ok(Some(kids))
}

// Makes the node of all these entries, whose keys begin with some octets, and stores those under it. It is `None` where the
// entries aren't as they are where they stand in order; then what is stored is to be given up. What the first and the last key
// have in common all keys have, so that of the others no octet is compared again. Each call for nodes under this one goes on
// behind at least one octet more: there are at most 255 of them inside each other.
#[cycle(build)]
pub(crate) fn build<N: Copy + Drop, M: Mark>(
    alloc: Global,
    store: &mut Store<N, M>,
    top: &[u8],
    symbol: u8,
    entries: &[OctetFound<'_, N, M>],
) -> Result<Option<Node<N, M>>, AllocError>
    requires some { 0 < length entries.now }
    requires listed { AreListed M.present entries.now }
    requires begin { AllBeginWith top.now entries.now }
    ensures { let these = map found_entry entries.now in
        IfOk result (λ made. IfSome made
        (λ m. IsMade store.old store.new top.now symbol these (plain M.present m))) }
{
    let first = &entries[0];
    let last = &entries[entries.len() - 1];
    let len = common(first.key, last.key, top.len());
    let name = &first.key[..len];
    let exact = own_value(entries, 0, name, false);
    let behind = count(&exact);
    let wild = own_value(entries, behind, name, true);
    let Some(kids) = build_kids(alloc, store, name, entries, behind + count(&wild))? else {
        return Ok(None);
    };
    let key = place_key(store, name, &kids)?;
    let node = Node::bare(key, len as u8, symbol, first.value.value)
        .with_own(false, exact)
        .with_own(true, wild);
    let place = store.len();
    push_all(store, &kids)?;
    Ok(Some(node.with_kids(place, kids.len() as u16)))
}
