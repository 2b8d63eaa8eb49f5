//! The octets of keys, and the nodes.

ghost use Rattle.std.specs.Prelude.{◌≡◌, ◌+◌, ◌<◌, ◌≤◌, ◌^◌, [], ◌∷◌, ◌++◌, length, slice_index, take, drop, IfOk};
ghost use Rattle.octet_trie.specs.Nodes.{IsAt, IsNode, name_of, stands};
ghost use Rattle.octet_trie.specs.Plain.{plain};
ghost use Rattle.octet_trie.specs.Written.{IsWritten};
ghost use Rattle.packed_lists.specs.Octets.{StandsWhole};

use crate::node::Node;
use packed_lists::{Share, SharedList, SharedOctets};
use std::alloc::{AllocError, Global};
use std::marker::Model;
use trie_keys::{Mark, Marked};

/// The octets of keys, and the nodes, each behind those under it. Contracts see the octets, and for what the number of each node
/// stands.
#[derive(Drop)]
pub(crate) struct Store<N, M: Mark> {
    octets: SharedOctets,
    nodes: SharedList<Node<N, M>>,
}

impl<N, M: Mark> Model for Store<N, M> {
    ghost use Rattle.octet_trie.specs.Nodes.{Stored};
    ghost use Rattle.octet_trie.specs.Written.{AreStored, stored};
    ghost use Rattle.trie_keys.specs.declared.marked.Marked.{Marked};

    ghost Value = { Stored (Marked N M) };

    ghost view = { λ s. stored M.present s.octets s.nodes };

    ghost invariant = { λ s. AreStored M.present s.octets s.nodes };
}

impl<N: Copy + Drop, M: Mark> Store<N, M> {
    // No octets and no nodes. It takes no memory.
    pub(crate) fn new(alloc: Global) -> Self
        ensures { result ≡ record { octets = []; subs = [] } }
    {
        Store {
            octets: SharedOctets::new(alloc),
            nodes: SharedList::new(alloc),
        }
    }

    // How many nodes.
    pub(crate) fn len(&self) -> u32
        ensures len { result ≡ length self.now.subs }
    {
        self.nodes.len() as u32
    }

    // The same once more.
    pub(crate) fn share(&self) -> Result<Self, AllocError>
        ensures { IfOk result (λ store. store ≡ self.now) }
    {
        Ok(Store {
            octets: self.octets.share()?,
            nodes: self.nodes.share()?,
        })
    }

    // The octets of the node's key.
    pub(crate) fn name(&self, node: &Node<N, M>) -> &[u8]
        requires { IsNode self.now (plain M.present node.now) }
        ensures { result.now ≡ name_of self.now.octets (plain M.present node.now) }
    {
        self.octets.get(node.key, node.len as usize)
    }

    // So many octets from the place on.
    pub(crate) fn read(&self, place: u32, len: u8) -> &[u8]
        requires { StandsWhole self.now.octets place len }
        ensures { result.now ≡ take len (drop place self.now.octets) }
    {
        self.octets.get(place, len as usize)
    }

    // An octet of the node's key.
    pub(crate) fn octet(&self, node: &Node<N, M>, place: usize) -> u8
        requires node { IsNode self.now (plain M.present node.now) }
        requires within { place < node.now.len }
        ensures { result ≡ slice_index (name_of self.now.octets (plain M.present node.now)) place }
    {
        self.name(node)[place]
    }

    // The node of the number.
    pub(crate) fn get(&self, number: u32) -> Node<N, M>
        requires { number < length self.now.subs }
        ensures { IsAt self.now number (plain M.present result) }
    {
        *self.nodes.get(number as usize)
    }

    // The node at the place among those right under a node.
    pub(crate) fn kid(&self, node: &Node<N, M>, place: u32) -> Node<N, M>
        requires node { IsNode self.now (plain M.present node.now) }
        requires within { place < node.now.count }
        ensures { IsAt self.now (node.now.kids + place) (plain M.present result) }
    {
        let _len = self.len();
        self.get(node.kids + place)
    }

    // Puts the octets of a key behind the others, and gives their place.
    pub(crate) fn write(&mut self, octets: &[u8]) -> Result<u32, AllocError>
        requires { length octets.now < 255 }
        ensures { IfOk result (λ place. IsWritten self.old self.new octets.now place) }
    {
        let place = self.octets.push(octets)?;
        Ok(place)
    }

    // Puts a node behind the others.
    pub(crate) fn push(&mut self, node: Node<N, M>) -> Result<(), AllocError>
        requires { IsNode self.old (plain M.present node) }
        ensures { IfOk result
            (λ _. self.new ≡ record self.old
            { subs = self.old.subs ++ stands self.old (plain M.present node) ∷ [] }) }
    {
        self.nodes.push(node)?;
        Ok(())
    }
}
