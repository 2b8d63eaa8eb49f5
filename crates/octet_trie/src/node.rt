//! A node of a trie.

ghost use Rattle.std.specs.Prelude.{◌≡◌, true, None, IfSome};
ghost use Rattle.octet_trie.specs.Made.{with_own};
ghost use Rattle.octet_trie.specs.Nodes.{branch_node, leaf_node, root_node, value_of, with_value, without_value};
ghost use Rattle.octet_trie.specs.Plain.{plain};

use trie_keys::{Mark, Marked};

/// A node. It takes 24 octets where a value takes four and a mark one.
#[derive(Clone, Copy, Drop)]
pub(crate) struct Node<N, M> {
    // where the octets of its key begin
    pub(crate) key: u32,
    // the number of the first node under it
    pub(crate) kids: u32,
    pub(crate) exact: N,
    pub(crate) wild: N,
    // how many nodes are right under it, side by side, with rising symbols
    pub(crate) count: u16,
    // how many octets its key has
    pub(crate) len: u8,
    // the octet behind the key of the node above
    pub(crate) symbol: u8,
    pub(crate) exact_mark: M,
    pub(crate) wild_mark: M,
}

const _: () = prove!(size_of::<Node<u32, bool>>() == 24);

impl<N: Copy + Drop, M: Mark> Node<N, M> {
    // A node with no key and no values.
    pub(crate) fn root() -> Self
    where
        N: Default,
        ensures { plain M.present result ≡ root_node }
    {
        Node {
            key: 0,
            kids: 0,
            exact: N::default(),
            wild: N::default(),
            count: 0,
            len: 0,
            symbol: 0,
            exact_mark: M::absent(),
            wild_mark: M::absent(),
        }
    }

    // A node with one value and nothing under it.
    pub(crate) fn leaf(key: u32, len: u8, symbol: u8, wild: bool, value: Marked<N, M>) -> Self
        requires { M.present value.mark ≡ true }
        ensures { plain M.present result ≡ leaf_node key len symbol wild value }
    {
        let exact_mark = if wild { M::absent() } else { value.mark };
        let wild_mark = if wild { value.mark } else { M::absent() };
        Node {
            key,
            kids: 0,
            exact: value.value,
            wild: value.value,
            count: 0,
            len,
            symbol,
            exact_mark,
            wild_mark,
        }
    }

    // A node with no values, and with nothing under it.
    pub(crate) fn bare(key: u32, len: u8, symbol: u8, spare: N) -> Self
        ensures { plain M.present result ≡ record {
          key = key;
          len = len;
          symbol = symbol;
          kids = 0;
          count = 0;
          exact = None;
          wild = None;
        } }
    {
        Node {
            key,
            kids: 0,
            exact: spare,
            wild: spare,
            count: 0,
            len,
            symbol,
            exact_mark: M::absent(),
            wild_mark: M::absent(),
        }
    }

    // The value of the exact or of the wild key.
    pub(crate) fn value(&self, wild: bool) -> Option<Marked<N, M>>
        ensures { result ≡ value_of (plain M.present self.now) wild }
    {
        let value = if wild { self.wild } else { self.exact };
        let mark = if wild {
            self.wild_mark
        } else {
            self.exact_mark
        };
        if mark.is_present() {
            Some(Marked { value, mark })
        } else {
            None
        }
    }

    // The same node with a value.
    pub(crate) fn with_value(&self, wild: bool, value: Marked<N, M>) -> Self
        requires { M.present value.mark ≡ true }
        ensures { plain M.present result ≡ with_value (plain M.present self.now) wild value }
    {
        let mut node = *self;
        if wild {
            node.wild = value.value;
            node.wild_mark = value.mark;
        } else {
            node.exact = value.value;
            node.exact_mark = value.mark;
        }
        node
    }

    // The same node with a value, if there is one.
    pub(crate) fn with_own(&self, wild: bool, value: Option<Marked<N, M>>) -> Self
        requires { IfSome value (λ v. M.present v.mark ≡ true) }
        ensures { plain M.present result ≡ with_own (plain M.present self.now) wild value }
    {
        match value {
            Some(value) => self.with_value(wild, value),
            None => *self,
        }
    }

    // The same node without a value.
    pub(crate) fn without_value(&self, wild: bool) -> Self
        ensures { plain M.present result ≡ without_value (plain M.present self.now) wild }
    {
        let mut node = *self;
        if wild {
            node.wild_mark = M::absent();
        } else {
            node.exact_mark = M::absent();
        }
        node
    }

    // The same node, under one whose key has another length.
    pub(crate) fn with_symbol(&self, symbol: u8) -> Self
        ensures { plain M.present result ≡ record (plain M.present self.now) { symbol = symbol } }
    {
        let mut node = *self;
        node.symbol = symbol;
        node
    }

    // The same node, over others.
    pub(crate) fn with_kids(&self, kids: u32, count: u16) -> Self
        ensures { plain M.present result ≡ record (plain M.present self.now)
            { kids = kids; count = count } }
    {
        let mut node = *self;
        node.kids = kids;
        node.count = count;
        node
    }

    // The same node over others, where the octets of its key begin elsewhere.
    pub(crate) fn moved(&self, key: u32, kids: u32) -> Self
        ensures { plain M.present result ≡ record (plain M.present self.now)
            { key = key; kids = kids } }
    {
        let mut node = *self;
        node.key = key;
        node.kids = kids;
        node
    }

    // A node of the first octets of the key, over another and without values.
    pub(crate) fn branch(&self, len: u8, kids: u32) -> Self
        ensures { plain M.present result ≡ branch_node (plain M.present self.now) len kids }
    {
        let mut node = *self;
        node.len = len;
        node.kids = kids;
        node.count = 1;
        node.exact_mark = M::absent();
        node.wild_mark = M::absent();
        node
    }
}
