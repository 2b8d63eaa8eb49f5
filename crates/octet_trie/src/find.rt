//! Which of the nodes side by side under another has a symbol.

ghost use Rattle.std.specs.Prelude.{◌≡◌, ◌+◌, ◌<◌, ◌≤◌, length, take, drop, MatchResult};
ghost use Rattle.std.specs.List.{AllByRecursion};
ghost use Rattle.octet_trie.specs.Edits.{GapAt, IsCommon, KidAt};
ghost use Rattle.octet_trie.specs.Nodes.{IsNode, kids_of};
ghost use Rattle.octet_trie.specs.Plain.{plain};

use crate::node::Node;
use crate::store::Store;
use trie_keys::Mark;

// How many first octets two keys have in common, where these are some at least.
pub(crate) fn common(a: &[u8], b: &[u8], from: usize) -> usize
    requires here { from ≤ length a.now }
    requires there { from ≤ length b.now }
    requires same { take from a.now ≡ take from b.now }
    ensures { IsCommon a.now b.now result }
{
    let end = a.len().min(b.len());
    for i in from..end {
        if a[i] != b[i] {
            return i;
        }
    }
    end
}

// The place of the node with the symbol among those right under the node, or else the place at which it would stand.
pub(crate) fn find_kid<N: Copy + Drop, M: Mark>(
    store: &Store<N, M>,
    node: &Node<N, M>,
    symbol: u8,
) -> Result<u32, u32>
    requires { IsNode store.now (plain M.present node.now) }
    ensures { MatchResult result
        (λ place. KidAt (kids_of store.now.subs (plain M.present node.now)) symbol place)
        (λ place. GapAt (kids_of store.now.subs (plain M.present node.now)) symbol place) }
{
    let mut low = 0;
    let mut high = u32::from(node.count);
    while low < high {
        let middle = low + (high - low) / 2;
        let kid = store.kid(node, middle);
        if kid.symbol < symbol {
            low = middle + 1;
        } else if kid.symbol > symbol {
            high = middle;
        } else {
            return Ok(middle);
        }
    }
    Err(low)
}
