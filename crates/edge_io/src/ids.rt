// Where the IDs of questions come from, and a list of them in memory.
ghost use Rattle.std.specs.Prelude.{◌≡◌, ℕ, List, Option, Some};
ghost use Rattle.edge_io.specs.Told.{ComesNext};

use std::alloc::Global;
use std::collections::VecDeque;

/// Where the IDs of questions come from (RFC 1035, section 4.1.1).
///
/// Of a list in memory contracts know which IDs are still to come, and not of a generator of random ones.
pub trait Ids {
    /// The IDs that `next_id` is still to give, in order, where they are known. After the last come zeros.
    ghost ids: { Self → Option (List ℕ) };

    /// An ID for the next question.
    fn next_id(&mut self) -> u16
        ensures { ComesNext (ids self.old) result (ids self.new) };

    /// Another one, for another thread. What this one is still to give stays as it is; of what the other one gives
    /// nothing is said.
    fn another(&mut self) -> Self
        ensures { ids self.new ≡ ids self.old };
}

/// IDs in memory: a list of them one after another, and zeros behind the last. Another one has no list.
#[derive(Drop)]
pub struct ListIds {
    alloc: Global,
    ids: VecDeque<u16>,
}

impl ListIds {
    /// Gives these IDs, from the front.
    pub fn new(alloc: Global, ids: VecDeque<u16>) -> Self
        ensures { ⟦<ListIds as Ids>⟧.ids result ≡ Some ids.items }
    {
        ListIds { alloc, ids }
    }
}

impl Ids for ListIds {
    ghost ids = { λ list. Some list.ids.items };

    fn next_id(&mut self) -> u16 {
        match self.ids.pop_front() {
            Some(id) => id,
            None => 0,
        }
    }

    fn another(&mut self) -> Self {
        ListIds {
            alloc: self.alloc,
            ids: VecDeque::new(self.alloc),
        }
    }
}
