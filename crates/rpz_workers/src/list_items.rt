//! Items in memory.

ghost use Rattle.std.specs.Prelude.{◌≡◌, Some};

use crate::item::{Item, Items};
use edge_io::{Sink, Source};
use policy_publish::StoreName;
use std::collections::VecDeque;

/// Items in memory: a list of them one after another, and `Stop` behind the last.
#[derive(Drop)]
pub struct ListItems<N: StoreName, S: Source + Drop, K: Sink + Drop> {
    items: VecDeque<Item<N, S, K>>,
}

impl<N: StoreName, S: Source + Drop, K: Sink + Drop> ListItems<N, S, K> {
    /// Gives these items, from the front.
    pub fn new(items: VecDeque<Item<N, S, K>>) -> Self
        ensures { ⟦<ListItems<N, S, K> as Items<N, S, K>>⟧.coming result ≡ Some items.items }
    {
        ListItems { items }
    }
}

impl<N: StoreName, S: Source + Drop, K: Sink + Drop> Items<N, S, K> for ListItems<N, S, K> {
    ghost coming = { λ list. Some list.items.items };

    fn next(&mut self) -> Item<N, S, K> {
        match self.items.pop_front() {
            Some(item) => item,
            None => Item::Stop,
        }
    }
}
