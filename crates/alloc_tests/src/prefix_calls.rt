//! Calls of tries of prefixes.

use crate::sheet::Sheet;
use crate::tried::{Tried, made_twice};
use crate::try_error::TryError;
use ip_prefix::{Addr, Prefix};
use prefix_index::PrefixTrie;
use std::alloc::{AllocError, Global};
use trie_keys::Marked;

/// The names of these calls.
pub const NAMES: &str = "prefix_index::PrefixTrie::of\n\
    prefix_index::PrefixTrie::inserted\n\
    prefix_index::PrefixTrie::removed\n\
    prefix_index::PrefixTrie::with\n\
    prefix_index::PrefixTrie::without\n\
    prefix_index::PrefixTrie::rebuilt\n\
    prefix_index::PrefixTrie::share\n\
    prefix_index::PrefixTrie::entries\n";

/// A trie of numbers.
type Trie = PrefixTrie<u32, bool>;

const VALUE: Marked<u32, bool> = Marked {
    value: 7,
    mark: true,
};

// Of 192.0.2.0, an address of its network of 24 bits, 192.0.3.0, and 2001:db8::.
const NEAR: Addr = Addr::V4(0xc000_0200);

const INSIDE: Addr = Addr::V4(0xc000_0209);

const BESIDE: Addr = Addr::V4(0xc000_0300);

const LONG: Addr = Addr::V6(0x2001_0db8_0000_0000_0000_0000_0000_0000);

// Each entry of a trie, with its value.
fn show_trie(alloc: Global, sheet: &mut Sheet, trie: &Trie) -> Result<(), TryError> {
    for entry in &trie.entries(alloc)? {
        sheet.show(&entry.0);
        sheet.show(&entry.1.value);
        sheet.show(&entry.1.mark);
    }
    Ok(())
}

fn made(alloc: Global, call: &str, trie: &Trie) -> Result<Trie, AllocError> {
    let near = Prefix::of(NEAR, 24);
    let beside = Prefix::of(BESIDE, 24);
    let long = Prefix::of(LONG, 32);
    match call {
        "prefix_index::PrefixTrie::of" => {
            Trie::of(alloc, &[(near, VALUE), (beside, VALUE), (long, VALUE)])
        }
        "prefix_index::PrefixTrie::inserted" => trie.share()?.inserted(&beside, VALUE),
        "prefix_index::PrefixTrie::removed" => trie.share()?.removed(&near),
        "prefix_index::PrefixTrie::with" => trie.with(&beside, VALUE),
        "prefix_index::PrefixTrie::without" => trie.without(&long),
        "prefix_index::PrefixTrie::rebuilt" => trie.rebuilt(),
        _ => trie.share(),
    }
}

fn show_made(
    alloc: Global,
    sheet: &mut Sheet,
    made: Result<Trie, AllocError>,
) -> Result<(), TryError> {
    let trie = made?;
    show_trie(alloc, sheet, &trie)
}

impl Tried for PrefixTrie<u32, bool> {
    fn once(&mut self, alloc: Global, sheet: &mut Sheet, call: &str) -> Result<(), TryError> {
        if call == "prefix_index::PrefixTrie::entries" {
            return show_trie(alloc, sheet, self);
        }
        show_made(alloc, sheet, made(alloc, call, self))
    }
}

/// Does the call of this name twice.
pub fn twice(alloc: Global, sheet: &mut Sheet, call: &str) -> Result<(), TryError> {
    let trie = Trie::empty(alloc);
    let trie = trie.inserted(&Prefix::of(NEAR, 24), VALUE)?;
    let trie = trie.inserted(&Prefix::of(INSIDE, 32), VALUE)?;
    made_twice(
        alloc,
        sheet,
        call,
        trie.inserted(&Prefix::of(LONG, 32), VALUE),
    )
}
