//! Calls of tries of octets.

use crate::sheet::Sheet;
use crate::tried::{Tried, made_twice};
use crate::try_error::TryError;
use octet_trie::{OctetFound, OctetTrie};
use std::alloc::{AllocError, Global};
use trie_keys::Marked;

/// The names of these calls.
pub const NAMES: &str = "octet_trie::OctetTrie::of\n\
    octet_trie::OctetTrie::inserted\n\
    octet_trie::OctetTrie::removed\n\
    octet_trie::OctetTrie::with\n\
    octet_trie::OctetTrie::without\n\
    octet_trie::OctetTrie::rebuilt\n\
    octet_trie::OctetTrie::share\n\
    octet_trie::OctetTrie::entries\n";

/// A trie of numbers.
type Trie = OctetTrie<u32, bool>;

const VALUE: Marked<u32, bool> = Marked {
    value: 7,
    mark: true,
};

// Each entry of a trie, with its value.
fn show_trie(sheet: &mut Sheet, trie: &Trie) -> Result<(), TryError> {
    for entry in &trie.entries()? {
        sheet.show(&entry.key);
        sheet.show(&entry.wild);
        sheet.show(&entry.value.value);
        sheet.show(&entry.value.mark);
    }
    Ok(())
}

fn listed(alloc: Global) -> Result<Trie, AllocError> {
    Trie::of(
        alloc,
        &[
            OctetFound {
                key: b"\x07example\x03bad",
                wild: false,
                value: VALUE,
            },
            OctetFound {
                key: b"\x07example\x03bat",
                wild: true,
                value: VALUE,
            },
            OctetFound {
                key: b"\x04test",
                wild: false,
                value: VALUE,
            },
        ],
    )
}

fn made(alloc: Global, call: &str, trie: &Trie) -> Result<Trie, AllocError> {
    match call {
        "octet_trie::OctetTrie::of" => listed(alloc),
        "octet_trie::OctetTrie::inserted" => {
            trie.share()?.inserted(b"\x07example\x03bag", false, VALUE)
        }
        "octet_trie::OctetTrie::removed" => trie.share()?.removed(b"\x07example\x03bad", false),
        "octet_trie::OctetTrie::with" => trie.with(b"\x07example\x03bag", true, VALUE),
        "octet_trie::OctetTrie::without" => trie.without(b"\x07example\x03bad", true),
        "octet_trie::OctetTrie::rebuilt" => trie.rebuilt(),
        _ => trie.share(),
    }
}

fn show_made(sheet: &mut Sheet, made: Result<Trie, AllocError>) -> Result<(), TryError> {
    let trie = made?;
    show_trie(sheet, &trie)
}

impl Tried for OctetTrie<u32, bool> {
    fn once(&mut self, alloc: Global, sheet: &mut Sheet, call: &str) -> Result<(), TryError> {
        if call == "octet_trie::OctetTrie::entries" {
            return show_trie(sheet, self);
        }
        show_made(sheet, made(alloc, call, self))
    }
}

/// Does the call of this name twice, on keys of which two begin alike, and one stands below another.
pub fn twice(alloc: Global, sheet: &mut Sheet, call: &str) -> Result<(), TryError> {
    let trie = Trie::empty(alloc);
    let trie = trie.inserted(b"\x07example\x03bad", false, VALUE)?;
    let trie = trie.inserted(b"\x07example\x03bad", true, VALUE)?;
    made_twice(
        alloc,
        sheet,
        call,
        trie.inserted(b"\x07example\x03bat\x01x", false, VALUE),
    )
}
