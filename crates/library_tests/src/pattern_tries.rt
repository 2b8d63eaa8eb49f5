//! Tests of tries of names.

use crate::asserts::assert_same;
use crate::looking::{joined_of_name, of_name};
use crate::sets::{Numbers, set_there};
use crate::sign::{Sign, there};
use dns_name::laws::case_does_not_matter;
use dns_name::{Name, Pattern};
use qname_index::{Key, NameTrie};
use std::alloc::{AllocError, Global};
use std::process::Abort;

fn pattern<R: Abort>(rt: &R, alloc: Global, base: &[u8], wild: bool) -> Pattern {
    let base = Name::from_text(alloc, base).expect(rt, "no error");
    Pattern::new(alloc, &base, wild).expect(rt, "no error")
}

fn found<R: Abort>(rt: &R, alloc: Global, trie: &NameTrie<u32, Sign>, text: &[u8]) -> Option<u32> {
    case_does_not_matter();
    let name = Name::from_text(alloc, text)
        .expect(rt, "no error")
        .lower(alloc)
        .expect(rt, "no error");
    of_name(trie, &name)
}

// The union for a name, each number as a bit.
fn bits<R: Abort>(rt: &R, alloc: Global, trie: &NameTrie<Numbers, Sign>, text: &[u8]) -> u32 {
    case_does_not_matter();
    let name = Name::from_text(alloc, text)
        .expect(rt, "no error")
        .lower(alloc)
        .expect(rt, "no error");
    joined_of_name(trie, &name).bits()
}

// Of a.example, the exact pattern is 1 and the wild one 2.
fn two<R: Abort>(rt: &R, alloc: Global) -> Result<NameTrie<u32, Sign>, AllocError> {
    let exact = pattern(rt, alloc, b"a.example", false);
    let wild = pattern(rt, alloc, b"a.example", true);
    NameTrie::empty(alloc)
        .inserted(&exact, there(1))?
        .inserted(&wild, there(2))
}

// The exact pattern of a.example has 1, its wild one 2, and the wild one of example 3.
fn three<R: Abort>(rt: &R, alloc: Global) -> Result<NameTrie<Numbers, Sign>, AllocError> {
    let exact = pattern(rt, alloc, b"a.example", false);
    let wild = pattern(rt, alloc, b"a.example", true);
    let above = pattern(rt, alloc, b"example", true);
    NameTrie::empty(alloc)
        .inserted(&exact, set_there(0b0010))?
        .inserted(&wild, set_there(0b0100))?
        .inserted(&above, set_there(0b1000))
}

// The labels from the root on, in lower case, each behind its length.
#[test]
fn the_key_of_a_name_begins_at_the_root(rt: HostRuntime) {
    let name = Name::from_text(rt.alloc(), b"www.Bad")
        .expect(&rt, "no error")
        .lower(rt.alloc())
        .expect(&rt, "no error");
    let key = Key::of(&name);
    assert!(rt; key.as_slice() == b"\x03bad\x03www".as_slice());
}

// Without the exact pattern the wild one is left, and the version before has both.
#[test]
fn a_removal_leaves_the_other_pattern_of_its_base(rt: HostRuntime) {
    let alloc = rt.alloc();
    let before = two(&rt, alloc).expect(&rt, "no error");
    let exact = pattern(&rt, alloc, b"a.example", false);
    let after = before.without(&exact).expect(&rt, "no error");
    assert_same(&rt, found(&rt, alloc, &after, b"a.example"), None);
    assert_same(&rt, found(&rt, alloc, &after, b"x.a.example"), Some(2));
    assert_same(&rt, found(&rt, alloc, &before, b"a.example"), Some(1));
    assert_same(&rt, found(&rt, alloc, &before, b"x.a.example"), Some(2));
}

#[test]
fn a_name_has_the_numbers_of_all_patterns_that_match(rt: HostRuntime) {
    let alloc = rt.alloc();
    let trie = three(&rt, alloc).expect(&rt, "no error");
    assert_same(&rt, bits(&rt, alloc, &trie, b"x.a.example"), 0b1100);
    assert_same(&rt, bits(&rt, alloc, &trie, b"a.example"), 0b1010);
    assert_same(&rt, bits(&rt, alloc, &trie, b"b"), 0);
}

// In the order of the octets of their keys, the exact pattern of a base before the wild one.
#[test]
fn entries_come_by_their_keys(rt: HostRuntime) {
    let alloc = rt.alloc();
    let trie = two(&rt, alloc).expect(&rt, "no error");
    let entries = trie.by_key().expect(&rt, "no error");
    assert!(rt; entries.len() == 2);
    assert!(rt; entries[0].key == b"\x07example\x01a".as_slice());
    assert!(rt; !entries[0].wild && entries[1].wild);
}
