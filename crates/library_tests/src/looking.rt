//! Look-ups without a count of steps.

ghost use Rattle.std.specs.Prelude.{◌≡◌, ◌<◌};
ghost use Rattle.dns_name.specs.Labels.{lowered};

use crate::sets::Numbers;
use crate::sign::Sign;
use dns_name::Name;
use ip_prefix::Addr;
use prefix_index::PrefixTrie;
use qname_index::{LookupName, NameTrie};
use std::marker::Brand;
use std::sync::ledger::{Blank, Ledger};
use trie_keys::Steps;

fn name_from<L: Ledger>(blank: Blank, trie: &NameTrie<u32, Sign>, name: &LookupName) -> Option<u32>
    requires name { blank.name ≡ L.name }
    requires parts { blank.parts ≡ L.parts }
    requires some { 0 < blank.parts }
{
    let mut steps = Steps::<L>::start(blank);
    match trie.best(name, &mut steps) {
        Some(found) => Some(found.value.value),
        None => None,
    }
}

/// The value of the pattern that is found for the name, which is in lower case.
pub fn of_name(trie: &NameTrie<u32, Sign>, name: &Name) -> Option<u32>
    requires { lowered name.now ≡ name.now }
{
    name_from::<Brand>(Blank::new(1), trie, &LookupName::of(name))
}

fn joined_name_from<L: Ledger>(
    blank: Blank,
    trie: &NameTrie<Numbers, Sign>,
    name: &LookupName,
) -> Numbers
    requires name { blank.name ≡ L.name }
    requires parts { blank.parts ≡ L.parts }
    requires some { 0 < blank.parts }
{
    let mut steps = Steps::<L>::start(blank);
    trie.joined(name, &mut steps)
}

/// The union of the sets at all patterns that match the name, which is in lower case.
pub(crate) fn joined_of_name(trie: &NameTrie<Numbers, Sign>, name: &Name) -> Numbers
    requires { lowered name.now ≡ name.now }
{
    joined_name_from::<Brand>(Blank::new(1), trie, &LookupName::of(name))
}

fn addr_from<L: Ledger>(blank: Blank, trie: &PrefixTrie<u32, Sign>, addr: Addr) -> Option<u32>
    requires name { blank.name ≡ L.name }
    requires parts { blank.parts ≡ L.parts }
    requires some { 0 < blank.parts }
{
    let mut steps = Steps::<L>::start(blank);
    match trie.longest(addr, &mut steps) {
        Some(found) => Some(found.1.value),
        None => None,
    }
}

/// The value of the prefix that is found for the address.
pub fn of_addr(trie: &PrefixTrie<u32, Sign>, addr: Addr) -> Option<u32> {
    addr_from::<Brand>(Blank::new(1), trie, addr)
}

fn joined_addr_from<L: Ledger>(
    blank: Blank,
    trie: &PrefixTrie<Numbers, Sign>,
    addr: Addr,
) -> Numbers
    requires name { blank.name ≡ L.name }
    requires parts { blank.parts ≡ L.parts }
    requires some { 0 < blank.parts }
{
    let mut steps = Steps::<L>::start(blank);
    trie.joined(addr, &mut steps)
}

/// The union of the sets at all prefixes that contain the address.
pub(crate) fn joined_of_addr(trie: &PrefixTrie<Numbers, Sign>, addr: Addr) -> Numbers {
    joined_addr_from::<Brand>(Blank::new(1), trie, addr)
}
