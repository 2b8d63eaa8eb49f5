//! Tests of tries of prefixes, with ranges for documentation (RFC 5737, RFC 3849).

use crate::asserts::assert_same;
use crate::looking::{joined_of_addr, of_addr};
use crate::sets::{Numbers, set_there};
use crate::sign::{Sign, there};
use ip_prefix::{Addr, Prefix};
use prefix_index::PrefixTrie;
use std::alloc::{AllocError, Global};

// 192.0.2.0
const NET: Addr = Addr::V4(0xc000_0200);

// 192.0.2.0/24 is 1.
fn one(alloc: Global) -> Result<PrefixTrie<u32, Sign>, AllocError> {
    PrefixTrie::empty(alloc).inserted(&Prefix::of(NET, 24), there(1))
}

#[test]
fn an_address_is_found_in_its_prefix_alone(rt: HostRuntime) {
    let before = one(rt.alloc()).expect(&rt, "no error");
    let half = Prefix::of(Addr::V4(0), 1);
    let after = before.with(&half, there(2)).expect(&rt, "no error");
    assert_same(&rt, of_addr(&before, Addr::V4(0xc000_02ff)), Some(1));
    assert_same(&rt, of_addr(&before, Addr::V4(0xc000_0300)), None);
    assert_same(&rt, of_addr(&before, Addr::V4(0x7f00_0001)), None);
    assert_same(&rt, of_addr(&after, Addr::V4(0x7f00_0001)), Some(2));
}

// 2001:db8::
const NET_SIX: Addr = Addr::V6(0x2001_0db8_0000_0000_0000_0000_0000_0000);

// 192.0.2.0/24 has 1, 192.0.2.255/32 has 2, 0.0.0.0/1 has 3 and 2001:db8::/32 has 4.
fn sets(alloc: Global) -> Result<PrefixTrie<Numbers, Sign>, AllocError> {
    PrefixTrie::empty(alloc)
        .inserted(&Prefix::of(NET, 24), set_there(1 << 1))?
        .inserted(&Prefix::of(Addr::V4(0xc000_02ff), 32), set_there(1 << 2))?
        .inserted(&Prefix::of(Addr::V4(0), 1), set_there(1 << 3))?
        .inserted(&Prefix::of(NET_SIX, 32), set_there(1 << 4))
}

// 192.0.2.255 has 1 and 2, 192.0.2.1 has 1, 127.0.0.1 has 3, 2001:db8::1 has 4, and 192.0.3.0 has none.
#[test]
fn an_address_has_the_sets_of_all_its_prefixes(rt: HostRuntime) {
    let trie = sets(rt.alloc()).expect(&rt, "no error");
    let six = Addr::V6(0x2001_0db8_0000_0000_0000_0000_0000_0001);
    for (addr, bits) in [
        (Addr::V4(0xc000_02ff), 0b110),
        (Addr::V4(0xc000_0201), 0b10),
        (Addr::V4(0x7f00_0001), 0b1000),
        (six, 0b10000),
        (Addr::V4(0xc000_0300), 0),
    ] {
        assert_same(&rt, joined_of_addr(&trie, addr).bits(), bits);
    }
}
