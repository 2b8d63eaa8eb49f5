//! Texts of addresses, beside the library's reader and the examples of RFC 5952, and of networks.

use crate::asserts::assert_same;
use ip_prefix::Addr;
use networks::{
    AddressText, AllowList, Network, NetworkFault, NetworkTextFault, is_mapped, read_address,
    read_network, read_v4, read_v6,
};
use std::alloc::{AllocError, Global};
use std::net::Ipv6Addr;
use std::process::Abort;

// Texts that are drawn, of each of two kinds.
const COUNT: u32 = 50_000;

// Digits in both forms, letters that are none, and what stands between them; colons twice.
static ALPHABET: [u8; 12] = *b"019aFg:.%[0:";

// A linear congruential generator of modulus 2^64.
#[derive(Drop)]
struct Draws {
    state: u64,
}

impl Draws {
    // A number below this one, or 0.
    fn below(&mut self, bound: u64) -> u64 {
        self.state = self
            .state
            .wrapping_mul(6_364_136_223_846_793_005)
            .wrapping_add(1_442_695_040_888_963_407);
        (self.state >> 33) % bound.max(1)
    }

    fn character(&mut self) -> u8 {
        let place = self.below(12) as usize;
        ALPHABET.get(place).copied().unwrap_or(b':')
    }

    // A text of up to 23 characters.
    fn text(&mut self, alloc: Global) -> Result<Vec<u8>, AllocError> {
        let mut out = Vec::new(alloc);
        for _ in 0..self.below(24) {
            out.push(self.character())?;
        }
        Ok(out)
    }

    // A group, which often is 0.
    fn group(&mut self) -> u64 {
        match self.below(4) {
            0 | 1 => 0,
            2 => self.below(16),
            _ => self.below(65_536),
        }
    }

    // An address whose groups often are 0.
    fn number(&mut self) -> u128 {
        let mut number: u128 = 0;
        for _ in 0..8 {
            number = number
                .wrapping_mul(65_536)
                .wrapping_add(u128::from(self.group()));
        }
        number
    }

    // The text of an address with one character left out, changed, or put in, or as it is.
    fn changed(&mut self, alloc: Global) -> Result<Vec<u8>, AllocError> {
        let number = self.number();
        let text = format!(in alloc; "{}", AddressText(Addr::V6(number)))?;
        let place = self.below(40) as usize;
        let what = self.below(3);
        let mut out = Vec::new(alloc);
        for (at, byte) in text.as_bytes().iter().enumerate() {
            if at == place {
                push_changed(&mut out, *byte, what, self.character())?;
            } else {
                out.push(*byte)?;
            }
        }
        Ok(out)
    }
}

// Pushes nothing, another byte, or another one and this one.
fn push_changed(out: &mut Vec<u8>, byte: u8, what: u64, other: u8) -> Result<(), AllocError> {
    if what > 0 {
        out.push(other)?;
    }
    if what > 1 {
        out.push(byte)?;
    }
    Ok(())
}

// Whether the library reads the same in a text.
fn is_read_alike(text: &[u8]) -> bool {
    let theirs = Ipv6Addr::parse_ascii(text)
        .ok()
        .map(|addr| u128::from(addr));
    read_v6(text) == theirs
}

// How many texts are addresses, of so many that are drawn of each kind; each has to be read as the library reads it.
fn read_all<R: Abort>(rt: &R, alloc: Global, count: u32) -> (u32, u32) {
    let mut draws = Draws { state: 42 };
    let mut drawn: u32 = 0;
    let mut changed: u32 = 0;
    for _ in 0..count {
        let text = draws.text(alloc).expect(rt, "no error");
        assert!(rt; is_read_alike(text.as_slice()));
        drawn = drawn.saturating_add(u32::from(read_v6(text.as_slice()).is_some()));
        let text = draws.changed(alloc).expect(rt, "no error");
        assert!(rt; is_read_alike(text.as_slice()));
        changed = changed.saturating_add(u32::from(read_v6(text.as_slice()).is_some()));
    }
    (drawn, changed)
}

#[test]
fn texts_are_read_as_the_library_reads_them(rt: HostRuntime) {
    let (drawn, changed) = read_all(&rt, rt.alloc(), COUNT);
    // some of either kind are addresses, and some aren't
    assert!(rt; drawn > 100 && drawn < COUNT / 2, "{drawn}");
    assert!(rt; changed > COUNT / 4 && changed < COUNT - 1000, "{changed}");
}

// Texts of addresses, and how RFC 5952 writes each, in the order of its sections 1, 2.1 to 2.3, 4.1, 4.2.1 to 4.2.3, and 5.
static TEXTS: [(&str, &str); 30] = [
    ("2001:db8:0:0:1:0:0:1", "2001:db8::1:0:0:1"),
    ("2001:0db8:0:0:1:0:0:1", "2001:db8::1:0:0:1"),
    ("2001:db8::1:0:0:1", "2001:db8::1:0:0:1"),
    ("2001:db8::0:1:0:0:1", "2001:db8::1:0:0:1"),
    ("2001:0db8::1:0:0:1", "2001:db8::1:0:0:1"),
    ("2001:db8:0:0:1::1", "2001:db8::1:0:0:1"),
    ("2001:db8:0000:0:1::1", "2001:db8::1:0:0:1"),
    ("2001:DB8:0:0:1::1", "2001:db8::1:0:0:1"),
    (
        "2001:db8:aaaa:bbbb:cccc:dddd:eeee:0001",
        "2001:db8:aaaa:bbbb:cccc:dddd:eeee:1",
    ),
    (
        "2001:db8:aaaa:bbbb:cccc:dddd:eeee:001",
        "2001:db8:aaaa:bbbb:cccc:dddd:eeee:1",
    ),
    (
        "2001:db8:aaaa:bbbb:cccc:dddd:eeee:01",
        "2001:db8:aaaa:bbbb:cccc:dddd:eeee:1",
    ),
    (
        "2001:db8:aaaa:bbbb:cccc:dddd:eeee:1",
        "2001:db8:aaaa:bbbb:cccc:dddd:eeee:1",
    ),
    (
        "2001:db8:aaaa:bbbb:cccc:dddd::1",
        "2001:db8:aaaa:bbbb:cccc:dddd:0:1",
    ),
    (
        "2001:db8:aaaa:bbbb:cccc:dddd:0:1",
        "2001:db8:aaaa:bbbb:cccc:dddd:0:1",
    ),
    ("2001:db8:0:0:0::1", "2001:db8::1"),
    ("2001:db8:0:0::1", "2001:db8::1"),
    ("2001:db8:0::1", "2001:db8::1"),
    ("2001:db8::1", "2001:db8::1"),
    ("2001:db8::aaaa:0:0:1", "2001:db8::aaaa:0:0:1"),
    ("2001:db8:0:0:aaaa::1", "2001:db8::aaaa:0:0:1"),
    (
        "2001:db8:aaaa:bbbb:cccc:dddd:eeee:AAAA",
        "2001:db8:aaaa:bbbb:cccc:dddd:eeee:aaaa",
    ),
    (
        "2001:db8:aaaa:bbbb:cccc:dddd:eeee:AaAa",
        "2001:db8:aaaa:bbbb:cccc:dddd:eeee:aaaa",
    ),
    ("2001:0db8::0001", "2001:db8::1"),
    ("2001:db8:0:0:0:0:2:1", "2001:db8::2:1"),
    ("2001:db8::0:1", "2001:db8::1"),
    ("2001:db8::1:1:1:1:1", "2001:db8:0:1:1:1:1:1"),
    ("2001:0:0:1:0:0:0:1", "2001:0:0:1::1"),
    ("0:0:0:0:0:ffff:192.0.2.1", "::ffff:192.0.2.1"),
    ("::ffff:c000:201", "::ffff:192.0.2.1"),
    ("192.000.002.001", "192.0.2.1"),
];

// How the address is written that a text writes.
fn written_again(alloc: Global, text: &str) -> Result<Option<String>, AllocError> {
    match read_address(text.as_bytes()) {
        Some(addr) => Ok(Some(format!(in alloc; "{}", AddressText(addr))?)),
        None => Ok(None),
    }
}

#[test]
fn addresses_are_written_in_the_form_of_rfc_5952(rt: HostRuntime) {
    for (text, form) in TEXTS {
        let again = written_again(rt.alloc(), text)
            .expect(&rt, "no error")
            .expect(&rt, "an address");
        assert_same(&rt, again.as_str(), form);
    }
}

#[test]
fn addresses_have_their_numbers(rt: HostRuntime) {
    assert_same(&rt, read_v4(b"192.0.2.1"), Some(0xc000_0201));
    assert_same(&rt, read_v4(b"192.0.2.256"), None);
    assert_same(&rt, read_v6(b"::1"), Some(1));
    assert_same(
        &rt,
        read_v6(b"1:2:3:4:5:6:7::"),
        Some(0x0001_0002_0003_0004_0005_0006_0007_0000),
    );
    assert_same(
        &rt,
        read_v6(b"::ffff:192.0.2.1").map(|number| is_mapped(number)),
        Some(true),
    );
    assert_same(
        &rt,
        read_v6(b"::192.0.2.1").map(|number| is_mapped(number)),
        Some(false),
    );
}

// Texts, and the network that each writes.
static NETWORKS: [(&str, Addr, u32); 4] = [
    ("010.0.0.0/08", Addr::V4(0x0a00_0000), 8),
    ("0.0.0.0/0", Addr::V4(0), 0),
    ("2001:DB8::/32", Addr::V6(0x2001_0db8 << 96), 32),
    ("::1/128", Addr::V6(1), 128),
];

// Texts that write none, and why.
static NO_NETWORKS: [(&str, NetworkTextFault); 6] = [
    ("10.0.0.0", NetworkTextFault::Form),
    ("/8", NetworkTextFault::Address),
    ("10.0.0/33", NetworkTextFault::Address),
    ("10.0.0.1/33", NetworkTextFault::Length),
    ("10.0.0.0/0008", NetworkTextFault::Length),
    ("2001:db8::1/64", NetworkTextFault::HostBits),
];

#[test]
fn networks_are_read(rt: HostRuntime) {
    for (text, addr, length) in NETWORKS {
        let network = read_network(text.as_bytes()).expect(&rt, "a network");
        assert_same(&rt, network.addr(), addr);
        assert_same(&rt, network.length(), length);
    }
    for (text, fault) in NO_NETWORKS {
        assert_same(&rt, read_network(text.as_bytes()).err(), Some(fault));
    }
}

// Clients, and whether they may ask where 192.0.2.0/25 and 2001:db8::/33 may.
static CLIENTS: [(Addr, bool); 8] = [
    (Addr::V4(0xc000_0200), true),
    (Addr::V4(0xc000_027f), true),
    (Addr::V4(0xc000_0280), false),
    (Addr::V4(0xc000_01ff), false),
    (Addr::V6(0x2001_0db8 << 96), true),
    (Addr::V6(0x2001_0db8_8000 << 80), false),
    (Addr::V6(0xffff_c000_0200), false),
    (Addr::V6(0xc000_0200), false),
];

// The list of the networks 192.0.2.0/25 and 2001:db8::/33.
fn two_networks<R: Abort>(rt: &R, alloc: Global) -> AllowList {
    let mut list = AllowList::everyone(alloc);
    for (addr, length) in [
        (Addr::V4(0xc000_0200), 25),
        (Addr::V6(0x2001_0db8 << 96), 33),
    ] {
        let network = Network::new(addr, length).expect(rt, "a network");
        assert!(rt; network.has(addr) && !list.contains(&network));
        list.push(network).expect(rt, "no error");
        assert!(rt; list.contains(&network));
    }
    list
}

#[test]
fn a_list_says_who_may_ask(rt: HostRuntime) {
    let list = two_networks(&rt, rt.alloc());
    let again = list.again(rt.alloc()).expect(&rt, "no error");
    let everyone = AllowList::everyone(rt.alloc());
    assert_same(&rt, (list.len(), again.len(), everyone.len()), (2, 2, 0));
    for (client, may_ask) in CLIENTS {
        assert_same(&rt, list.allows(client), may_ask);
        assert_same(&rt, again.allows(client), may_ask);
        assert!(rt; everyone.allows(client));
    }
}

#[test]
fn a_network_has_no_bit_behind_its_length(rt: HostRuntime) {
    for (addr, length, fault) in [
        (Addr::V4(0), 33, NetworkFault::Length),
        (Addr::V6(1), 129, NetworkFault::Length),
        (Addr::V4(1), 31, NetworkFault::HostBits),
        (Addr::V6(1), 0, NetworkFault::HostBits),
    ] {
        assert_same(&rt, Network::new(addr, length).err(), Some(fault));
    }
}
