//! The bits of a prefix of version 6.

ghost use Rattle.std.specs.Prelude.{◌≡◌, ◌+◌, ◌*◌, ◌-◌, ◌%◌, ◌^◌, ◌<◌, ◌≤◌, true};
ghost use Rattle.prefix_index.specs.Bits.{bits_keys, bits_valid};
ghost use Rattle.prefix_index.specs.Ranked.{six_bits, prefix_six};
ghost use Rattle.prefix_index.specs.BitsLaws.{bits_laws, bits_binary};

use crate::key::Key;
use crate::node::Node;
use ip_prefix::{Addr, Prefix};
use std::cmp::Ordering;
use std::marker::Model;

// 2 ^ 64
const HALF: u128 = 18_446_744_073_709_551_616;

// The first bits of a number, so many. The number is kept in two halves, so that a node needs no room for an alignment of 16.
#[derive(Clone, Copy, Drop)]
pub(crate) struct Long {
    high: u64,
    low: u64,
    bits: u8,
}

// A node takes 40 octets, with a number of 32 bits and a mark of one octet.
const _: () = prove!(size_of::<Node<Long, u32, bool>>() == 40);

impl Model for Long {
    ghost use Rattle.std.specs.Prelude.{◌≡◌, ◌+◌, ◌*◌, ◌/◌, ◌%◌, ◌<◌, true};
    ghost use Rattle.prefix_index.specs.Bits.{PlainBits, bits_valid};
    ghost use Rattle.prefix_index.specs.Halves.{whole, high_of, low_of, halves_back};

    ghost Value = { PlainBits };

    ghost view = { λ s. record { number = whole s.high s.low; len = s.bits } };

    ghost invariant = { λ s. (s.low < 18446744073709551616)
        × (bits_valid 128 (record { number = whole s.high s.low; len = s.bits }) ≡ true) };

    ghost inverse = { λ p. record { high = high_of p.number; low = low_of p.number; bits = p.len } };

    ghost inverse_ok = { λ a h. λ i. let back = halves_back a.high a.low h.0 in
        record { high = back.0 i; low = back.1 i; bits = a.bits } };
}

impl Long {
    // The first bits of the number, so many, of which the others are 0.
    pub(crate) fn new(number: u128, len: u32) -> Long
        requires within { len ≤ 128 }
        requires clear { number % 2 ^ (128 - len) ≡ 0 }
        ensures { result ≡ record { number = number; len = len } }
    {
        Long {
            high: (number / HALF) as u64,
            low: (number % HALF) as u64,
            bits: len as u8,
        }
    }

    // The number, with 0 behind its first bits.
    fn number(&self) -> u128
        ensures number { result ≡ self.now.number }
        ensures valid { bits_valid 128 self.now ≡ true }
    {
        u128::from(self.high) * HALF + u128::from(self.low)
    }
}

#[tactic(auto, using(std::proofs::lemmas::Nat::one_shl))]
fn power(exponent: u32) -> u128
    requires { exponent < 128 }
    ensures { result ≡ 2 ^ exponent }
{
    1 << exponent
}

// the number with 0 behind its first bits, so many
fn cleared(number: u128, len: u32) -> u128
    requires { len ≤ 128 }
    ensures { result ≡ number - number % 2 ^ (128 - len) }
{
    if len == 0 {
        0
    } else {
        number - number % power(128 - len)
    }
}

impl Key for Long {
    ghost keys = { bits_keys 128 };

    ghost from = { six_bits };

    ghost to = { prefix_six };

    ghost laws = { bits_laws 128 };

    ghost binary = { bits_binary 128 };

    fn of(prefix: &Prefix) -> Option<Long> {
        match prefix.addr() {
            Addr::V6(number) => Some(Long::new(number, prefix.length())),
            Addr::V4(_) => None,
        }
    }

    fn prefix(&self) -> Prefix {
        Prefix::of(Addr::V6(self.number()), u32::from(self.bits))
    }

    fn order(&self, other: &Long) -> Ordering {
        self.number()
            .cmp(&other.number())
            .then(self.bits.cmp(&other.bits))
    }

    fn len(&self) -> u32 {
        u32::from(self.bits)
    }

    fn bit(&self, place: u32) -> bool {
        (self.number() >> (127 - place)) % 2 == 1
    }

    fn common(&self, other: &Long) -> u32 {
        let same = (self.number() ^ other.number()).leading_zeros();
        same.min(self.len()).min(other.len())
    }

    fn cut(&self, len: u32) -> Long {
        Long::new(cleared(self.number(), len), len)
    }
}
