//! The bits of a prefix of version 4.

ghost use Rattle.std.specs.Prelude.{◌≡◌, ◌-◌, ◌%◌, ◌^◌, ◌<◌, ◌≤◌, true};
ghost use Rattle.prefix_index.specs.Bits.{bits_agree, bits_keys, bits_valid};
ghost use Rattle.prefix_index.specs.Ranked.{four_bits, prefix_four};
ghost use Rattle.prefix_index.specs.BitsLaws.{bits_laws, bits_binary};

use crate::key::Key;
use crate::node::Node;
use ip_prefix::{Addr, Prefix};
use std::cmp::Ordering;
use std::marker::Model;

// The first bits of a number, so many.
#[derive(Clone, Copy, Drop)]
pub(crate) struct Short {
    number: u32,
    bits: u8,
}

// A node takes 24 octets, with a number of 32 bits and a mark of one octet.
const _: () = prove!(size_of::<Node<Short, u32, bool>>() == 24);

impl Model for Short {
    ghost use Rattle.std.specs.Prelude.{◌≡◌, true};
    ghost use Rattle.prefix_index.specs.Bits.{PlainBits, bits_valid};

    ghost Value = { PlainBits };

    ghost view = { λ s. record { number = s.number; len = s.bits } };

    ghost invariant = { λ s. bits_valid 32 (record { number = s.number; len = s.bits }) ≡ true };

    ghost inverse = { λ p. record { number = p.number; bits = p.len } };
}

impl Short {
    // The first bits of the number, so many, of which the others are 0.
    pub(crate) fn new(number: u32, len: u32) -> Short
        requires within { len ≤ 32 }
        requires clear { number % 2 ^ (32 - len) ≡ 0 }
        ensures { result ≡ record { number = number; len = len } }
    {
        Short {
            number,
            bits: len as u8,
        }
    }
}

#[tactic(auto, using(std::proofs::lemmas::Nat::one_shl))]
fn power(exponent: u32) -> u32
    requires { exponent < 32 }
    ensures { result ≡ 2 ^ exponent }
{
    1 << exponent
}

// the number with 0 behind its first bits, so many
fn cleared(number: u32, len: u32) -> u32
    requires { len ≤ 32 }
    ensures { result ≡ number - number % 2 ^ (32 - len) }
{
    if len == 0 {
        0
    } else {
        number - number % power(32 - len)
    }
}

impl Key for Short {
    ghost keys = { bits_keys 32 };

    ghost from = { four_bits };

    ghost to = { prefix_four };

    ghost laws = { bits_laws 32 };

    ghost binary = { bits_binary 32 };

    fn of(prefix: &Prefix) -> Option<Short> {
        match prefix.addr() {
            Addr::V4(number) => Some(Short::new(number, prefix.length())),
            Addr::V6(_) => None,
        }
    }

    fn prefix(&self) -> Prefix {
        Prefix::of(Addr::V4(self.number), u32::from(self.bits))
    }

    fn order(&self, other: &Short) -> Ordering {
        self.number
            .cmp(&other.number)
            .then(self.bits.cmp(&other.bits))
    }

    fn len(&self) -> u32 {
        u32::from(self.bits)
    }

    fn bit(&self, place: u32) -> bool {
        (self.number >> (31 - place)) % 2 == 1
    }

    fn common(&self, other: &Short) -> u32 {
        let same = (self.number ^ other.number).leading_zeros();
        same.min(u32::from(self.bits)).min(u32::from(other.bits))
    }

    fn cut(&self, len: u32) -> Short {
        Short {
            number: cleared(self.number, len),
            bits: len as u8,
        }
    }
}
