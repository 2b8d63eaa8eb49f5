//! Sets of zones.

ghost use Rattle.std.specs.Prelude.{◌≡◌, ℕ, ◌≤◌, ◌==◌, ◌||◌, ◌&&◌, bit_or, false, not};
ghost use Rattle.summary_index.specs.Zones.{has_zone, zones_without};
ghost use Rattle.zone_rows.specs.declared.zone.TheConstants.{ZONE_LIMIT};

use std::marker::Model;
use trie_keys::NumberSet;

/// A set of zones of a policy, by their numbers, from 1 to 64. It takes eight octets.
#[derive(Clone, Copy, Debug, Default, PartialEq, Eq)]
pub struct Zones {
    // bit 0 stands for zone 1
    mask: u64,
}

impl Model for Zones {
    ghost use Rattle.std.specs.Prelude.{ℕ, ◌<◌, ◌^◌};

    ghost Value = { ℕ };

    ghost view = { λ z. z.mask };

    ghost invariant = { λ z. z.mask < 2 ^ 64 };

    ghost inverse = { λ z. record { mask = z } };
}

impl NumberSet for Zones {
    ghost use Rattle.summary_index.specs.Zones.{has_zone};

    ghost has = { has_zone };

    fn none() -> Self
        ensures none { (n : ℕ) → has_zone result n ≡ false }
        ensures zero { result ≡ 0 }
    {
        Zones { mask: 0 }
    }

    fn union(self, other: Self) -> Self
        ensures union { (n : ℕ) → has_zone result n ≡ (has_zone self n || has_zone other n) }
        ensures mask { result ≡ bit_or self other }
    {
        Zones {
            mask: self.mask | other.mask,
        }
    }
}

impl Zones {
    /// With the zone of this number, which is from 1 to 64.
    pub fn with(self, number: u32) -> Self
        requires some { 1 ≤ number }
        requires within { number ≤ ZONE_LIMIT }
        ensures { (n : ℕ) → 1 ≤ n → has_zone result n ≡ (n == number || has_zone self n) }
    {
        Zones {
            mask: self.mask | 1 << (number - 1),
        }
    }

    /// Without the zone of this number, which is from 1 to 64.
    pub fn without(self, number: u32) -> Self
        requires some { 1 ≤ number }
        requires within { number ≤ ZONE_LIMIT }
        ensures others { (n : ℕ) → 1 ≤ n → n ≤ ZONE_LIMIT → has_zone result n ≡ (not (n == number) && has_zone self n) }
        ensures mask { result ≡ zones_without number self }
    {
        Zones {
            mask: self.mask & !(1 << (number - 1)),
        }
    }

    /// Whether the zone of this number is one of them. The number is from 1 to 64.
    pub fn has(self, number: u32) -> bool
        requires some { 1 ≤ number }
        requires within { number ≤ ZONE_LIMIT }
        ensures { result ≡ has_zone self number }
    {
        self.mask >> (number - 1) & 1 == 1
    }

    /// Whether there are none.
    pub fn is_empty(self) -> bool
        ensures { result ≡ (self == 0) }
    {
        self.mask == 0
    }

    /// Whether there are two or more.
    pub fn are_several(self) -> bool {
        self.mask.count_ones() > 1
    }
}
