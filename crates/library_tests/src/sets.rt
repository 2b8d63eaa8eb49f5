//! Sets of numbers for tests.

ghost use Rattle.std.specs.Prelude.{◌≡◌};
ghost use Rattle.library_tests.specs.declared.sign.Sign.TheVariants.{There};

use crate::sign::Sign;
use trie_keys::{Marked, NumberSet};

/// A set of numbers below 32: each is in the set where its bit is 1.
#[derive(Clone, Copy, Default, Drop)]
pub(crate) struct Numbers(u32);

impl NumberSet for Numbers {
    ghost use Rattle.std.specs.Prelude.{◌==◌};
    ghost use Rattle.std.specs.Int.{bit_at};

    ghost has = { λ set number. bit_at set.0 number == 1 };

    fn none() -> Self {
        Numbers(0)
    }

    fn union(self, other: Self) -> Self {
        Numbers(self.0 | other.0)
    }
}

impl Numbers {
    /// The bits of all numbers in the set.
    pub(crate) fn bits(self) -> u32
        ensures { result ≡ self.0 }
    {
        self.0
    }
}

/// The set of these bits, as a value that is there.
pub(crate) fn set_there(bits: u32) -> Marked<Numbers, Sign>
    ensures { result.mark ≡ There }
{
    Marked {
        value: Numbers(bits),
        mark: Sign::There,
    }
}
