//! Marks for tests.

ghost use Rattle.std.specs.Prelude.{◌≡◌};
ghost use Rattle.library_tests.specs.declared.sign.Sign.TheVariants.{There};

use trie_keys::{Mark, Marked};

/// Whether there is a value. Each acts.
#[derive(Clone, Copy, Drop)]
pub enum Sign {
    Absent,
    There,
}

impl Mark for Sign {
    ghost use Rattle.library_tests.specs.Sign.{is_there};

    ghost present = { is_there };

    ghost acts = { is_there };

    fn absent() -> Self {
        Sign::Absent
    }

    fn is_present(&self) -> bool {
        match self {
            Sign::Absent => false,
            Sign::There => true,
        }
    }

    fn does_act(&self) -> bool {
        match self {
            Sign::Absent => false,
            Sign::There => true,
        }
    }
}

/// A value that is there.
pub fn there(value: u32) -> Marked<u32, Sign>
    ensures { result ≡ record { value = value; mark = There } }
{
    Marked {
        value,
        mark: Sign::There,
    }
}
