//! Numbers of rows, lent.

ghost use Rattle.std.specs.Prelude.{◌≡◌, ◌<◌, [], ◌∷◌, Some, length, slice_get, IfOk};
ghost use Rattle.zone_index.specs.Lent.{first_of};

use std::alloc::{AllocError, Global};
use std::marker::Model;

// One number, or those that stand in a group.
#[derive(Clone, Copy, Drop)]
enum Lent<'a> {
    One(u32),
    Several(&'a [u32]),
}

/// The numbers of the rows of a place, lent. Contracts see the list.
#[derive(Drop)]
pub struct Numbers<'a> {
    lent: Lent<'a>,
}

impl<'a> Model for Numbers<'a> {
    ghost use Rattle.std.specs.Prelude.{List, ℕ};
    ghost use Rattle.zone_index.specs.Lent.{numbers_in};

    ghost Value = { List ℕ };

    ghost view = { λ n. numbers_in n.lent };
}

impl<'a> Numbers<'a> {
    /// One number.
    pub(crate) fn one(number: u32) -> Self
        ensures { result ≡ number ∷ [] }
    {
        Numbers {
            lent: Lent::One(number),
        }
    }

    /// The numbers of a group.
    pub(crate) fn several(numbers: &'a [u32]) -> Self
        ensures { result ≡ numbers.now }
    {
        Numbers {
            lent: Lent::Several(numbers),
        }
    }

    // How many numbers stand in a group.
    pub(crate) fn in_group(&self) -> usize {
        match self.lent {
            Lent::One(_) => 0,
            Lent::Several(numbers) => numbers.len(),
        }
    }

    /// How many numbers.
    pub fn len(&self) -> usize
        ensures { result ≡ length self.now }
    {
        match self.lent {
            Lent::One(_) => 1,
            Lent::Several(numbers) => numbers.len(),
        }
    }

    /// The number at the place.
    pub fn at(&self, place: usize) -> u32
        requires { place < length self.now }
        ensures { slice_get self.now place ≡ Some result }
    {
        match self.lent {
            Lent::One(number) => number,
            Lent::Several(numbers) => number_at(numbers, place),
        }
    }

    /// The first of them.
    pub fn first(&self) -> Option<u32>
        ensures { result ≡ first_of self.now }
    {
        match self.lent {
            Lent::One(number) => Some(number),
            Lent::Several(numbers) => numbers.first().copied(),
        }
    }

    /// The numbers, copied.
    pub fn to_vec(&self, alloc: Global) -> Result<Vec<u32>, AllocError>
        ensures { IfOk result (λ numbers. numbers.items ≡ self.now) }
    {
        match self.lent {
            Lent::One(number) => Ok(Vec::from_slice(alloc, &[number])?),
            Lent::Several(numbers) => Ok(Vec::from_slice(alloc, numbers)?),
        }
    }
}

fn number_at(numbers: &[u32], place: usize) -> u32
    requires { place < length numbers.now }
    ensures { slice_get numbers.now place ≡ Some result }
{
    numbers[place]
}
