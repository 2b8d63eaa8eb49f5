//! A list of names.

ghost use Rattle.std.specs.Prelude.{◌≡◌, [], ◌∷◌, ◌++◌, length, reverse, OnOk, OnErr};
ghost use Rattle.std.specs.List.{dedup};
ghost use Rattle.std.specs.List.Sorted.{IsPermutation, IsSorted};
ghost use Rattle.std.specs.Ordering.{eq_by_cmp};
ghost use Rattle.dns_name.specs.Order.{canonical_order};

use dns_name::Name;
use std::alloc::{AllocError, Global};
use std::marker::Model;

/// A list of names. Contracts see the list.
#[derive(Debug, Drop)]
pub struct Names {
    names: Vec<Name>,
}

impl Model for Names {
    ghost use Rattle.std.specs.Prelude.{ℕ, List};

    ghost Value = { List (List (List ℕ)) };

    ghost view = { λ n. n.names.items };
}

impl Names {
    /// No names. It takes no memory.
    pub fn new(alloc: Global) -> Self
        ensures { result ≡ [] }
    {
        Names {
            names: Vec::new(alloc),
        }
    }

    /// How many names there are.
    pub fn len(&self) -> usize
        ensures { result ≡ length self.now }
    {
        self.names.len()
    }

    /// The names.
    pub fn as_slice(&self) -> &[Name]
        ensures { result.now ≡ self.now }
    {
        self.names.as_slice()
    }

    /// Puts a name at the end. An `Err` leaves the list as it was.
    pub fn push(&mut self, name: Name) -> Result<(), AllocError>
        ensures ok { OnOk result (self.new ≡ self.old ++ name ∷ []) }
        ensures err { OnErr result (self.new ≡ self.old) }
    {
        self.names.push(name)?;
        Ok(())
    }

    // Turns the order of the names round.
    pub(crate) fn reverse(&mut self)
        ensures { self.new ≡ reverse self.old }
    {
        self.names.reverse();
    }

    // Puts the names in canonical order.
    pub(crate) fn sort(&mut self)
        ensures same { IsPermutation self.old self.new }
        ensures sorted { IsSorted canonical_order self.new }
    {
        self.names.sort_unstable_by(|a, b| a.canonical_cmp(b));
    }

    // Takes out each name that equals the last one that stays, whatever its case.
    pub(crate) fn dedup(&mut self)
        ensures { self.new ≡ dedup (eq_by_cmp canonical_order) self.old }
    {
        self.names.dedup_by(|a, b| are_equal(a, b));
    }
}

// Whether the canonical order calls the names equal.
fn are_equal(a: &Name, b: &Name) -> bool
    ensures { result ≡ eq_by_cmp canonical_order a.now b.now }
{
    a.canonical_cmp(b).is_eq()
}
