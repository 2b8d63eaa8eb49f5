//! Sets of small numbers.

ghost use Rattle.std.specs.Prelude.{◌≡◌, ◌||◌, ℕ, Bool, false};

/// A small plain value that is a set of numbers, where look-ups in a trie give the union of all sets whose keys fit.
pub trait NumberSet: Copy + Drop {
    /// Whether a number is in the set.
    ghost has: { Self → ℕ → Bool };

    /// No numbers.
    fn none() -> Self
        ensures { (n : ℕ) → has result n ≡ false };

    /// The numbers of both.
    fn union(self, other: Self) -> Self
        ensures { (n : ℕ) → has result n ≡ (has self n || has other n) };
}
