//! A number for each block of a list.

ghost use Rattle.std.specs.Prelude.{◌≡◌, ℕ, ◌+◌, ◌-◌, ◌<◌, ◌≤◌, [], ◌∷◌, ◌++◌, length, map, get_or, take, drop, IfOk};

use std::alloc::{AllocError, Global};
use std::marker::Model;

/// A number for each block of a list, at least one. The last block's stands apart, so that a list of one block takes no memory for
/// it.
#[derive(Drop)]
pub(crate) struct BlockNumbers {
    others: Vec<usize>,
    last: usize,
}

impl Model for BlockNumbers {
    ghost use Rattle.std.specs.Prelude.{ℕ, List, [], ◌∷◌, ◌++◌};

    ghost Value = { List ℕ };

    ghost view = { λ n. n.others.items ++ n.last ∷ [] };
}

impl BlockNumbers {
    /// The number of one block. It takes no memory.
    pub(crate) fn one(alloc: Global, number: usize) -> Self
        ensures { result ≡ number ∷ [] }
    {
        BlockNumbers {
            others: Vec::new(alloc),
            last: number,
        }
    }

    /// The same once more.
    pub(crate) fn share(&self, alloc: Global) -> Result<Self, AllocError>
        ensures { IfOk result (λ numbers. numbers ≡ self.now) }
    {
        Ok(BlockNumbers {
            others: Vec::from_slice(alloc, &self.others)?,
            last: self.last,
        })
    }

    /// The same, and the number of one block more.
    pub(crate) fn with(&self, alloc: Global, number: usize) -> Result<Self, AllocError>
        ensures { IfOk result (λ numbers. numbers ≡ self.now ++ number ∷ []) }
    {
        let mut others = Vec::with_capacity(alloc, self.others.len() + 1)?;
        others.extend_from_slice(&self.others)?;
        others.push(self.last)?;
        Ok(BlockNumbers {
            others,
            last: number,
        })
    }

    /// The number of the block at the place.
    pub(crate) fn get(&self, place: usize) -> usize
        requires { place < length self.now }
        ensures { result ≡ get_or self.now place 0 }
    {
        if place < self.others.len() {
            self.others[place]
        } else {
            self.last
        }
    }

    /// How many of the numbers, which rise, are this one or smaller.
    pub(crate) fn count_at_most(&self, number: usize) -> usize
        ensures within { result ≤ length self.now }
        ensures below { (k : ℕ) → k + 1 ≡ result → get_or self.now k 0 ≤ number }
        ensures above { result < length self.now → number < get_or self.now result 0 }
    {
        if self.last <= number {
            self.others.len() + 1
        } else {
            count_at_most(&self.others, number)
        }
    }

    /// The numbers, those from a place on less by so much.
    pub(crate) fn lowered(&self, alloc: Global, from: usize, by: usize) -> Result<Self, AllocError>
        requires { from ≤ length self.now }
        ensures { IfOk result
            (λ numbers. numbers ≡ take from self.now ++ map (λ s. s - by) (drop from self.now)) }
    {
        if from > self.others.len() {
            return self.share(alloc);
        }
        Ok(BlockNumbers {
            others: lowered(alloc, &self.others, from, by)?,
            last: self.last.saturating_sub(by),
        })
    }
}

// How many of the numbers, which rise, are this one or smaller.
fn count_at_most(keys: &[usize], key: usize) -> usize
    ensures within { result ≤ length keys.now }
    ensures below { (k : ℕ) → k + 1 ≡ result → get_or keys.now k 0 ≤ key }
    ensures above { result < length keys.now → key < get_or keys.now result 0 }
{
    let mut low = 0;
    let mut high = keys.len();
    while low < high {
        let middle = low + (high - low) / 2;
        if keys[middle] <= key {
            low = middle + 1;
        } else {
            high = middle;
        }
    }
    low
}

// The numbers, those from a place on less by so much.
fn lowered(
    alloc: Global,
    starts: &[usize],
    from: usize,
    by: usize,
) -> Result<Vec<usize>, AllocError>
    requires { from ≤ length starts.now }
    ensures { IfOk result (λ v. v.items
        ≡ take from starts.now ++ map (λ s. s - by) (drop from starts.now)) }
{
    let mut all = Vec::with_capacity(alloc, starts.len())?;
    all.extend_from_slice(&starts[..from])?;
    let rest = &starts[from..];
    for start in rest {
        all.push(start.saturating_sub(by))?;
    }
    Ok(all)
}
