// Clocks, and one in memory.
ghost use Rattle.std.specs.Prelude.{◌≡◌, ℕ, List, Option, Some};
ghost use Rattle.edge_io.specs.Told.{ComesNext};

use std::alloc::Global;
use std::collections::VecDeque;

/// A clock.
///
/// Of a clock in memory contracts know which seconds are still to come, and not of the system's clock.
pub trait Clock {
    /// The seconds that `now` is still to give, in order, where they are known. After the last come zeros.
    ghost moments: { Self → Option (List ℕ) };

    /// The time in seconds.
    fn now(&mut self) -> u32
        ensures { ComesNext (moments self.old) result (moments self.new) };

    /// Another clock, for another thread. What this one is still to give stays as it is; of what the other one
    /// gives nothing is said.
    fn another(&mut self) -> Self
        ensures { moments self.new ≡ moments self.old };
}

/// A clock in memory: it gives a list of seconds one after another, and zeros behind the last. Another one has
/// no list.
#[derive(Drop)]
pub struct ListClock {
    alloc: Global,
    moments: VecDeque<u32>,
}

impl ListClock {
    /// Gives these seconds, from the front.
    pub fn new(alloc: Global, moments: VecDeque<u32>) -> Self
        ensures { ⟦<ListClock as Clock>⟧.moments result ≡ Some moments.items }
    {
        ListClock { alloc, moments }
    }
}

impl Clock for ListClock {
    ghost moments = { λ clock. Some clock.moments.items };

    fn now(&mut self) -> u32 {
        match self.moments.pop_front() {
            Some(now) => now,
            None => 0,
        }
    }

    fn another(&mut self) -> Self {
        ListClock {
            alloc: self.alloc,
            moments: VecDeque::new(self.alloc),
        }
    }
}
