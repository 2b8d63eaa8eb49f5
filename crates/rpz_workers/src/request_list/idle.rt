//! The askers that have nothing to do.

/// The askers that have nothing to do: how many sleep, or are about to, and how many of these were called and haven't come yet.
#[derive(Clone, Copy)]
pub(crate) struct Idle {
    asleep: usize,
    called: usize,
}

impl Idle {
    /// None.
    pub(crate) fn new() -> Self {
        Idle {
            asleep: 0,
            called: 0,
        }
    }

    /// One goes to sleep.
    pub(crate) fn enter(&mut self) {
        self.asleep = self.asleep.saturating_add(1);
    }

    /// One has come back, called or not. Where it wasn't, one that was called may come for nothing.
    pub(crate) fn leave(&mut self) {
        self.asleep = self.asleep.saturating_sub(1);
        self.called = self.called.saturating_sub(1);
    }

    /// Whether one more is to be called, where there are so many queries to take. It counts as called then.
    pub(crate) fn calls(&mut self, queries: usize) -> bool {
        let calls = self.called < queries && self.called < self.asleep;
        if calls {
            self.called = self.called.saturating_add(1);
        }
        calls
    }
}
