//! How much of the groups is in use.

/// How much may stand in groups for nothing, in numbers, whatever the number of entries.
const FEW: usize = 8_192;

/// How many entries there are, and how much stands in groups that no entry names any more, in numbers.
#[derive(Clone, Copy, Drop)]
pub(crate) struct Usage {
    entries: usize,
    idle: usize,
}

impl Usage {
    /// No entries.
    pub(crate) fn none() -> Self {
        Usage {
            entries: 0,
            idle: 0,
        }
    }

    /// With one entry more.
    pub(crate) fn with_entry(self) -> Self {
        Usage {
            entries: self.entries.saturating_add(1),
            idle: self.idle,
        }
    }

    /// Without an entry whose group takes so much, or that has none.
    pub(crate) fn without_entry(self, weight: usize) -> Self {
        Usage {
            entries: self.entries.saturating_sub(1),
            idle: self.idle.saturating_add(weight),
        }
    }

    /// Whether more stands for nothing than a few numbers, and than entries are there.
    pub(crate) fn is_thin(self) -> bool {
        self.idle > FEW && self.idle > self.entries
    }
}
