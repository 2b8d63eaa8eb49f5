//! What stands at a place, lent.

use crate::does::DoesRef;
use crate::numbers::Numbers;

// How many numbers of four octets a row takes that a group keeps as an answer, or a few more.
const ROW: usize = 16;

/// What stands at a place, lent.
#[derive(Drop)]
pub struct EntryRef<'a> {
    /// The numbers of its rows.
    pub numbers: Numbers<'a>,
    /// What they do.
    pub does: DoesRef<'a>,
}

impl<'a> EntryRef<'a> {
    // How much its group takes, in numbers; nothing where it has none.
    pub(crate) fn weight(&self) -> usize {
        let numbers = self.numbers.in_group();
        match &self.does {
            DoesRef::Rows(_) => numbers.saturating_mul(ROW),
            _ => numbers,
        }
    }
}
