//! What is kept of the keys that steps name.

ghost use Rattle.std.specs.Prelude.{◌≡◌, [], Some, OnOk, OnErr};
ghost use Rattle.zone_rows.specs.Marks.{mark_of, IsUpdated};

use std::alloc::{AllocError, Global};
use std::collections::BTreeMap;
use std::marker::Model;

/// What is kept of a key.
#[derive(Clone, Copy)]
pub(crate) struct Mark {
    /// How many rows have the key.
    pub count: usize,
    /// Of the rows with the key, those that stand before this place were taken out.
    pub cut: usize,
}

/// The marks of keys. A look-up takes no memory and does not walk the keys.
#[derive(Drop)]
pub(crate) struct Marks {
    marks: BTreeMap<Vec<u8>, Mark>,
}

impl Model for Marks {
    ghost use Rattle.std.specs.Prelude.{ℕ, List, map};
    ghost use Rattle.zone_rows.specs.declared.marks.Mark.{Mark};

    ghost Value = { List (List ℕ × Mark) };

    ghost view = { λ m. map (λ e. (e.0.items, e.1)) m.marks.entries };
}

impl Marks {
    /// No marks. It takes no memory.
    pub(crate) fn new(alloc: Global) -> Self
        ensures { result ≡ [] }
    {
        Marks {
            marks: BTreeMap::new(alloc),
        }
    }

    /// The mark of the key, if it has one.
    pub(crate) fn get(&self, key: &[u8]) -> Option<Mark>
        ensures { result ≡ mark_of self.now key.now }
    {
        self.marks.get(key).copied()
    }

    /// Gives the key this mark. An `Err` leaves the marks as they were.
    pub(crate) fn put(&mut self, key: Vec<u8>, mark: Mark) -> Result<(), AllocError>
        ensures ok { OnOk result
            (IsUpdated (mark_of self.old) key.items (Some mark) (mark_of self.new)) }
        ensures err { OnErr result (self.new ≡ self.old) }
    {
        self.marks.insert(key, mark)?;
        Ok(())
    }
}
