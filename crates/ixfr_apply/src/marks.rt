//! Which zones are asked for whole next.

ghost use Rattle.std.specs.Prelude.{◌≡◌, length, IfOk};
ghost use Rattle.ixfr_apply.specs.Marks.{mark_at, no_marks, with_mark};

use dns_name::Name;
use std::alloc::{AllocError, Global};
use std::marker::Model;

/// Which zones are marked, so that all of them is asked for next. Contracts see their list; the first is zone 1.
#[derive(Drop)]
pub struct Marks {
    marks: Vec<bool>,
}

impl Model for Marks {
    ghost use Rattle.std.specs.Prelude.{Bool, List};

    ghost Value = { List Bool };

    ghost view = { λ m. m.marks.items };
}

impl Marks {
    /// No zone of these origins is marked.
    pub fn new(alloc: Global, origins: &[Name]) -> Result<Self, AllocError>
        ensures { IfOk result (λ marks. marks ≡ no_marks origins.now) }
    {
        let marks = origins.iter().map(|_origin| false).collect(alloc)?;
        Ok(Marks { marks })
    }

    /// Whether the zone of this number is marked.
    pub fn get(&self, number: u32) -> bool
        ensures { result ≡ mark_at self.now number }
    {
        let place = number.saturating_sub(1) as usize;
        self.marks.get(place).copied().unwrap_or(false)
    }

    /// Marks the zone of this number, or no more.
    pub fn set(&mut self, number: u32, marked: bool)
        ensures { self.new ≡ with_mark self.old number marked }
    {
        let place = number.saturating_sub(1) as usize;
        if place < self.marks.len() {
            self.marks[place] = marked;
        }
    }
}
