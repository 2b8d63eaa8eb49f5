//! A step of an incremental transfer while its rows come, behind the steps before it.

ghost use Rattle.std.specs.Prelude.{◌≡◌, ◌∷◌, [], ◌++◌, true, IfOk, OnErr, OnOk};
ghost use Rattle.dns_record.specs.Serial.{is_newer};
ghost use Rattle.zone_rows.specs.Steps.{PlainStep, ends_at};
ghost use Rattle.axfr_apply.specs.Stepping.{PlainAdding, PlainDeleting, step_of};

use dns_record::{Row, Soa};
use std::alloc::{AllocError, Global};
use std::marker::Model;
use zone_rows::{Rows, Step, Steps};

/// A step that takes rows out, behind others of which the last ends at the version that it begins with.
#[derive(Debug, Drop)]
pub(crate) struct Deleting {
    steps: Steps,
    from: Soa,
    deleted: Rows,
}

impl Model for Deleting {
    ghost use Rattle.std.specs.Prelude.{◌≡◌, true};
    ghost use Rattle.zone_rows.specs.Steps.{ends_at};
    ghost use Rattle.axfr_apply.specs.Stepping.{PlainDeleting};

    ghost Value = { PlainDeleting };

    ghost view = { λ s. record { steps = s.steps; from = s.from; deleted = s.deleted } };

    ghost invariant = { λ s. ends_at s.steps s.from.serial ≡ true };
}

/// A step that puts rows in, behind others, and once it has taken rows out.
#[derive(Debug, Drop)]
pub(crate) struct Adding {
    before: Deleting,
    to: Soa,
    added: Rows,
}

impl Model for Adding {
    ghost use Rattle.std.specs.Prelude.{◌≡◌, true};
    ghost use Rattle.dns_record.specs.Serial.{is_newer};
    ghost use Rattle.axfr_apply.specs.Stepping.{PlainAdding};

    ghost Value = { PlainAdding };

    ghost view = { λ s. record { before = s.before; to = s.to; added = s.added } };

    ghost invariant = { λ s. is_newer s.before.from.serial s.to.serial ≡ true };
}

impl Deleting {
    /// A step that begins with this version, behind steps that end at it.
    pub(crate) fn new(alloc: Global, steps: Steps, from: Soa) -> Self
        requires { ends_at steps from.serial ≡ true }
        ensures { result ≡ record { steps = steps; from = from; deleted = [] } }
    {
        Deleting {
            steps,
            from,
            deleted: Rows::new(alloc),
        }
    }

    /// The serial of the version that the step begins with.
    pub(crate) fn from_serial(&self) -> u32
        ensures { result ≡ self.now.from.serial }
    {
        self.from.serial
    }

    /// Puts a row behind those that are taken out. An `Err` leaves them as they were.
    pub(crate) fn push(&mut self, row: Row) -> Result<(), AllocError>
        ensures ok { OnOk result (self.new
            ≡ record {
              steps = self.old.steps;
              from = self.old.from;
              deleted = self.old.deleted ++ row ∷ [];
            }) }
        ensures err { OnErr result (self.new ≡ self.old) }
    {
        self.deleted.push(row)
    }
}

impl Adding {
    /// The step that makes this version, which is newer.
    pub(crate) fn new(alloc: Global, before: Deleting, to: Soa) -> Self
        requires { is_newer before.from.serial to.serial ≡ true }
        ensures { result ≡ record { before = before; to = to; added = [] } }
    {
        Adding {
            before,
            to,
            added: Rows::new(alloc),
        }
    }

    /// The serial of the version that the step makes.
    pub(crate) fn to_serial(&self) -> u32
        ensures { result ≡ self.now.to.serial }
    {
        self.to.serial
    }

    /// Puts a row behind those that are put in. An `Err` leaves them as they were.
    pub(crate) fn push(&mut self, row: Row) -> Result<(), AllocError>
        ensures ok { OnOk result (self.new
            ≡ record {
              before = self.old.before;
              to = self.old.to;
              added = self.old.added ++ row ∷ [];
            }) }
        ensures err { OnErr result (self.new ≡ self.old) }
    {
        self.added.push(row)
    }

    /// The steps with this one behind the others.
    pub(crate) fn finish(self) -> Result<Steps, AllocError>
        ensures steps { IfOk result (λ steps. steps ≡ self.before.steps ++ step_of self ∷ []) }
        ensures ends { IfOk result (λ steps. ends_at steps self.to.serial ≡ true) }
    {
        let Adding { before, to, added } = self;
        let Deleting {
            mut steps,
            from,
            deleted,
        } = before;
        steps.push(Step {
            old: from,
            deleted,
            new: to,
            added,
        })?;
        Ok(steps)
    }
}
