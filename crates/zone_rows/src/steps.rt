//! The steps of an incremental transfer.

ghost use Rattle.std.specs.Prelude.{◌≡◌, [], ◌∷◌, ◌++◌, length, true, OnOk, OnErr};
ghost use Rattle.dns_record.specs.Serial.{is_newer};
ghost use Rattle.zone_rows.specs.Steps.{AreSteps, ends_at};

use crate::rows::Rows;
use dns_record::Soa;
use std::alloc::{AllocError, Global};
use std::marker::Model;

/// A step from one version of a zone to the next (RFC 1995, section 4).
#[derive(Debug, Drop)]
pub struct Step {
    /// The SOA of the version that it begins with.
    pub old: Soa,
    /// The rows that it takes out.
    pub deleted: Rows,
    /// The SOA of the version that it makes.
    pub new: Soa,
    /// The rows that it puts in.
    pub added: Rows,
}

/// Steps, each of which goes forward and begins where the one before it ended. Contracts see their list.
#[derive(Debug, Drop)]
pub struct Steps {
    steps: Vec<Step>,
}

impl Model for Steps {
    ghost use Rattle.std.specs.Prelude.{List};
    ghost use Rattle.zone_rows.specs.Steps.{PlainStep, AreSteps};

    ghost Value = { List PlainStep };

    ghost view = { λ s. s.steps.items };

    ghost invariant = { λ s. AreSteps s.steps.items };
}

impl Steps {
    /// No steps. It takes no memory.
    pub fn new(alloc: Global) -> Self
        ensures { result ≡ [] }
    {
        Steps {
            steps: Vec::new(alloc),
        }
    }

    /// How many steps there are.
    pub fn len(&self) -> usize
        ensures { result ≡ length self.now }
    {
        self.steps.len()
    }

    /// The steps.
    pub fn as_slice(&self) -> &[Step]
        ensures steps { result.now ≡ self.now }
        ensures are_steps { AreSteps self.now }
    {
        self.steps.as_slice()
    }

    /// Puts a step at the end, which goes forward and begins where the last one ended. An `Err` leaves the steps as
    /// they were.
    #[tactic(auto, using(crate::proofs::Pushing::steps_push, crate::proofs::Pushing::ends_push))]
    pub fn push(&mut self, step: Step) -> Result<(), AllocError>
        requires follows { ends_at self.old step.old.serial ≡ true }
        requires newer { is_newer step.old.serial step.new.serial ≡ true }
        ensures ok { OnOk result (self.new ≡ self.old ++ step ∷ []) }
        ensures ends { OnOk result (ends_at self.new step.new.serial ≡ true) }
        ensures err { OnErr result (self.new ≡ self.old) }
    {
        self.steps.push(step)?;
        Ok(())
    }

    /// The steps as a vector, which is not copied.
    pub fn into_vec(self) -> Vec<Step>
        ensures { result.items ≡ self }
    {
        self.steps
    }
}
