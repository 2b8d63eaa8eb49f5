//! The records of a transfer so far, by its form.

ghost use Rattle.std.specs.Prelude.{◌≡◌, ◌≢◌, ◌∷◌, [], None, Err, OnErr, OnOk, is_some, option_map};
ghost use Rattle.axfr_apply.specs.Block.{transfer_of};
ghost use Rattle.axfr_apply.specs.Gathered.{AreOpenSteps, Goes, IsClosedOr, adding_blocks, deleting_blocks, with_row};
ghost use Rattle.axfr_apply.specs.Reading.{soa_block, behind_step_fault, forward_fault, later_soa_fault, soa_end};
ghost use Rattle.axfr_apply.specs.Block as form;

use crate::fault::TransferError;
use crate::serials::{check_begin, check_behind_step, check_close, check_forward, is_current};
use crate::stepping::{Adding, Deleting};
use crate::transfer_request::Wanted;
use dns_record::{Row, Soa};
use std::alloc::{AllocError, Global};
use std::marker::Model;
use zone_rows::{Rows, Steps, Transfer};

/// The records of a transfer so far, by its form. Contracts see each SOA record with the rows behind it.
#[derive(Debug, Drop)]
pub struct Gathered {
    form: Form,
}

/// What the records are.
#[derive(Debug, Drop)]
pub(crate) enum Form {
    /// There is none yet.
    Nothing,
    /// The first SOA, and rows.
    Whole { soa: Soa, rows: Rows },
    /// The same with the SOA that closes the zone.
    ClosedWhole { soa: Soa, rows: Rows, last: Soa },
    /// The first SOA, and steps, of which the last is taking rows out.
    Deleting { soa: Soa, step: Deleting },
    /// The same, where the last step is putting rows in.
    Adding { soa: Soa, step: Adding },
    /// The first SOA, and steps to its version, with the SOA that closes them.
    ClosedSteps { soa: Soa, steps: Steps, last: Soa },
}

impl Model for Gathered {
    ghost use Rattle.std.specs.Prelude.{List};
    ghost use Rattle.axfr_apply.specs.Block.{Block};

    ghost Value = { List Block };

    ghost use Rattle.axfr_apply.specs.Gathered.{IsForm, blocks_in};

    ghost view = { λ g. blocks_in g.form };

    ghost invariant = { λ g. IsForm g.form };
}

/// What a SOA is to a transfer.
#[derive(Debug, Drop)]
pub enum NextSoa {
    /// It goes on.
    On(Gathered),
    /// We are current: the first SOA has this serial.
    Current(u32),
}

/// What there is at the end of a message.
#[derive(Debug, Drop)]
pub enum AtEnd {
    /// The transfer is whole.
    Done(Transfer),
    /// More is to come.
    Open(Gathered),
}

impl Gathered {
    /// There is no record yet. It takes no memory.
    pub fn new() -> Self
        ensures { result ≡ [] }
    {
        Gathered {
            form: Form::Nothing,
        }
    }

    /// Whether there is no record yet.
    pub fn is_empty(&self) -> bool
        ensures { result ≡ form.is_empty self.now }
    {
        match &self.form {
            Form::Nothing => true,
            _ => false,
        }
    }

    /// Whether the SOA that closes the transfer has come.
    pub fn is_closed(&self) -> bool
        ensures { result ≡ is_some (transfer_of self.now) }
    {
        match &self.form {
            Form::ClosedWhole { .. } | Form::ClosedSteps { .. } => true,
            _ => false,
        }
    }

    /// Puts a row behind the last SOA, where there is one and the transfer isn't closed. An `Err` leaves what there is.
    pub fn push(&mut self, row: Row) -> Result<(), AllocError>
        requires begun { self.old ≢ [] }
        requires open { transfer_of self.old ≡ None }
        ensures ok { OnOk result (self.new ≡ with_row self.old row) }
        ensures err { OnErr result (self.new ≡ self.old) }
    {
        match &mut self.form {
            Form::Whole { rows, .. } => rows.push(row)?,
            Form::Deleting { step, .. } => step.push(row)?,
            Form::Adding { step, .. } => step.push(row)?,
            Form::Nothing | Form::ClosedWhole { .. } | Form::ClosedSteps { .. } => unreachable!(),
        }
        Ok(())
    }

    /// What the next SOA is, where the transfer isn't closed: `alone` is whether it is the only answer record of its message.
    pub fn next_soa(
        self,
        alloc: Global,
        wanted: Wanted,
        alone: bool,
        next: Soa,
    ) -> Result<NextSoa, TransferError>
        requires { transfer_of self ≡ None }
        ensures { Goes result self next (soa_end wanted alone self next) }
    {
        match self.form {
            Form::Nothing => first_soa(alloc, wanted, alone, next),
            Form::Whole { soa, rows } => second_soa(alloc, wanted, soa, rows, next),
            Form::Deleting { soa, step } => new_version(alloc, soa, step, next),
            Form::Adding { soa, step } => behind_step(alloc, soa, step, next),
            Form::ClosedWhole { .. } | Form::ClosedSteps { .. } => unreachable!(),
        }
    }

    /// The transfer, once the SOA that closes it has come.
    pub fn into_transfer(self) -> AtEnd
        ensures { IsClosedOr result self (transfer_of self) }
    {
        match self.form {
            Form::ClosedWhole { soa, rows, .. } => AtEnd::Done(Transfer::Whole { soa, rows }),
            Form::ClosedSteps { steps, .. } => AtEnd::Done(Transfer::Steps(steps)),
            form => AtEnd::Open(Gathered { form }),
        }
    }
}

// The first SOA.
fn first_soa(
    alloc: Global,
    wanted: Wanted,
    alone: bool,
    next: Soa,
) -> Result<NextSoa, TransferError>
    ensures { Goes result [] next (soa_end wanted alone [] next) }
{
    if is_current(wanted, alone, next.serial)? {
        return Ok(NextSoa::Current(next.serial));
    }
    Ok(NextSoa::On(Gathered {
        form: Form::Whole {
            soa: next,
            rows: Rows::new(alloc),
        },
    }))
}

// A SOA behind the first one and these rows: it closes the zone, or begins the first step.
fn second_soa(
    alloc: Global,
    wanted: Wanted,
    soa: Soa,
    rows: Rows,
    next: Soa,
) -> Result<NextSoa, TransferError>
    ensures { Goes result (record { soa = soa; rows = rows } ∷ []) next
        (option_map Err (later_soa_fault wanted (record { soa = soa; rows = rows }) [] next)) }
{
    match wanted {
        Wanted::Newer { have } if rows.len() == 0 && next.serial != soa.serial => {
            drop(rows);
            check_begin(have, next.serial)?;
            let step = Deleting::new(alloc, Steps::new(alloc), next);
            Ok(NextSoa::On(Gathered {
                form: Form::Deleting { soa, step },
            }))
        }
        _ => {
            check_close(soa.serial, next.serial)?;
            Ok(NextSoa::On(Gathered {
                form: Form::ClosedWhole {
                    soa,
                    rows,
                    last: next,
                },
            }))
        }
    }
}

// The SOA of the version that a step makes.
fn new_version(alloc: Global, soa: Soa, step: Deleting, next: Soa) -> Result<NextSoa, TransferError>
    requires { AreOpenSteps soa (deleting_blocks step) }
    ensures { Goes result (soa_block soa ∷ deleting_blocks step) next
        (option_map Err (forward_fault step.from.serial next.serial)) }
{
    check_forward(step.from_serial(), next.serial)?;
    let step = Adding::new(alloc, step, next);
    Ok(NextSoa::On(Gathered {
        form: Form::Adding { soa, step },
    }))
}

// The SOA behind a step: it closes the transfer, or begins the next step.
fn behind_step(alloc: Global, soa: Soa, step: Adding, next: Soa) -> Result<NextSoa, TransferError>
    requires { AreOpenSteps soa (adding_blocks step) }
    ensures { Goes result (soa_block soa ∷ adding_blocks step) next
        (option_map Err (behind_step_fault soa.serial step.to.serial next.serial)) }
{
    let (newest, new) = (soa.serial, step.to_serial());
    check_behind_step(newest, new, next.serial)?;
    let steps = step.finish()?;
    let form = if new == newest {
        Form::ClosedSteps {
            soa,
            steps,
            last: next,
        }
    } else {
        let step = Deleting::new(alloc, steps, next);
        Form::Deleting { soa, step }
    };
    Ok(NextSoa::On(Gathered { form }))
}
