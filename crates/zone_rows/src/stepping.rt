//! What a zone holds after an incremental transfer.

ghost use Rattle.std.specs.Prelude.{◌≡◌, ◌+◌, All, length, option_copied};
ghost use Rattle.zone_rows.specs.Drafts.{IsDraft, rows_of};
ghost use Rattle.zone_rows.specs.Marks.{IsStepNamed, mark_of};
ghost use Rattle.zone_rows.specs.Steps.{after_steps, first_serial, steps_outcome};
ghost use Rattle.zone_rows.specs.Zone.{Gives};

use crate::draft::Draft;
use crate::fault::{ApplyError, ApplyFault};
use crate::steps::{Step, Steps};
use crate::zone::Content;
use std::alloc::Global;

/// What a zone holds after steps, with fewer rows than the bound.
pub(crate) fn stepped(
    alloc: Global,
    content: Option<&Content>,
    steps: Steps,
    bound: u32,
) -> Result<Content, ApplyError>
    ensures { Gives result (steps_outcome bound (option_copied content.entry) steps) }
{
    let Some(content) = content else {
        return Err(ApplyError::Fault(ApplyFault::Gap {
            expected: 0,
            found: first(steps.as_slice(), 0),
        }));
    };
    let ours = content.soa.serial;
    let theirs = first(steps.as_slice(), ours);
    if steps.len() == 0 || theirs != ours {
        return Err(ApplyError::Fault(ApplyFault::Gap {
            expected: ours,
            found: theirs,
        }));
    }
    applied(alloc, content, steps.into_vec(), bound)
}

// The serial that the steps begin with, or this one.
fn first(steps: &[Step], none: u32) -> u32
    ensures { result ≡ first_serial steps.now none }
{
    match steps.first() {
        Some(step) => step.old.serial,
        None => none,
    }
}

// What a zone holds after steps that begin with its version.
fn applied(
    alloc: Global,
    content: &Content,
    steps: Vec<Step>,
    bound: u32,
) -> Result<Content, ApplyError>
    ensures { Gives result (after_steps bound 1 content.now.soa content.now.rows steps.items) }
{
    let base = &content.rows;
    let mut draft = Draft::new(alloc, base, steps.as_slice())?;
    let mut soa = content.soa.clone()?;
    let mut before = 0;
    for step in steps {
        draft.apply(alloc, base, bound, before, step.deleted, step.added)?;
        soa = step.new;
        before += 1;
    }
    Ok(Content {
        soa,
        rows: draft.into_rows(alloc, base)?,
    })
}
