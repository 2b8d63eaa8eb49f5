//! The rows of a zone while steps are applied to it.

ghost use Rattle.std.specs.Prelude.{◌≡◌, ◌+◌, ◌-◌, ◌++◌, ◌<◌, ◌^◌, All, Some, length, IfErr, IfOk, IfSome, OnOk};
ghost use Rattle.std.specs.Option.{option_map};
ghost use Rattle.dns_record.specs.Row.{identity};
ghost use Rattle.zone_rows.specs.declared.fault.ApplyError.TheVariants.{OutOfMemory};
ghost use Rattle.zone_rows.specs.Drafts.{IsDraft, Leaves, one_added, one_deleted, rows_of, step_outcome};
ghost use Rattle.zone_rows.specs.Marks.{AreFresh, AreMarks, AreNamed, HasNamed, IsNamed, IsStepNamed, IsUpdated, SameNames, cut_of, live_from, mark_of, one_more};
ghost use Rattle.zone_rows.specs.Steps.{without_deleted, with_added};

use crate::fault::{ApplyError, ApplyFault};
use crate::marks::{Mark, Marks};
use crate::row_ref::RowRef;
use crate::rows::Rows;
use crate::steps::Step;
use dns_name::Octets;
use std::alloc::{AllocError, Global};

/// The rows of a zone while steps are applied to it: those that it had, and behind them those that were put in. None is moved
/// when rows are taken out: the mark of their identity then says up to which place they are gone. So a step takes as many
/// look-ups as it names rows, however many the zone has, and rows that repeat need no care.
#[derive(Drop)]
pub(crate) struct Draft {
    // of the identities that the steps name
    marks: Marks,
    added: Rows,
    // how many rows are left
    live: usize,
}

impl Draft {
    /// The rows as the zone has them, with marks of the rows that the steps name.
    pub(crate) fn new(alloc: Global, base: &Rows, steps: &[Step]) -> Result<Self, AllocError>
        ensures draft { IfOk result (IsDraft base.now) }
        ensures rows { IfOk result (λ draft. rows_of base.now draft ≡ base.now) }
        ensures named { IfOk result (λ draft. All (IsStepNamed (mark_of draft.marks)) steps.now) }
    {
        let mut marks = named(alloc, steps)?;
        count_rows(alloc, &mut marks, base)?;
        Ok(Draft {
            marks,
            added: Rows::new(alloc),
            live: base.len(),
        })
    }

    // Takes out the rows of this one's identity. Steps and rows are counted from 0 on.
    fn delete(
        &mut self,
        alloc: Global,
        base: &Rows,
        step: usize,
        place: usize,
        row: &RowRef<'_>,
    ) -> Result<(), ApplyError>
        requires draft { IsDraft base.now self.old }
        requires named { IsNamed (mark_of self.old.marks) (identity row.now) }
        ensures { Leaves result base.now self.old self.new
            (one_deleted (step + 1) (place + 1) (rows_of base.now self.old) row.now) }
    {
        let key = row.identity(alloc)?;
        match self.marks.get(key.as_slice()) {
            Some(mark) if mark.count > 0 => {
                let cut = base.len() + self.added.len();
                self.marks.put(key, Mark { count: 0, cut })?;
                self.live -= mark.count;
                Ok(())
            }
            _ => Err(ApplyError::Fault(ApplyFault::DeleteAbsent {
                step: number(step)?,
                row: number(place)?,
            })),
        }
    }

    // Puts the row in at the end. Steps and rows are counted from 0 on.
    fn add(
        &mut self,
        alloc: Global,
        base: &Rows,
        bound: u32,
        step: usize,
        place: usize,
        row: &RowRef<'_>,
    ) -> Result<(), ApplyError>
        requires draft { IsDraft base.now self.old }
        requires named { IsNamed (mark_of self.old.marks) (identity row.now) }
        ensures { Leaves result base.now self.old self.new
            (one_added bound (step + 1) (place + 1) (rows_of base.now self.old) row.now) }
    {
        let key = row.identity(alloc)?;
        match self.marks.get(key.as_slice()) {
            Some(mark) if mark.count == 0 => {
                if self.live >= bound.saturating_sub(1) as usize {
                    return Err(ApplyError::Fault(ApplyFault::TooManyRows { at: bound }));
                }
                self.marks.put(
                    key,
                    Mark {
                        count: 1,
                        cut: mark.cut,
                    },
                )?;
                self.added.push_ref(row)?;
                self.live += 1;
                Ok(())
            }
            _ => Err(ApplyError::Fault(ApplyFault::AddPresent {
                step: number(step)?,
                row: number(place)?,
            })),
        }
    }

    // Takes out the rows, one after another.
    fn delete_all(
        &mut self,
        alloc: Global,
        base: &Rows,
        step: usize,
        rows: &Rows,
    ) -> Result<(), ApplyError>
        requires draft { IsDraft base.now self.old }
        requires named { AreNamed (mark_of self.old.marks) rows.now }
        ensures { Leaves result base.now self.old self.new
            (without_deleted (step + 1) 1 (rows_of base.now self.old) rows.now) }
    {
        for place in 0..rows.len() {
            self.delete(alloc, base, step, place, &rows.at(place))?;
        }
        Ok(())
    }

    // Puts the rows in at the end, one after another.
    fn add_all(
        &mut self,
        alloc: Global,
        base: &Rows,
        bound: u32,
        step: usize,
        rows: &Rows,
    ) -> Result<(), ApplyError>
        requires draft { IsDraft base.now self.old }
        requires named { AreNamed (mark_of self.old.marks) rows.now }
        ensures { Leaves result base.now self.old self.new
            (with_added bound (step + 1) 1 (rows_of base.now self.old) rows.now) }
    {
        for place in 0..rows.len() {
            self.add(alloc, base, bound, step, place, &rows.at(place))?;
        }
        Ok(())
    }

    /// Applies a step, of which this many came before.
    pub(crate) fn apply(
        &mut self,
        alloc: Global,
        base: &Rows,
        bound: u32,
        step: usize,
        deleted: Rows,
        added: Rows,
    ) -> Result<(), ApplyError>
        requires draft { IsDraft base.now self.old }
        requires deleted { AreNamed (mark_of self.old.marks) deleted }
        requires added { AreNamed (mark_of self.old.marks) added }
        ensures { Leaves result base.now self.old self.new
            (step_outcome bound (step + 1) (rows_of base.now self.old) deleted added) }
    {
        self.delete_all(alloc, base, step, &deleted)?;
        self.add_all(alloc, base, bound, step, &added)
    }

    /// The rows that were not taken out.
    pub(crate) fn into_rows(self, alloc: Global, base: &Rows) -> Result<Rows, AllocError>
        ensures { IfOk result (λ rows. rows ≡ rows_of base.now self) }
    {
        let Draft {
            marks,
            added,
            live: _,
        } = self;
        let mut rows = Rows::new(alloc);
        keep(alloc, &marks, 0, base, &mut rows)?;
        keep(alloc, &marks, base.len(), &added, &mut rows)?;
        Ok(rows)
    }
}

// The number of a step or a row, of which so many came before. A number of 2^32 or more doesn't fit a fault: so many rows
// take more than 100 GB, and the answer is that memory ran out.
fn number(before: usize) -> Result<u32, ApplyError>
    ensures number { IfOk result (λ number. number ≡ before + 1) }
    ensures err { IfErr result (λ error. error ≡ OutOfMemory) }
{
    match u32::try_from(before) {
        Ok(before) if before < u32::MAX => Ok(before + 1),
        _ => Err(ApplyError::OutOfMemory),
    }
}

// Gives the identity of the row a mark.
fn name_row(alloc: Global, marks: &mut Marks, row: &RowRef<'_>) -> Result<(), AllocError>
    ensures { OnOk result (IsUpdated (mark_of marks.old) (identity row.now)
        (Some (record { count = 0; cut = 0 })) (mark_of marks.new)) }
{
    let key = row.identity(alloc)?;
    marks.put(key, Mark { count: 0, cut: 0 })
}

// Gives the identities of the rows marks.
fn name_rows(alloc: Global, marks: &mut Marks, rows: &Rows) -> Result<(), AllocError>
    ensures { OnOk result (HasNamed (mark_of marks.old) (mark_of marks.new) rows.now) }
{
    for place in 0..rows.len() {
        name_row(alloc, marks, &rows.at(place))?;
    }
    Ok(())
}

// Marks of the rows that the steps name.
fn named(alloc: Global, steps: &[Step]) -> Result<Marks, AllocError>
    ensures fresh { IfOk result (λ marks. AreFresh (mark_of marks)) }
    ensures named { IfOk result (λ marks. All (IsStepNamed (mark_of marks)) steps.now) }
{
    let mut marks = Marks::new(alloc);
    for step in steps {
        name_rows(alloc, &mut marks, &step.deleted)?;
        name_rows(alloc, &mut marks, &step.added)?;
    }
    Ok(marks)
}

// Writes the identity of the row in place of what the key was. One buffer for many rows takes few allocations.
fn write_key(row: &RowRef<'_>, key: &mut Octets) -> Result<(), AllocError>
    ensures { OnOk result (key.new ≡ identity row.now) }
{
    key.clear();
    row.write_identity(key)
}

// Counts a row where its identity has a mark.
fn count_row(
    alloc: Global,
    marks: &mut Marks,
    key: &mut Octets,
    row: &RowRef<'_>,
) -> Result<(), AllocError>
    requires { IfSome (mark_of marks.old (identity row.now)) (λ mark. mark.count < 2 ^ 64 - 1) }
    ensures { OnOk result (IsUpdated (mark_of marks.old) (identity row.now)
        (option_map one_more (mark_of marks.old (identity row.now))) (mark_of marks.new)) }
{
    write_key(row, key)?;
    match marks.get(key.as_slice()) {
        Some(mark) => marks.put(
            Vec::from_slice(alloc, key.as_slice())?,
            Mark {
                count: mark.count + 1,
                cut: mark.cut,
            },
        ),
        None => Ok(()),
    }
}

// Counts the rows whose identities have marks.
fn count_rows(alloc: Global, marks: &mut Marks, base: &Rows) -> Result<(), AllocError>
    requires { AreFresh (mark_of marks.old) }
    ensures marks { OnOk result (AreMarks (mark_of marks.new) base.now (length base.now)) }
    ensures rows { OnOk result (live_from (mark_of marks.new) 0 base.now ≡ base.now) }
    ensures names { OnOk result (SameNames (mark_of marks.old) (mark_of marks.new)) }
{
    let mut key = Octets::new(alloc);
    for place in 0..base.len() {
        count_row(alloc, marks, &mut key, &base.at(place))?;
    }
    Ok(())
}

// Up to which place the rows of this one's identity were taken out.
fn cut(marks: &Marks, key: &mut Octets, row: &RowRef<'_>) -> Result<usize, AllocError>
    ensures { IfOk result (λ cut. cut ≡ cut_of (mark_of marks.now) row.now) }
{
    write_key(row, key)?;
    match marks.get(key.as_slice()) {
        Some(mark) => Ok(mark.cut),
        None => Ok(0),
    }
}

// Copies the rows, of which so many others stand before, without those that were taken out.
fn keep(
    alloc: Global,
    marks: &Marks,
    before: usize,
    slots: &Rows,
    rows: &mut Rows,
) -> Result<(), AllocError>
    requires { before < 2 ^ 32 }
    ensures { OnOk result
        (rows.new ≡ rows.old ++ live_from (mark_of marks.now) before slots.now) }
{
    let mut key = Octets::new(alloc);
    for place in 0..slots.len() {
        let row = slots.at(place);
        if before + place >= cut(marks, &mut key, &row)? {
            rows.push_ref(&row)?;
        }
    }
    Ok(())
}
