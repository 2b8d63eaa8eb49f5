//! What a loaded zone holds, and what a transfer makes of it.

ghost use Rattle.std.specs.Prelude.{◌≡◌, All, map, IfOk, Some, option_copied};
ghost use Rattle.dns_record.specs.Row.{IsRow};
ghost use Rattle.zone_rows.specs.Distinct.{AreDistinct};
ghost use Rattle.zone_rows.specs.Stepping.{whole_outcome};
ghost use Rattle.zone_rows.specs.Steps.{after_steps, first_serial, steps_outcome};
ghost use Rattle.zone_rows.specs.Stored.{IsStored, plain_row};
ghost use Rattle.zone_rows.specs.Zone.{Gives, fewer_rows, newer_soa};
ghost use Rattle.zone_rows.specs.declared.zone.TheConstants.{ROW_LIMIT};
ghost use Rattle.zone_index.specs.Indexed.{GivesEdited, GivesLoaded, IsLoaded, IsLoadedIf, content_of, rows_outcome};
ghost use Rattle.zone_index.specs.Placed.{rules_in};

use crate::edit_error::EditError;
use crate::indexed::{IndexedRows, copied};
use crate::rules::Rules;
use crate::stepping::after_step;
use crate::zone::Index;
use dns_name::Name;
use dns_record::{Record, Soa, serial_newer};
use packed_lists::RowList;
use std::alloc::{AllocError, Global};
use zone_rows::laws::without_repeats_stand_the_first_rows;
use zone_rows::{
    ApplyError, ApplyFault, Content, PlainZone, ROW_LIMIT, Rows, Step, Steps, Transfer,
};

// Where numbers of rows come to this one, the rows are numbered anew: no transfer has so many that they run out before.
const LAST_NUMBER: u32 = 1 << 31;

/// What a loaded zone holds.
pub(crate) struct Loaded {
    pub(crate) soa: Soa,
    // its SOA, its origin as owner
    pub(crate) soa_record: Record,
    pub(crate) rows: IndexedRows,
}

// Written out, so that wherever one is dropped this is one call.
impl Drop for Loaded {
    fn drop(self) {
        let Loaded {
            soa: _,
            soa_record: _,
            rows: _,
        } = self;
    }
}

impl Loaded {
    // It with its record.
    fn new(alloc: Global, origin: &Name, soa: Soa, rows: IndexedRows) -> Result<Self, AllocError>
        requires { rows.origin ≡ origin.now }
        ensures loaded { IfOk result (IsLoaded origin.now) }
        ensures soa { IfOk result (λ loaded. loaded.soa ≡ soa) }
        ensures rows { IfOk result (λ loaded. loaded.rows ≡ rows) }
    {
        let soa_record = soa.record(alloc, origin.clone()?)?;
        Ok(Loaded {
            soa,
            soa_record,
            rows,
        })
    }

    // It with these rows, of which no two have one identity.
    fn of(alloc: Global, origin: &Name, soa: Soa, rows: Rows) -> Result<Self, AllocError>
        requires { AreDistinct rows }
        ensures loaded { IfOk result (IsLoaded origin.now) }
        ensures soa { IfOk result (λ loaded. loaded.soa ≡ soa) }
        ensures rows { IfOk result (λ loaded. loaded.rows.rows ≡ rows) }
    {
        let rows = IndexedRows::of(alloc, origin.clone()?, rows.into_list())?;
        Loaded::new(alloc, origin, soa, rows)
    }

    /// Its index.
    pub(crate) fn index(&self) -> Index<'_>
        ensures index { result
            ≡ record { soa_record = self.now.soa_record; rules = rules_in self.now.rows } }
        ensures rows { All IsRow self.now.rows.rows }
        ensures distinct { AreDistinct self.now.rows.rows }
    {
        let _count = self.rows.len();
        Index::new(&self.soa_record, Rules::over(&self.rows))
    }
}

// The SOA of a transfer, which is to be newer than that of what is loaded.
fn newer(loaded: Option<&Loaded>, soa: Soa) -> Result<Soa, ApplyFault>
    ensures { result ≡ newer_soa (content_of (option_copied loaded.entry)) soa }
{
    match loaded {
        Some(loaded) if !serial_newer(loaded.soa.serial, soa.serial) => {
            Err(ApplyFault::SerialNotNewer {
                ours: loaded.soa.serial,
                theirs: soa.serial,
            })
        }
        _ => Ok(soa),
    }
}

// The rows, of which there are to be fewer than the limit.
fn fewer(rows: Rows) -> Result<Rows, ApplyFault>
    ensures { result ≡ fewer_rows ROW_LIMIT rows }
{
    if rows.len() < ROW_LIMIT as usize {
        Ok(rows)
    } else {
        Err(ApplyFault::TooManyRows { at: ROW_LIMIT })
    }
}

/// What a zone holds after a whole transfer.
pub(crate) fn whole(
    alloc: Global,
    origin: &Name,
    loaded: Option<&Loaded>,
    soa: Soa,
    rows: Rows,
) -> Result<Loaded, ApplyError>
    ensures { GivesLoaded result origin.now
        (whole_outcome ROW_LIMIT (content_of (option_copied loaded.entry)) soa rows) }
{
    let soa = newer(loaded, soa)?;
    whole_rows(alloc, origin, soa, rows)
}

// The same, with this SOA.
fn whole_rows(alloc: Global, origin: &Name, soa: Soa, rows: Rows) -> Result<Loaded, ApplyError>
    ensures { GivesLoaded result origin.now (rows_outcome soa rows) }
{
    match IndexedRows::of_distinct(alloc, origin.clone()?, rows.into_list())? {
        Ok(rows) => whole_distinct(alloc, origin, soa, rows),
        Err(list) => whole_repeated(alloc, origin, soa, &list),
    }
}

// The same, where no two rows have one identity.
fn whole_distinct(
    alloc: Global,
    origin: &Name,
    soa: Soa,
    rows: IndexedRows,
) -> Result<Loaded, ApplyError>
    requires { rows.origin ≡ origin.now }
    ensures { GivesLoaded result origin.now (rows_outcome soa rows.rows) }
{
    if rows.len() < ROW_LIMIT as usize {
        Ok(Loaded::new(alloc, origin, soa, rows)?)
    } else {
        Err(ApplyError::Fault(ApplyFault::TooManyRows { at: ROW_LIMIT }))
    }
}

// The same, where some rows repeat.
fn whole_repeated(
    alloc: Global,
    origin: &Name,
    soa: Soa,
    list: &RowList,
) -> Result<Loaded, ApplyError>
    requires { All IsStored list.now.rows }
    ensures { GivesLoaded result origin.now (rows_outcome soa (map plain_row list.now.rows)) }
{
    without_repeats_stand_the_first_rows();
    let rows = fewer(copied(alloc, list)?.without_repeats(alloc)?)?;
    Ok(Loaded::of(alloc, origin, soa, rows)?)
}

// The serial that the steps begin with, or this one.
fn first(steps: &[Step], none: u32) -> u32
    ensures { result ≡ first_serial steps.now none }
{
    match steps.first() {
        Some(step) => step.old.serial,
        None => none,
    }
}

/// What a zone holds after steps.
pub(crate) fn stepped(
    alloc: Global,
    origin: &Name,
    loaded: Option<&Loaded>,
    steps: Steps,
) -> Result<Loaded, ApplyError>
    requires { IsLoadedIf origin.now (option_copied loaded) }
    ensures { GivesLoaded result origin.now
        (steps_outcome ROW_LIMIT (content_of (option_copied loaded.entry)) steps) }
{
    let Some(loaded) = loaded else {
        return Err(ApplyError::Fault(ApplyFault::Gap {
            expected: 0,
            found: first(steps.as_slice(), 0),
        }));
    };
    let ours = loaded.soa.serial;
    let theirs = first(steps.as_slice(), ours);
    if steps.len() == 0 || theirs != ours {
        return Err(ApplyError::Fault(ApplyFault::Gap {
            expected: ours,
            found: theirs,
        }));
    }
    match edited(alloc, origin, loaded, steps.as_slice()) {
        Ok(new) => Ok(new),
        Err(EditError::OutOfMemory) => Err(ApplyError::OutOfMemory),
        Err(EditError::Fault(fault)) => Err(ApplyError::Fault(fault)),
        Err(EditError::TooMuchWork) => made_anew(alloc, origin, loaded, steps),
    }
}

// What a zone holds after steps that begin with its version, by edits.
fn edited(
    alloc: Global,
    origin: &Name,
    loaded: &Loaded,
    steps: &[Step],
) -> Result<Loaded, EditError>
    requires { IsLoaded origin.now loaded.now }
    ensures { GivesEdited result origin.now
        (after_steps ROW_LIMIT 1 loaded.now.soa loaded.now.rows.rows steps.now) }
{
    let limit = edit_limit(loaded.rows.len());
    let mut rows = loaded.rows.share()?;
    let mut soa = &loaded.soa;
    let mut before = 0;
    for step in steps {
        rows = after_step(alloc, rows, ROW_LIMIT, limit, before, step)?;
        soa = &step.new;
        before += 1;
    }
    match finished(alloc, origin, soa, rows) {
        Ok(new) => Ok(new),
        Err(AllocError) => Err(EditError::OutOfMemory),
    }
}

// What edits have made, with this SOA.
fn finished(
    alloc: Global,
    origin: &Name,
    soa: &Soa,
    rows: IndexedRows,
) -> Result<Loaded, AllocError>
    requires { rows.origin ≡ origin.now }
    ensures loaded { IfOk result (IsLoaded origin.now) }
    ensures soa { IfOk result (λ loaded. loaded.soa ≡ soa.now) }
    ensures rows { IfOk result (λ loaded. loaded.rows ≡ rows) }
{
    let rows = rows.compacted(alloc, LAST_NUMBER)?;
    Loaded::new(alloc, origin, soa.clone()?, rows)
}

// How much work edits may be in a zone of so many rows: about that of making it anew.
fn edit_limit(rows: usize) -> usize {
    rows.saturating_mul(8).saturating_add(65_536)
}

// What steps make of the content of a zone, applied to all of its rows.
fn plain_after(
    alloc: Global,
    origin: Name,
    content: Content,
    steps: Steps,
) -> Result<Content, ApplyError>
    requires { AreDistinct content.rows }
    ensures outcome { Gives result (steps_outcome ROW_LIMIT (Some content) steps) }
    ensures distinct { IfOk result (λ content. AreDistinct content.rows) }
{
    let zone = PlainZone {
        origin,
        content: Some(content),
    };
    match zone.apply(alloc, Transfer::Steps(steps)) {
        Err(error) => Err(error),
        Ok(PlainZone { origin: _, content }) => match content {
            None => unreachable!(),
            Some(content) => Ok(content),
        },
    }
}

// The SOA, copied.
fn copied_soa(soa: &Soa) -> Result<Soa, AllocError>
    ensures { IfOk result (λ other. other ≡ soa.now) }
{
    soa.clone()
}

// What a zone holds after steps, with an index made anew.
fn made_anew(
    alloc: Global,
    origin: &Name,
    loaded: &Loaded,
    steps: Steps,
) -> Result<Loaded, ApplyError>
    ensures { GivesLoaded result origin.now
        (steps_outcome ROW_LIMIT (content_of (Some loaded.now)) steps) }
{
    // called for its clause: no two rows have one identity
    let _count = loaded.rows.len();
    let rows = loaded.rows.to_rows(alloc)?;
    let soa = copied_soa(&loaded.soa)?;
    let content = Content { soa, rows };
    let Content { soa, rows } = plain_after(alloc, origin.clone()?, content, steps)?;
    Ok(Loaded::of(alloc, origin, soa, rows)?)
}
