//! A zone, and what a transfer makes of it.

ghost use Rattle.std.specs.Prelude.{◌≡◌, option_copied, IfOk};
ghost use Rattle.zone_rows.specs.Zone.{Gives, newer_soa, fewer_rows, apply_outcome, apply_outcome_within};
ghost use Rattle.zone_rows.specs.Stepping.{whole_outcome};

use crate::fault::{ApplyError, ApplyFault};
use crate::rows::Rows;
use crate::stepping::stepped;
use crate::transfer::Transfer;
use dns_name::Name;
use dns_record::{Soa, serial_newer};
use std::alloc::Global;

/// A zone has fewer rows than this.
pub const ROW_LIMIT: u32 = 16_777_216;

/// How many zones a policy has at most.
pub const ZONE_LIMIT: usize = 64;

/// A zone: its origin, and what it holds once a transfer was taken.
#[derive(Debug, Drop)]
pub struct PlainZone {
    pub origin: Name,
    /// `None` until a transfer was taken.
    pub content: Option<Content>,
}

/// What a loaded zone holds.
#[derive(Debug, Drop)]
pub struct Content {
    pub soa: Soa,
    pub rows: Rows,
}

impl PlainZone {
    ghost use Rattle.zone_rows.specs.Distinct.{BeginsDistinct, HasDistinctRows};

    /// The zone after a transfer. A loaded zone takes no whole transfer whose serial isn't newer than its own, and
    /// has the rows of one that it takes without repeats. Steps are taken by a loaded zone alone, from its own
    /// serial on. No zone has 16,777,216 rows or more. Steps take the time of copying the rows of the zone, with two look-ups
    /// for each of them and a few for each row that the steps name, among as many keys as they name rows.
    pub fn apply(&self, alloc: Global, transfer: Transfer) -> Result<PlainZone, ApplyError>
        ensures outcome { Gives result (apply_outcome self.now transfer) }
        ensures distinct { BeginsDistinct self.now transfer → IfOk result HasDistinctRows }
    {
        self.apply_within(alloc, transfer, ROW_LIMIT)
    }

    // The zone after a transfer, where it may have fewer rows than the bound.
    #[tactic(auto, unfolding(crate::specs::Zone::apply_outcome_within))]
    pub(crate) fn apply_within(
        &self,
        alloc: Global,
        transfer: Transfer,
        bound: u32,
    ) -> Result<PlainZone, ApplyError>
        ensures { Gives result (apply_outcome_within bound self.now transfer) }
    {
        let content = match transfer {
            Transfer::Whole { soa, rows } => whole(alloc, self.content.as_ref(), soa, rows, bound)?,
            Transfer::Steps(steps) => stepped(alloc, self.content.as_ref(), steps, bound)?,
        };
        Ok(PlainZone {
            origin: self.origin.clone()?,
            content: Some(content),
        })
    }
}

// What a zone holds after a whole transfer.
fn whole(
    alloc: Global,
    content: Option<&Content>,
    soa: Soa,
    rows: Rows,
    bound: u32,
) -> Result<Content, ApplyError>
    ensures { Gives result (whole_outcome bound (option_copied content.entry) soa rows) }
{
    let soa = newer(content, soa)?;
    let rows = fewer(rows.without_repeats(alloc)?, bound)?;
    Ok(Content { soa, rows })
}

// The SOA of a transfer, which is to be newer than that of what is loaded.
fn newer(content: Option<&Content>, soa: Soa) -> Result<Soa, ApplyFault>
    ensures { result ≡ newer_soa (option_copied content.entry) soa }
{
    match content {
        Some(content) if !serial_newer(content.soa.serial, soa.serial) => {
            Err(ApplyFault::SerialNotNewer {
                ours: content.soa.serial,
                theirs: soa.serial,
            })
        }
        _ => Ok(soa),
    }
}

// The rows, of which there are to be fewer than the bound.
fn fewer(rows: Rows, bound: u32) -> Result<Rows, ApplyFault>
    ensures { result ≡ fewer_rows bound rows }
{
    if rows.len() < bound as usize {
        Ok(rows)
    } else {
        Err(ApplyFault::TooManyRows { at: bound })
    }
}
