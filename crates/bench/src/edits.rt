//! `bench edits`: a zone takes transfers beside a plain list of its rows, and is compared with it after each.
//!
//! It reads transfers of the zone rpz.example from standard input, as `transfers` does, and puts each into a `Zone` and into a
//! `PlainZone`. Both must take it, or refuse it with the same fault, and have the same serial and number of rows then; and for each
//! trigger that the transfer names the zone's rule must do what the live rows of the trigger do that are in the plain list. Behind
//! each eighth transfer, and behind whole ones, this is asked of all triggers that were named so far, and of the version before the
//! transfer, too, which must be what it was. It ends with the first difference, or prints how many transfers there were, how many of
//! them were refused, how many rules were compared, and how many rows there are at the end. Where memory runs out in a transfer, the
//! version before it must be what it was, and the run ends with that.

use crate::bench_error::BenchError;
use crate::comparing::first_difference;
use crate::difference::Difference;
use crate::plain_rules::{named_in, put_new};
use crate::sides::{Outcome, Sides, Twice};
use edge_io::Source;
use std::alloc::Global;
use std::mem;
use trigger_codec::Trigger;
use zone_rows::Transfer;

// Behind each so many transfers all triggers are looked at.
const PERIOD: u64 = 8;

// What became of a transfer.
#[derive(Drop)]
enum Applied {
    // with the version before it
    Taken(Sides),
    Refused,
    OutOfMemory,
}

impl Applied {
    fn before(self) -> Option<Sides> {
        match self {
            Applied::Taken(before) => Some(before),
            Applied::Refused | Applied::OutOfMemory => None,
        }
    }
}

// How far the comparison has come.
#[derive(Drop)]
struct Trial {
    sides: Sides,
    // all triggers that were named, each once
    known: Vec<Trigger>,
    transfers: u64,
    refused: u64,
    comparisons: u64,
}

impl Trial {
    fn new(alloc: Global) -> Result<Self, BenchError> {
        Ok(Trial {
            sides: Sides::new(alloc)?,
            known: Vec::new(alloc),
            transfers: 0,
            refused: 0,
            comparisons: 0,
        })
    }

    // That is an error which differs; else so many rules are the same.
    fn count(&mut self, difference: Option<Difference>, rules: usize) -> Result<(), BenchError> {
        match difference {
            Some(difference) => Err(BenchError::Differs {
                transfer: self.transfers,
                difference,
            }),
            None => {
                self.comparisons = self.comparisons.saturating_add(rules as u64);
                Ok(())
            }
        }
    }

    // Applies a transfer.
    fn apply(&mut self, alloc: Global, twice: Twice) -> Result<Applied, BenchError> {
        match self.sides.apply(alloc, twice) {
            Outcome::Taken(new) => Ok(Applied::Taken(mem::replace(&mut self.sides, new))),
            Outcome::Refused => {
                self.refused = self.refused.saturating_add(1);
                Ok(Applied::Refused)
            }
            Outcome::OutOfMemory => Ok(Applied::OutOfMemory),
            Outcome::Differs(difference) => {
                self.count(Some(difference), 0)?;
                Ok(Applied::Refused)
            }
        }
    }

    // Compares the rules of all triggers, also those of the version before, if there is one.
    fn compare_all(&mut self, alloc: Global, before: Option<Sides>) -> Result<(), BenchError> {
        let rules = self.known.len();
        if let Some(before) = before {
            let difference = first_difference(alloc, &before, self.known.as_slice())?;
            self.count(difference, rules)?;
        }
        let difference = first_difference(alloc, &self.sides, self.known.as_slice())?;
        self.count(difference, rules)
    }

    // Compares the rules of these triggers.
    fn compare(&mut self, alloc: Global, triggers: &[Trigger]) -> Result<(), BenchError> {
        let difference = first_difference(alloc, &self.sides, triggers)?;
        self.count(difference, triggers.len())
    }

    // Takes a transfer, and compares. Says whether there was memory for it.
    fn take(&mut self, alloc: Global, twice: Twice) -> Result<bool, BenchError> {
        self.transfers = self.transfers.saturating_add(1);
        let is_whole = matches!(&twice.plain, Transfer::Whole { .. });
        let named = named_in(alloc, &twice.plain, &self.sides.plain.origin)?;
        let applied = self.apply(alloc, twice)?;
        let had_memory = !matches!(&applied, Applied::OutOfMemory);
        if is_whole || self.transfers % PERIOD == 0 || !had_memory {
            put_new(&mut self.known, named)?;
            self.compare_all(alloc, applied.before())?;
        } else {
            self.compare(alloc, named.as_slice())?;
            put_new(&mut self.known, named)?;
        }
        Ok(had_memory)
    }

    // Takes all transfers of the source. Says whether there was memory for them.
    fn take_all<S: Source>(&mut self, alloc: Global, source: &mut S) -> Result<bool, BenchError> {
        for _turn in 0..u64::MAX {
            let Some(twice) = self.sides.next_transfer(alloc, source)? else {
                break;
            };
            if !self.take(alloc, twice)? {
                return Ok(false);
            }
        }
        Ok(true)
    }
}

/// Applies the transfers of the input, and compares behind each.
pub fn run<R: Print, S: Source>(rt: &R, alloc: Global, source: &mut S) -> Result<(), BenchError> {
    let mut trial = Trial::new(alloc)?;
    if !trial.take_all(alloc, source)? {
        println!(rt;
            "out of memory in transfer {} comparisons {}",
            trial.transfers, trial.comparisons
        )?;
        return Ok(());
    }
    let rows = trial.sides.zone.row_count().ok_or(BenchError::Empty)?;
    println!(rt;
        "transfers {} refused {} comparisons {} rows {rows}",
        trial.transfers, trial.refused, trial.comparisons
    )?;
    Ok(())
}
