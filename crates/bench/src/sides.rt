//! A zone and the plain list beside it, which take the same transfers.

use crate::bench_error::BenchError;
use crate::difference::Difference;
use crate::transfers::wanted;
use crate::tried::beside;
use dns_name::Name;
use edge_io::{Source, read_frame};
use ixfr_apply::{Fed, TransferReader};
use std::alloc::{AllocError, Global};
use zone_index::Zone;
use zone_rows::{ApplyError, PlainZone, Transfer};

/// A zone, and the plain list of its rows.
pub struct Sides {
    pub zone: Zone,
    pub plain: PlainZone,
}

// Written out, as that of `Twice`, so that wherever one is dropped this is one call.
impl Drop for Sides {
    fn drop(self) {
        let Sides { zone: _, plain: _ } = self;
    }
}

/// A transfer, once for each side.
pub struct Twice {
    pub zone: Transfer,
    pub plain: Transfer,
}

impl Drop for Twice {
    fn drop(self) {
        let Twice { zone: _, plain: _ } = self;
    }
}

impl Twice {
    fn into_parts(self) -> (Transfer, Transfer) {
        let Twice { zone, plain } = self;
        (zone, plain)
    }
}

/// What a transfer comes to.
#[derive(Drop)]
pub enum Outcome {
    Taken(Sides),
    /// Both refuse it, with the same fault.
    Refused,
    /// One of them got no memory.
    OutOfMemory,
    Differs(Difference),
}

// What comes of a transfer that the zone takes, and is this then.
fn taken(zone: Zone, plain: Result<PlainZone, ApplyError>) -> Outcome {
    match plain {
        Ok(plain) => Outcome::Taken(Sides { zone, plain }),
        Err(ApplyError::OutOfMemory) => Outcome::OutOfMemory,
        Err(error) => Outcome::Differs(Difference::Outcome {
            zone: None,
            plain: Some(error),
        }),
    }
}

// What comes of a transfer that the zone refuses.
fn refused(error: ApplyError, plain: Result<PlainZone, ApplyError>) -> Outcome {
    let plain = plain.err();
    if error == ApplyError::OutOfMemory || plain == Some(ApplyError::OutOfMemory) {
        return Outcome::OutOfMemory;
    }
    if plain == Some(error) {
        return Outcome::Refused;
    }
    Outcome::Differs(Difference::Outcome {
        zone: Some(error),
        plain,
    })
}

impl Sides {
    /// Both with nothing loaded.
    pub fn new(alloc: Global) -> Result<Self, BenchError> {
        let origin = Name::from_text(alloc, b"rpz.example")?;
        let copy: Result<_, _> = origin.clone();
        let (origin, copy) = beside(origin, copy)?;
        Ok(Sides {
            zone: Zone::new(copy),
            plain: PlainZone {
                origin,
                content: None,
            },
        })
    }

    /// What both make of a transfer.
    pub fn apply(&self, alloc: Global, twice: Twice) -> Outcome {
        let (zone, plain) = twice.into_parts();
        let plain = self.plain.apply(alloc, plain);
        match self.zone.apply(alloc, zone) {
            Ok(zone) => taken(zone, plain),
            Err(error) => refused(error, plain),
        }
    }

    // A reader of what is newer than both.
    fn reader(&self, alloc: Global) -> Result<TransferReader, AllocError> {
        TransferReader::start(alloc, 0, self.zone.origin(), wanted(self.zone.serial()))
    }

    /// The next transfer. `None` where the input ends between messages, so that a transfer which is cut there isn't told from the
    /// end: the number of transfers tells it.
    pub fn next_transfer<S: Source>(
        &self,
        alloc: Global,
        source: &mut S,
    ) -> Result<Option<Twice>, BenchError> {
        let reader = self.reader(alloc)?;
        let (mut reader, mut other) = beside(reader, self.reader(alloc))?;
        read_twice(alloc, source, &mut reader, &mut other)
    }
}

// What a reader makes of a message: a transfer, if it is whole.
fn feed(reader: &mut TransferReader, message: &[u8]) -> Result<Option<Transfer>, BenchError> {
    match reader.feed(message)? {
        Fed::Done(transfer) => Ok(Some(transfer)),
        Fed::More => Ok(None),
        Fed::Current { .. } => Err(BenchError::Current),
    }
}

// The transfer once for each side.
fn for_both(zone: Transfer, plain: Option<Transfer>) -> Result<Option<Twice>, BenchError> {
    match plain {
        Some(plain) => Ok(Some(Twice { zone, plain })),
        None => Err(BenchError::Current),
    }
}

// What both readers make of a message.
fn feed_both(
    reader: &mut TransferReader,
    other: &mut TransferReader,
    message: &[u8],
) -> Result<Option<Twice>, BenchError> {
    let zone = feed(reader, message)?;
    let (zone, plain) = beside(zone, feed(other, message))?;
    match zone {
        Some(zone) => for_both(zone, plain),
        None => Ok(None),
    }
}

// Gives both readers messages of the source, until these are a transfer or the source ends.
fn read_twice<S: Source>(
    alloc: Global,
    source: &mut S,
    reader: &mut TransferReader,
    other: &mut TransferReader,
) -> Result<Option<Twice>, BenchError> {
    for _turn in 0..u64::MAX {
        let Some(message) = read_frame(alloc, source)? else {
            return Ok(None);
        };
        let twice = feed_both(reader, other, message.as_slice())?;
        if twice.is_some() {
            return Ok(twice);
        }
    }
    Err(BenchError::Ended)
}
