//! Records as they are written, their TTLs apart.

ghost use Rattle.std.specs.Prelude.{◌≡◌, [], ◌∷◌, ◌++◌, ◌+◌, ◌<◌, ◌≤◌, ◌^◌, IfOk, OnOk};
ghost use Rattle.dns_record.specs.Record.{IsRecord};
ghost use Rattle.dns_message.specs.Written.{lasting_octets, span_of};

use crate::alike_records::are_alike;
use crate::record_refs::{RecordRefs, RecordSpan};
use dns_name::Octets;
use dns_record::Record;
use dns_record::number::push_u16;
use std::alloc::{AllocError, Global};
use std::marker::Model;

/// Records as they are written, their names in full, with their TTLs apart, so that they are written at any age in one pass
/// over one run of octets, and read where they lie. It has no more room than they take. Contracts see which records they are.
#[derive(Debug, Drop)]
pub struct WrittenRecords {
    // All records one after another, but for their TTLs.
    octets: Octets,
    spans: Vec<RecordSpan>,
    // The records have one owner, and no names in their data are compressed.
    is_alike: bool,
}

impl Model for WrittenRecords {
    ghost use Rattle.std.specs.Prelude.{◌≡◌, List, true};
    ghost use Rattle.dns_record.specs.Record.{PlainRecord};
    ghost use Rattle.dns_message.specs.Alike.{AreAlike};
    ghost use Rattle.dns_message.specs.Written.{AreWritten, records_in};

    ghost Value = { List PlainRecord };

    ghost view = { λ w. records_in w.octets w.spans.items };

    ghost invariant = { λ w. AreWritten w.octets w.spans.items (records_in w.octets w.spans.items)
        × (w.is_alike ≡ true → AreAlike (records_in w.octets w.spans.items)) };
}

impl WrittenRecords {
    /// These records.
    pub fn of(alloc: Global, records: &[Record]) -> Result<Self, AllocError>
        ensures { IfOk result (λ written. written ≡ records.now) }
    {
        let mut octets = Octets::with_capacity(alloc, octet_room(records))?;
        let mut spans = Vec::with_capacity(alloc, records.len())?;
        for rr in records {
            push_record(&mut octets, &mut spans, rr)?;
        }
        Ok(WrittenRecords {
            octets,
            spans,
            is_alike: are_alike(records),
        })
    }

    /// The records, where they lie.
    pub fn records(&self) -> RecordRefs<'_>
        ensures { result ≡ self.now }
    {
        RecordRefs::new(self.octets.as_slice(), self.spans.as_slice(), self.is_alike)
    }
}

// How many octets the records take but for their TTLs, to make room for them.
fn octet_room(records: &[Record]) -> usize {
    let mut room: usize = 0;
    for rr in records {
        let octets = rr.owner().octets().len() + 6 + rr.rdata().len();
        room = room.saturating_add(octets);
    }
    room
}

// Writes a record at the end, its TTL apart.
#[tactic(auto, using(crate::proofs::Lasting::lasting_pieces, crate::proofs::Lasting::is_span))]
fn push_record(
    octets: &mut Octets,
    spans: &mut Vec<RecordSpan>,
    rr: &Record,
) -> Result<(), AllocError>
    ensures octets { OnOk result (octets.new ≡ octets.old ++ lasting_octets rr.now) }
    ensures spans { OnOk result (spans.new.items ≡ spans.old.items ++ span_of rr.now ∷ []) }
    ensures record { OnOk result (IsRecord rr.now) }
{
    let owner = rr.owner();
    let rdata = rr.rdata();
    owner.write(octets)?;
    push_u16(octets, rr.rtype())?;
    push_u16(octets, rr.class())?;
    push_u16(octets, rdata.len() as u16)?;
    octets.append(rdata)?;
    spans.push(span_at(owner.octets().len(), rr.ttl(), rdata.len()))?;
    Ok(())
}

// The span of a record with an owner and data of so many octets.
fn span_at(owner: usize, ttl: u32, rdata: usize) -> RecordSpan
    requires owner { owner ≤ 255 }
    requires rdata { rdata < 2 ^ 16 }
    ensures { result ≡ record { front = owner + 4; ttl = ttl; back = rdata + 2 } }
{
    RecordSpan {
        front: owner as u16 + 4,
        ttl,
        back: rdata as u32 + 2,
    }
}
