//! Records that lie in octets of others, one after another.

ghost use Rattle.std.specs.Prelude.{◌≡◌, [], ◌+◌, ◌-◌, ◌≤◌, true, length, take, drop, IfSome};
ghost use Rattle.std.specs.List.{AllByRecursion, flat_map};
ghost use Rattle.dns_name.specs.Wire.{IsWire, labels_in};
ghost use Rattle.dns_message.specs.Alike.{AreAlike, IsAlike};
ghost use Rattle.dns_message.specs.Written.{AreWritten, BeginsRecord, first_in, lasting_octets, records_in};

use dns_record::RecordRef;
use dns_record::number::u16_at;
use std::marker::Model;

/// Where a record stands: how many octets stand before its TTL (the owner, the type and the class), the TTL, and how many stand
/// behind it (the length and the data).
#[derive(Debug, Clone, Copy)]
pub(crate) struct RecordSpan {
    pub(crate) front: u16,
    pub(crate) ttl: u32,
    pub(crate) back: u32,
}

/// Records that lie in octets of others, one after another, their names in full and their TTLs apart, or those that are left of
/// them. Contracts see which records they are. It is an iterator over them.
#[derive(Debug, Drop)]
pub struct RecordRefs<'a> {
    // All records one after another, but for their TTLs.
    octets: &'a [u8],
    spans: &'a [RecordSpan],
    // The records have one owner, and no names in their data are compressed.
    is_alike: bool,
}

impl<'a> Model for RecordRefs<'a> {
    ghost use Rattle.std.specs.Prelude.{◌≡◌, List, true};
    ghost use Rattle.dns_record.specs.Record.{PlainRecord};
    ghost use Rattle.dns_message.specs.Alike.{AreAlike};
    ghost use Rattle.dns_message.specs.Written.{AreWritten, records_in};

    ghost Value = { List PlainRecord };

    ghost view = { λ r. records_in r.octets.now r.spans.now };

    ghost invariant = { λ r. AreWritten r.octets.now r.spans.now (records_in r.octets.now r.spans.now)
        × (r.is_alike ≡ true → AreAlike (records_in r.octets.now r.spans.now)) };
}

impl<'a> RecordRefs<'a> {
    /// The records that are written so, and whether it is known that they have one owner, and no names in their data that are
    /// compressed.
    pub(crate) fn new(octets: &'a [u8], spans: &'a [RecordSpan], is_alike: bool) -> Self
        requires written { AreWritten octets.now spans.now (records_in octets.now spans.now) }
        requires alike { is_alike ≡ true → AreAlike (records_in octets.now spans.now) }
        ensures { result ≡ records_in octets.now spans.now }
    {
        RecordRefs {
            octets,
            spans,
            is_alike,
        }
    }

    /// No records.
    pub fn none() -> Self
        ensures { result ≡ [] }
    {
        RecordRefs::new(&[], &[], false)
    }

    /// The same records once more, from the first one that is left.
    pub fn iter(&self) -> RecordRefs<'a>
        ensures { result ≡ self.now }
    {
        RecordRefs {
            octets: self.octets,
            spans: self.spans,
            is_alike: self.is_alike,
        }
    }

    /// How many records there are.
    pub fn len(&self) -> usize
        ensures { result ≡ length self.now }
    {
        self.spans.len()
    }

    /// How many octets the records take but for their TTLs.
    pub fn octet_count(&self) -> usize
        ensures { result ≡ length (flat_map lasting_octets self.now) }
    {
        self.octets.len()
    }

    /// The owner of the first record, where it is known that all have it, and no names in their data that are compressed.
    pub(crate) fn alike_owner(&self) -> Option<&'a [u8]>
        ensures wire { IfSome result (λ owner. IsWire owner.now) }
        ensures alike { IfSome result
            (λ owner. AllByRecursion (IsAlike (labels_in owner.now)) self.now) }
    {
        if !self.is_alike {
            return None;
        }
        let (span, _others) = self.spans.split_first()?;
        Some(first_owner(self.octets, span))
    }
}

impl<'a> Iterator for RecordRefs<'a> {
    ghost use Rattle.std.specs.Iterator.{YieldsFirst, item_count};

    type Item = RecordRef<'a>;

    ghost next_gives = { YieldsFirst (λ s. s) };

    ghost remaining = { item_count (λ s. s) };

    #[inline(always)]
    fn next(&mut self) -> Option<RecordRef<'a>> {
        let (span, spans) = self.spans.split_first()?;
        let record = first_record(self.octets, span);
        self.octets = behind(self.octets, span);
        self.spans = spans;
        Some(record)
    }
}

// The record that these octets begin with.
#[inline(always)]
#[tactic(auto, using(crate::proofs::InPlace::data_at))]
fn first_record<'a>(octets: &'a [u8], span: &RecordSpan) -> RecordRef<'a>
    requires { BeginsRecord octets.now span.now }
    ensures { result ≡ first_in octets.now span.now }
{
    let front = usize::from(span.front);
    let end = front + span.back as usize;
    RecordRef::new(
        &octets[..front - 4],
        u16_at(octets, front - 4),
        u16_at(octets, front - 2),
        span.ttl,
        &octets[front + 2..end],
    )
}

// The owner of the record that these octets begin with.
fn first_owner<'a>(octets: &'a [u8], span: &RecordSpan) -> &'a [u8]
    requires { BeginsRecord octets.now span.now }
    ensures owner { result.now ≡ take (span.now.front - 4) octets.now }
    ensures wire { IsWire result.now }
{
    &octets[..usize::from(span.front) - 4]
}

// What stands behind the record that these octets begin with.
#[inline(always)]
fn behind<'a>(octets: &'a [u8], span: &RecordSpan) -> &'a [u8]
    requires { span.now.front + span.now.back ≤ length octets.now }
    ensures { result.now ≡ drop (span.now.front + span.now.back) octets.now }
{
    &octets[usize::from(span.front) + span.back as usize..]
}
