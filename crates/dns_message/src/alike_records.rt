//! Records of one owner, in whose data no names are compressed. Where the owner has a place, it is looked up once for all of them.

ghost use Rattle.std.specs.Prelude.{◌≡◌, ℕ, ◌<◌, List, true, length, map, IfOk, IfSome, OnOk};
ghost use Rattle.std.specs.List.{AllByRecursion};
ghost use Rattle.packed_names.specs.Places.{Place};
ghost use Rattle.dns_message.specs.Aged.{aged};
ghost use Rattle.dns_message.specs.Alike.{AreAlike, IsAlike, IsPointed};
ghost use Rattle.dns_message.specs.Compressed.{with_record};
ghost use Rattle.dns_message.specs.Progress.{draft, progress_after, progress_of, within};

use crate::compressed_data::{has_compressed_names, write_pointed};
use crate::record_refs::RecordRefs;
use dns_name::{Name, Octets};
use dns_record::{Record, RecordRef};
use packed_names::{POINTED_PLACES, Places};
use std::alloc::AllocError;

/// Whether all records have the owner of the first one, and no names in their data that are compressed. Of no records it says no.
pub(crate) fn are_alike(records: &[Record]) -> bool
    ensures { result ≡ true → AreAlike records.now }
{
    let Some(first) = records.first() else {
        return false;
    };
    for rr in records {
        if !is_alike(first.owner(), rr) {
            return false;
        }
    }
    true
}

// Whether a record has this owner, letter by letter, and no names in its data that are compressed.
fn is_alike(owner: &Name, rr: &Record) -> bool
    ensures { result ≡ true → IsAlike owner.now rr.now }
{
    !has_compressed_names(rr.rtype()) && is_spelled_alike(rr.owner(), owner)
}

// Whether two names are spelled alike, letter by letter.
fn is_spelled_alike(name: &Name, other: &Name) -> bool
    ensures { result ≡ true → name.now ≡ other.now }
{
    name.octets() == other.octets()
}

/// The offset of the owner of all these records. `None` says nothing: their owners may differ, or have no place.
pub(crate) fn known_owner(places: &Places<'_>, records: &RecordRefs<'_>) -> Option<u16>
    ensures near { IfSome result (λ offset. offset < POINTED_PLACES) }
    ensures pointed { IfSome result
        (λ offset. AllByRecursion (IsPointed places.now offset) records.now) }
{
    places.known(records.alike_owner()?)
}

/// Writes records that came so many seconds ago, each with a pointer to this offset in place of its owner, until the message is longer
/// than the limit, and says whether it is. An `Err` leaves maybe some of them behind what was written before.
pub(crate) fn write_alike(
    out: &mut Octets,
    limit: usize,
    offset: u16,
    records: RecordRefs<'_>,
    seconds: u32,
) -> Result<bool, AllocError>
    requires near { offset < POINTED_PLACES }
    ensures progress { (places : List Place) →
        AllByRecursion (IsPointed places offset) records.entry →
        IfOk result (λ is_beyond. progress_of out.new places is_beyond
        ≡ progress_after limit (within (draft out.old places)) (map (aged seconds) records.entry)) }
    ensures longer { IfOk result (λ is_beyond. is_beyond ≡ true → limit < length out.new) }
{
    for rr in records {
        write_aged_behind(out, offset, &rr, seconds)?;
        if out.len() > limit {
            return Ok(true);
        }
    }
    Ok(false)
}

// Writes a record that came so many seconds ago, a pointer to this offset in place of its owner.
#[inline(always)]
fn write_aged_behind(
    out: &mut Octets,
    offset: u16,
    rr: &RecordRef<'_>,
    seconds: u32,
) -> Result<(), AllocError>
    requires near { offset < POINTED_PLACES }
    ensures { (places : List Place) → IsPointed places offset rr.now →
        OnOk result
        (draft out.new places ≡ with_record (draft out.old places) (aged seconds rr.now)) }
{
    let ttl = rr.ttl().saturating_sub(seconds);
    write_pointed(out, offset, rr.rtype(), rr.class(), ttl, rr.rdata())
}
