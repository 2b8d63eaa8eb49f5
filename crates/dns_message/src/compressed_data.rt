//! Writes the data of a record with its names compressed.

ghost use Rattle.std.specs.Prelude.{◌≡◌, ◌+◌, ◌-◌, ◌^◌, ◌<◌, ◌≤◌, List, [], ◌∷◌, ◌++◌, length, take, drop, option_copied, IfOk, OnOk};
ghost use Rattle.packed_names.specs.Places.{pointer_octets};
ghost use Rattle.dns_record.specs.Number.{number_octets};
ghost use Rattle.dns_record.specs.Part.{HasParts};
ghost use Rattle.dns_record.specs.declared.part.Part.{Part as APart};
ghost use Rattle.dns_message.specs.Compressed as form;
ghost use Rattle.dns_message.specs.Compressed.{compressed_layout as layout_to_compress, data_by, data_part, data_parts, field_octets, owner_written, part_length, places_behind_owner};

use dns_name::Octets;
use dns_record::{Part, RecordRef, layout, rtype};
use packed_names::{POINTED_PLACES, Places, pointer, split_name};
use std::alloc::{AllocError, Global};
use std::mem;

/// Writes a record at the end of a message, its owner and the names in its data compressed. An `Err` leaves some of it behind what was
/// written before.
#[inline(always)]
pub(crate) fn write_record<'n>(
    alloc: Global,
    out: &mut Octets,
    places: &mut Places<'n>,
    rr: &RecordRef<'n>,
) -> Result<(), AllocError>
    ensures octets { OnOk result (
        let written = data_by (layout_to_compress rr.now.rtype rr.now.class)
        (places_behind_owner places.old out.old rr.now)
        (length (owner_written places.old out.old rr.now) + 10) rr.now.rdata in
        out.new
        ≡ (owner_written places.old out.old rr.now ++ field_octets rr.now (length written.octets))
        ++ written.octets
        ) }
    ensures places { OnOk result (places.new
        ≡ (data_by (layout_to_compress rr.now.rtype rr.now.class)
        (places_behind_owner places.old out.old rr.now)
        (length (owner_written places.old out.old rr.now) + 10) rr.now.rdata).places) }
{
    let rdata = rr.rdata();
    match compressed_layout(rr.rtype(), rr.class()) {
        None => write_plain(out, places, rr, rdata),
        Some(parts) => write_compressed_data(alloc, out, places, parts, rr, rdata),
    }
}

// The parts of the data of a type and class, if its names are compressed.
fn compressed_layout(rtype: u16, class: u16) -> Option<&'static [Part]>
    ensures { option_copied result ≡ layout_to_compress rtype class }
{
    if !has_compressed_names(rtype) {
        return None;
    }
    layout(rtype, class)
}

/// The types whose data have names that are compressed.
pub(crate) fn has_compressed_names(rtype: u16) -> bool
    ensures { result ≡ form.has_compressed_names rtype }
{
    matches!(
        rtype,
        rtype::NS
            | rtype::MD
            | rtype::MF
            | rtype::CNAME
            | rtype::SOA
            | rtype::MB
            | rtype::MG
            | rtype::MR
            | rtype::PTR
            | rtype::MINFO
            | rtype::MX
    )
}

// Writes the owner of a record, compressed, and what stands between it and data of so many octets. Where the owner is the question's
// name, all is written at once.
fn write_lead<'n>(
    out: &mut Octets,
    places: &mut Places<'n>,
    rr: &RecordRef<'n>,
    len: u16,
) -> Result<(), AllocError>
    ensures octets { OnOk result
        (out.new ≡ owner_written places.old out.old rr.now ++ field_octets rr.now len) }
    ensures places { OnOk result
        (places.new ≡ places_behind_owner places.old out.old rr.now) }
{
    let owner = rr.owner();
    let octets = owner.octets();
    match places.known(octets) {
        Some(offset) => {
            out.append(&pointed_fields(offset, rr.rtype(), rr.class(), rr.ttl(), len))
        }
        None => write_named_lead(out, places, rr, len),
    }
}

// The same, where the owner may be any name.
fn write_named_lead<'n>(
    out: &mut Octets,
    places: &mut Places<'n>,
    rr: &RecordRef<'n>,
    len: u16,
) -> Result<(), AllocError>
    ensures octets { OnOk result
        (out.new ≡ owner_written places.old out.old rr.now ++ field_octets rr.now len) }
    ensures places { OnOk result
        (places.new ≡ places_behind_owner places.old out.old rr.now) }
{
    let owner = rr.owner();
    let octets = owner.octets();
    places.write_octets(out, octets)?;
    out.append(&fields(rr.rtype(), rr.class(), rr.ttl(), len))
}

// A pointer to the owner, and the fields behind it.
fn pointed_fields(offset: u16, rtype: u16, class: u16, ttl: u32, len: u16) -> [u8; 12]
    requires { offset < POINTED_PLACES }
    ensures { result
        ≡ pointer_octets offset
        ++ (number_octets 2 rtype ++ number_octets 2 class ++ number_octets 4 ttl
        ++ number_octets 2 len) }
{
    let place = pointer(offset);
    let fields = fields(rtype, class, ttl, len);
    [
        place[0], place[1], fields[0], fields[1], fields[2], fields[3], fields[4], fields[5],
        fields[6], fields[7], fields[8], fields[9],
    ]
}

// The type, the class, the TTL and the length of the data of a record.
fn fields(rtype: u16, class: u16, ttl: u32, len: u16) -> [u8; 10]
    ensures { result
        ≡ number_octets 2 rtype ++ number_octets 2 class ++ number_octets 4 ttl
        ++ number_octets 2 len }
{
    [
        (rtype / 0x100) as u8,
        (rtype % 0x100) as u8,
        (class / 0x100) as u8,
        (class % 0x100) as u8,
        (ttl / 0x100_0000) as u8,
        (ttl / 0x1_0000 % 0x100) as u8,
        (ttl / 0x100 % 0x100) as u8,
        (ttl % 0x100) as u8,
        (len / 0x100) as u8,
        (len % 0x100) as u8,
    ]
}

// Writes a record, these data as they are.
#[inline(always)]
fn write_plain<'n>(
    out: &mut Octets,
    places: &mut Places<'n>,
    rr: &RecordRef<'n>,
    rdata: &[u8],
) -> Result<(), AllocError>
    requires { length rdata.now < 2 ^ 16 }
    ensures octets { OnOk result (out.new
        ≡ (owner_written places.old out.old rr.now ++ field_octets rr.now (length rdata.now))
        ++ rdata.now) }
    ensures places { OnOk result
        (places.new ≡ places_behind_owner places.old out.old rr.now) }
{
    let owner = rr.owner();
    let octets = owner.octets();
    match places.known(octets) {
        Some(offset) => write_pointed(out, offset, rr.rtype(), rr.class(), rr.ttl(), rdata),
        None => {
            write_named_lead(out, places, rr, rdata.len() as u16)?;
            out.append(rdata)
        }
    }
}

/// Writes a pointer to the owner of a record, the fields behind it and these data. Those of an address of version 4 are written with
/// what stands before them.
#[inline(always)]
pub(crate) fn write_pointed(
    out: &mut Octets,
    offset: u16,
    rtype: u16,
    class: u16,
    ttl: u32,
    rdata: &[u8],
) -> Result<(), AllocError>
    requires near { offset < POINTED_PLACES }
    requires short { length rdata.now < 2 ^ 16 }
    ensures { OnOk result (out.new
        ≡ out.old
        ++ ((pointer_octets offset
        ++ (number_octets 2 rtype ++ number_octets 2 class ++ number_octets 4 ttl
        ++ number_octets 2 (length rdata.now)))
        ++ rdata.now)) }
{
    if let [a, b, c, d] = rdata {
        return out.append(&pointed_address(offset, rtype, class, ttl, *a, *b, *c, *d));
    }
    out.append(&pointed_fields(offset, rtype, class, ttl, rdata.len() as u16))?;
    out.append(rdata)
}

// A pointer to the owner, the fields behind it, and data of these four octets.
fn pointed_address(
    offset: u16,
    rtype: u16,
    class: u16,
    ttl: u32,
    a: u8,
    b: u8,
    c: u8,
    d: u8,
) -> [u8; 16]
    requires { offset < POINTED_PLACES }
    ensures { result
        ≡ (pointer_octets offset
        ++ (number_octets 2 rtype ++ number_octets 2 class ++ number_octets 4 ttl
        ++ number_octets 2 4))
        ++ a ∷ b ∷ c ∷ d ∷ [] }
{
    let lead = pointed_fields(offset, rtype, class, ttl, 4);
    [
        lead[0], lead[1], lead[2], lead[3], lead[4], lead[5], lead[6], lead[7], lead[8], lead[9],
        lead[10], lead[11], a, b, c, d,
    ]
}

// Writes a record, the names in these data compressed. How long the data are then is known behind them alone, so that their length is
// set last.
fn write_compressed_data<'n>(
    alloc: Global,
    out: &mut Octets,
    places: &mut Places<'n>,
    parts: &[Part],
    rr: &RecordRef<'n>,
    rdata: &'n [u8],
) -> Result<(), AllocError>
    requires { HasParts parts.now rdata.now }
    ensures octets { OnOk result (
        let written = data_parts (places_behind_owner places.old out.old rr.now)
        (length (owner_written places.old out.old rr.now) + 10) parts.now rdata.now in
        out.new
        ≡ (owner_written places.old out.old rr.now ++ field_octets rr.now (length written.octets))
        ++ written.octets
        ) }
    ensures places { OnOk result (places.new
        ≡ (data_parts (places_behind_owner places.old out.old rr.now)
        (length (owner_written places.old out.old rr.now) + 10) parts.now rdata.now).places) }
{
    write_lead(out, places, rr, 0)?;
    let start = out.len();
    write_data_parts(out, places, parts, rdata)?;
    set_length(alloc, out, start - 2);
    Ok(())
}

// Writes data of these parts, their names compressed.
fn write_data_parts<'n>(
    out: &mut Octets,
    places: &mut Places<'n>,
    parts: &[Part],
    rdata: &'n [u8],
) -> Result<(), AllocError>
    requires { HasParts parts.now rdata.now }
    ensures octets { OnOk result (out.new
        ≡ out.old ++ (data_parts places.old (length out.old) parts.now rdata.now).octets) }
    ensures places { OnOk result
        (places.new ≡ (data_parts places.old (length out.old) parts.now rdata.now).places) }
{
    let mut rest = rdata;
    for part in parts {
        rest = write_part(out, places, *part, rest)?;
    }
    Ok(())
}

// Writes the part that the data begin with, a name compressed, and gives what stands behind it.
fn write_part<'n>(
    out: &mut Octets,
    places: &mut Places<'n>,
    part: Part,
    rdata: &'n [u8],
) -> Result<&'n [u8], AllocError>
    requires { (others : List APart) × HasParts (part ∷ others) rdata.now }
    ensures octets { IfOk result (λ _. out.new
        ≡ out.old ++ (data_part places.old (length out.old) part rdata.now).octets) }
    ensures places { IfOk result
        (λ _. places.new ≡ (data_part places.old (length out.old) part rdata.now).places) }
    ensures rest { IfOk result (λ rest. rest.now ≡ drop (part_length part rdata.now) rdata.now) }
{
    match part {
        Part::Name => {
            let (name, rest) = split_name(rdata);
            places.write_octets(out, name)?;
            Ok(rest)
        }
        Part::Fixed(count) => {
            let (octets, rest) = rdata.split_at(count);
            out.append(octets)?;
            Ok(rest)
        }
    }
}

// Sets the two octets at a place to how many octets stand behind them, of which the low 16 bits are written.
fn set_length(alloc: Global, out: &mut Octets, at: usize)
    requires { at + 2 ≤ length out.old }
    ensures { out.new
        ≡ take at out.old ++ (number_octets 2 (length out.old - (at + 2)) ++ drop (at + 2) out.old) }
{
    let mut octets = mem::replace(out, Octets::new(alloc)).into_vec();
    let len = octets.len() - (at + 2);
    octets[at] = (len / 0x100 % 0x100) as u8;
    octets[at + 1] = (len % 0x100) as u8;
    *out = Octets::from_vec(octets);
}
