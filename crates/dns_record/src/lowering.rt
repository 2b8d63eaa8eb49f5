//! The data of records with its names in lower case.

ghost use Rattle.std.specs.Prelude.{◌≡◌, List, ◌∷◌, ◌++◌, IfOk, IsOk};
ghost use Rattle.dns_name.specs.Reading.{name_at};
ghost use Rattle.dns_record.specs.declared.part.Part.{Part as APart};
ghost use Rattle.dns_record.specs.Part.{HasParts};
ghost use Rattle.dns_record.specs.Record.{IsData};
ghost use Rattle.dns_record.specs.Row.{lower_case_name, lower_case_part, lowered_parts, lowered_data};

use crate::class;
use crate::part::{Part, layout};
use dns_name::{Name, NameError, Octets};
use std::alloc::{AllocError, Global};

/// The data of a record of the type, in class IN, with its names in lower case.
#[tactic(auto, unfolding(crate::specs::Row::lowered_data))]
pub(crate) fn lower_data(alloc: Global, rtype: u16, rdata: &[u8]) -> Result<Octets, AllocError>
    requires { IsData rtype 1 rdata.now }
    ensures { IfOk result (λ lowered. lowered ≡ lowered_data rtype rdata.now) }
{
    match layout(rtype, class::IN) {
        None => Octets::from_slice(alloc, rdata),
        Some(parts) => lower_parts(alloc, parts, rdata),
    }
}

// The parts with their names in lower case.
fn lower_parts(alloc: Global, parts: &[Part], octets: &[u8]) -> Result<Octets, AllocError>
    requires { HasParts parts.now octets.now }
    ensures { IfOk result (λ lowered. lowered ≡ lowered_parts parts.now octets.now) }
{
    let mut out = Octets::with_capacity(alloc, octets.len())?;
    let mut place = 0;
    for part in parts {
        place += lower_part(alloc, *part, &octets[place..], &mut out)?;
    }
    Ok(out)
}

// Writes the part that the octets begin with, a name in lower case, and says how many octets it takes.
fn lower_part(
    alloc: Global,
    part: Part,
    octets: &[u8],
    out: &mut Octets,
) -> Result<usize, AllocError>
    requires { (others : List APart) × HasParts (part ∷ others) octets.now }
    ensures used { IfOk result (λ used. used ≡ (lower_case_part part octets.now).1) }
    ensures octets { IfOk result (λ _. out.new ≡ out.old ++ (lower_case_part part octets.now).0) }
{
    match part {
        Part::Name => lower_name(alloc, octets, out),
        Part::Fixed(count) => {
            out.append(&octets[..count])?;
            Ok(count)
        }
    }
}

// Writes the name that the octets begin with in lower case, and says how many octets it takes.
fn lower_name(alloc: Global, octets: &[u8], out: &mut Octets) -> Result<usize, AllocError>
    requires { IsOk (name_at octets.now 0) }
    ensures used { IfOk result (λ used. used ≡ (lower_case_name (name_at octets.now 0)).1) }
    ensures octets { IfOk result (λ _. out.new
        ≡ out.old ++ (lower_case_name (name_at octets.now 0)).0) }
{
    match Name::read(alloc, octets, 0) {
        Ok((name, after)) => {
            name.lower(alloc)?.write(out)?;
            Ok(after)
        }
        Err(NameError::OutOfMemory) => Err(AllocError),
        Err(NameError::Fault(_)) => unreachable!(),
    }
}
