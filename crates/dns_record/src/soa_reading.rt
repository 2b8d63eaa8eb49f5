//! Reads what a SOA record says.

ghost use Rattle.std.specs.Prelude.{◌≡◌, ◌≢◌, [], ◌∷◌, Ok, None, MatchOption, IfOk, IsOk};
ghost use Rattle.dns_name.specs.Reading.{name_at};
ghost use Rattle.dns_record.specs.declared.part.Part.TheVariants.{Name as PName, Fixed};
ghost use Rattle.dns_record.specs.Part.{HasParts};
ghost use Rattle.dns_record.specs.Soa.{IsSoaOf, soa_in, soa_octets};

use crate::number::u32_at;
use crate::record::Record;
use crate::rtype;
use crate::soa::Soa;
use dns_name::{Name, NameError};
use std::alloc::{AllocError, Global};

/// What a SOA record says. It is `Ok(None)` exactly where the record is of another type, and then no memory
/// is taken.
pub fn soa_of(alloc: Global, rr: &Record) -> Result<Option<Soa>, AllocError>
    ensures soa { IfOk result (λ soa. MatchOption soa (rr.now.rtype ≢ 6) (IsSoaOf rr.now)) }
    ensures other { rr.now.rtype ≢ 6 → result ≡ Ok None }
{
    if rr.rtype() != rtype::SOA {
        return Ok(None);
    }
    Ok(Some(read_soa(alloc, rr.ttl(), rr.rdata())?))
}

// The SOA that the data holds.
fn read_soa(alloc: Global, ttl: u32, rdata: &[u8]) -> Result<Soa, AllocError>
    requires { HasParts (PName ∷ PName ∷ Fixed 20 ∷ []) rdata.now }
    ensures { IfOk result (λ soa. (soa_in ttl rdata.now ≡ Ok soa) × (soa_octets soa ≡ rdata.now)) }
{
    let (mname, second) = read_name(alloc, rdata, 0)?;
    let (rname, numbers) = read_name(alloc, rdata, second)?;
    Ok(Soa {
        mname,
        rname,
        serial: u32_at(rdata, numbers),
        refresh: u32_at(rdata, numbers + 4),
        retry: u32_at(rdata, numbers + 8),
        expire: u32_at(rdata, numbers + 12),
        minimum: u32_at(rdata, numbers + 16),
        ttl,
    })
}

// The name that stands at a place.
fn read_name(alloc: Global, bytes: &[u8], at: usize) -> Result<(Name, usize), AllocError>
    requires { IsOk (name_at bytes.now at) }
    ensures { IfOk result (λ x. name_at bytes.now at ≡ Ok x) }
{
    match Name::read(alloc, bytes, at) {
        Ok(read) => Ok(read),
        Err(NameError::OutOfMemory) => Err(AllocError),
        Err(NameError::Fault(_)) => unreachable!(),
    }
}
