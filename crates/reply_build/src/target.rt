//! The alias of a rule.

ghost use Rattle.std.specs.Prelude.{◌≡◌, List, [], ◌∷◌, Option, option_map, IfOk};
ghost use Rattle.action_codec.specs.Seen.{part_seen};
ghost use Rattle.dns_name.specs.Reading.{name_at};
ghost use Rattle.reply_build.specs.Target.{alias_in as alias_among, target_by as target_form, target_of as target_named};

use action_codec::{LocalPart, LocalRef};
use dns_name::{JoinError, Name, NameError};
use dns_record::rtype;
use std::alloc::{AllocError, Global};

/// The row, if local data is one CNAME row.
pub fn alias_in<'a>(rows: &LocalRef<'a>) -> Option<LocalPart<'a>>
    ensures { option_map part_seen result ≡ alias_among rows.now }
{
    if rows.len() != 1 {
        return None;
    }
    let row = rows.at(0);
    if row.rtype == rtype::CNAME {
        Some(row)
    } else {
        None
    }
}

/// The name that an alias leads to, of this data; the name that is answered for stands in for an asterisk. `None`
/// where it would be longer than a name may be.
pub fn target_of(alloc: Global, name: &Name, rdata: &[u8]) -> Result<Option<Name>, AllocError>
    ensures { IfOk result (λ target. target ≡ target_named name.now rdata.now) }
{
    match Name::read(alloc, rdata, 0) {
        Ok((found, _)) => target_by(alloc, name, found),
        Err(NameError::OutOfMemory) => Err(AllocError),
        Err(NameError::Fault(_)) => Ok(None),
    }
}

// The name that an alias leads to which names this.
fn target_by(alloc: Global, name: &Name, found: Name) -> Result<Option<Name>, AllocError>
    ensures { IfOk result (λ target. target ≡ target_form name.now found) }
{
    let mut labels = found.labels();
    let Some(first) = labels.next_label() else {
        return Ok(Some(found));
    };
    if first != b"*".as_slice() || labels.octets().len() == 1 {
        return Ok(Some(found));
    }
    let Some(others) = found.parent(alloc)? else {
        return Ok(None);
    };
    match Name::join(alloc, name, &others) {
        Ok(target) => Ok(Some(target)),
        Err(JoinError::OutOfMemory) => Err(AllocError),
        Err(JoinError::Fault(_)) => Ok(None),
    }
}
