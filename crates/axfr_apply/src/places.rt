//! Which records a zone may have.

ghost use Rattle.std.specs.Prelude.{◌≡◌, Ok, OnOk};
ghost use Rattle.axfr_apply.specs.Checks.{fault_or};
ghost use Rattle.axfr_apply.specs.Reading.{place_fault};

use crate::fault::TransferFault;
use dns_name::Name;
use dns_record::{Record, class};

/// Looks at the class and the owner of a record that holds a SOA or none: the class is IN, and the owner is the
/// zone's name, or, where it holds none, one below it.
pub fn check_place(origin: &Name, holds_soa: bool, rr: &Record) -> Result<(), TransferFault>
    ensures exact { result ≡ fault_or (place_fault origin.now holds_soa rr.now) (Ok tt) }
    ensures class { OnOk result (rr.now.class ≡ 1) }
{
    if rr.class() != class::IN {
        return Err(TransferFault::WrongClass);
    }
    if holds_soa {
        if rr.owner().is_same(origin) {
            Ok(())
        } else {
            Err(TransferFault::WrongSoaOwner)
        }
    } else if rr.owner().ends_with(origin) {
        Ok(())
    } else {
        Err(TransferFault::OutOfZone)
    }
}
