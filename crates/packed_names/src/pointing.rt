//! Pointers (RFC 1035, section 4.1.4).

ghost use Rattle.std.specs.Prelude.{◌≡◌, ◌<◌, ◌++◌, OnOk, OnErr};
ghost use Rattle.packed_names.specs.Places.{pointer_octets};

use dns_name::Octets;
use std::alloc::AllocError;

/// How many places of a message a pointer can lead to: its offset has 14 bits (RFC 1035, section 4.1.4).
pub const POINTED_PLACES: usize = 16_384;

/// The octets of a pointer to an offset.
pub fn pointer(offset: u16) -> [u8; 2]
    requires { offset < POINTED_PLACES }
    ensures { result ≡ pointer_octets offset }
{
    [(192 + offset / 256) as u8, (offset % 256) as u8]
}

/// Writes a pointer to an offset. An `Err` leaves the message as it was.
pub(crate) fn write_pointer(out: &mut Octets, offset: u16) -> Result<(), AllocError>
    requires { offset < POINTED_PLACES }
    ensures ok { OnOk result (out.new ≡ out.old ++ pointer_octets offset) }
    ensures err { OnErr result (out.new ≡ out.old) }
{
    out.append(&pointer(offset))
}
