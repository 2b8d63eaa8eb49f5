//! Addresses of IP version 6 into which those of version 4 are mapped.

ghost use Rattle.std.specs.Prelude.{◌≡◌};
ghost use Rattle.networks.specs.Mapped.{is_mapped_number};

/// Whether this address of IP version 6 is in `::ffff:0:0/96`, into which those of version 4 are mapped (RFC 4291,
/// section 2.5.5.2).
pub fn is_mapped(number: u128) -> bool
    ensures { result ≡ is_mapped_number number }
{
    number >> 32 == 0xffff
}
