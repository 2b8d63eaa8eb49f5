//! Numbers in messages: the highest byte first (RFC 1035, section 2.3.2).

ghost use Rattle.std.specs.Prelude.{◌≡◌, ◌+◌, ◌≤◌, ◌++◌, length, OnOk, OnErr};
ghost use Rattle.dns_record.specs.Number.{number_at, number_octets};

use byteorder::{BigEndian, ByteOrder};
use dns_name::Octets;
use std::alloc::AllocError;

/// The number of 16 bits at a place.
pub fn u16_at(bytes: &[u8], at: usize) -> u16
    requires { at + 2 ≤ length bytes.now }
    ensures { result ≡ number_at 2 bytes.now at }
{
    BigEndian::read_u16(&bytes[at..])
}

/// The number of 32 bits at a place.
pub fn u32_at(bytes: &[u8], at: usize) -> u32
    requires { at + 4 ≤ length bytes.now }
    ensures { result ≡ number_at 4 bytes.now at }
{
    BigEndian::read_u32(&bytes[at..])
}

/// The number of 128 bits at a place.
pub fn u128_at(bytes: &[u8], at: usize) -> u128
    requires { at + 16 ≤ length bytes.now }
    ensures { result ≡ number_at 16 bytes.now at }
{
    BigEndian::read_u128(&bytes[at..])
}

/// Writes a number of 16 bits at the end. An `Err` leaves what was written before.
pub fn push_u16(out: &mut Octets, number: u16) -> Result<(), AllocError>
    ensures ok { OnOk result (out.new ≡ out.old ++ number_octets 2 number) }
    ensures err { OnErr result (out.new ≡ out.old) }
{
    let mut bytes = [0; 2];
    BigEndian::write_u16(&mut bytes, number);
    out.append(&bytes)
}

/// Writes a number of 32 bits at the end. An `Err` leaves what was written before.
pub fn push_u32(out: &mut Octets, number: u32) -> Result<(), AllocError>
    ensures ok { OnOk result (out.new ≡ out.old ++ number_octets 4 number) }
    ensures err { OnErr result (out.new ≡ out.old) }
{
    let mut bytes = [0; 4];
    BigEndian::write_u32(&mut bytes, number);
    out.append(&bytes)
}
