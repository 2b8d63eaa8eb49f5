//! Addresses as text.

ghost use Rattle.std.specs.Prelude.{◌≡◌, ◌/◌, ◌%◌, Some};
ghost use Rattle.networks.specs.Written.{addr_text, eight_groups, four_octets};

use ip_prefix::Addr;
use std::fmt::{self, Display};
use std::net::{Ipv4Addr, Ipv6Addr};

/// An address as it is written: four decimals with dots between them, or groups of hexadecimal digits in the form of RFC 5952. It
/// is read back by [`read_address`](crate::read_address).
#[derive(Clone, Copy, Debug)]
pub struct AddressText(pub Addr);

impl Display for AddressText {
    ghost output = { λ t. Some (addr_text t.0) };

    fn fmt<W: fmt::Write>(&self, f: &mut fmt::Formatter<W>) -> fmt::Result {
        match self.0 {
            Addr::V4(number) => Display::fmt(&Ipv4Addr::from_octets(octets(number)), f),
            Addr::V6(number) => Display::fmt(&Ipv6Addr::from_segments(groups(number)), f),
        }
    }
}

// The octets of an address of version 4, the highest first.
fn octets(number: u32) -> [u8; 4]
    ensures { result ≡ four_octets number }
{
    let (rest, fourth) = last_octet(number);
    let (rest, third) = last_octet(rest);
    let (rest, second) = last_octet(rest);
    let (_rest, first) = last_octet(rest);
    [first, second, third, fourth]
}

// The octets before the last, as a number, and the last.
fn last_octet(number: u32) -> (u32, u8)
    ensures rest { result.0 ≡ number / 256 }
    ensures last { result.1 ≡ number % 256 }
{
    (number / 256, (number % 256) as u8)
}

// The groups of an address of version 6, the highest first.
fn groups(number: u128) -> [u16; 8]
    ensures { result ≡ eight_groups number }
{
    let (rest, eighth) = last_group(number);
    let (rest, seventh) = last_group(rest);
    let (rest, sixth) = last_group(rest);
    let (rest, fifth) = last_group(rest);
    let (rest, fourth) = last_group(rest);
    let (rest, third) = last_group(rest);
    let (rest, second) = last_group(rest);
    let (_rest, first) = last_group(rest);
    [first, second, third, fourth, fifth, sixth, seventh, eighth]
}

// The groups before the last, as a number, and the last.
fn last_group(number: u128) -> (u128, u16)
    ensures rest { result.0 ≡ number / 65536 }
    ensures last { result.1 ≡ number % 65536 }
{
    (number / 65536, (number % 65536) as u16)
}
