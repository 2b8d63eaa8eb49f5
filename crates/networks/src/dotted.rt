//! Four octets in decimal, joined by dots.

ghost use Rattle.std.specs.Prelude.{◌≡◌, ◌<◌, IfSome};
ghost use Rattle.std.specs.List.{before_first, after_first};
ghost use Rattle.networks.specs.Dotted.{is_octet_dot, has_leading_zero, octet_of, dotted_of, v4_number, tail_of};

use crate::decimal::read_decimal;
use crate::split::split_first;

/// The address of IP version 4 that a text writes: four octets in decimal, of 1 to 3 digits each and at most 255, joined by dots
/// (RFC 3986, section 3.2.2). Leading zeros are allowed, and do not make an octet octal.
pub fn read_v4(text: &[u8]) -> Option<u32>
    ensures { result ≡ v4_number text.now }
{
    dotted(text, false)
}

/// The last 32 bits of an address of IP version 6: the same, without leading zeros.
pub(crate) fn read_tail(text: &[u8]) -> Option<u32>
    ensures { result ≡ tail_of text.now }
{
    dotted(text, true)
}

// The number of four octets, the first of them highest.
#[tactic(auto, unfolding(crate::specs::Dotted::dotted_of))]
fn dotted(text: &[u8], strict: bool) -> Option<u32>
    ensures { result ≡ dotted_of strict text.now }
{
    let (first, rest) = split_dot(text);
    let (second, rest) = split_dot(rest);
    let (third, fourth) = split_dot(rest);
    let first = octet(first, strict)?;
    let second = octet(second, strict)?;
    let third = octet(third, strict)?;
    let fourth = octet(fourth, strict)?;
    Some(((first * 256 + second) * 256 + third) * 256 + fourth)
}

// What stands before the first dot, and behind it.
fn split_dot(text: &[u8]) -> (&[u8], &[u8])
    ensures first { result.0.now ≡ before_first is_octet_dot text.now }
    ensures rest { result.1.now ≡ after_first is_octet_dot text.now }
{
    match split_first(text, b'.') {
        Some(parts) => parts,
        None => (text, &[]),
    }
}

// The octet that 1 to 3 decimal digits write; where it is strict, they have no leading zero.
fn octet(digits: &[u8], strict: bool) -> Option<u32>
    ensures value { result ≡ octet_of strict digits.now }
    ensures fits { IfSome result (λ octet. octet < 256) }
{
    if strict && begins_with_zero(digits) {
        return None;
    }
    read_decimal(digits, 3, 256)
}

// Whether there are more digits than one, of which the first is a zero.
fn begins_with_zero(digits: &[u8]) -> bool
    ensures { result ≡ has_leading_zero digits.now }
{
    digits.len() > 1 && digits[0] == b'0'
}
