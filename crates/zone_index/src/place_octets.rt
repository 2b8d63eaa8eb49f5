//! The octets that stand for places, by which rows are put in order.

ghost use Rattle.std.specs.Prelude.{◌≡◌, ◌∷◌, ◌++◌, ◌<◌, ◌≤◌, ◌^◌, length, OnOk};
ghost use Rattle.ip_prefix.specs.Prefix.{family, number_of};
ghost use Rattle.zone_index.specs.PlaceOctets.{IsSized, IsSizedTrigger, number_octets, pattern_octets, place_octets, prefix_octets, trigger_octets};
ghost use Rattle.zone_index.specs.declared.place.Place.{Place};

use crate::place::Place;
use dns_name::Pattern;
use ip_prefix::{Addr, Prefix};
use qname_index::Key;
use qname_index::laws::keys_are_of_patterns;
use std::alloc::AllocError;
use trigger_codec::Trigger;

// 2 to the power of 64
const HALF: u128 = 0x1_0000_0000_0000_0000;

/// Puts the octets of a place at the end, fewer than 300. After an `Err` a part of them may stand there.
pub(crate) fn write_place(out: &mut Vec<u8>, place: &Place) -> Result<(), AllocError>
    ensures octets { OnOk result (out.new.items ≡ out.old.items ++ place_octets place.now) }
    ensures sized { IsSized place.now }
    ensures short { length (place_octets place.now) ≤ 300 }
{
    match place {
        Place::Rule(trigger) => write_trigger(out, trigger),
        Place::Other(pattern) => write_pattern(out, 5, pattern),
    }
}

// puts the kind of a trigger and its octets at the end
fn write_trigger(out: &mut Vec<u8>, trigger: &Trigger) -> Result<(), AllocError>
    ensures octets { OnOk result (out.new.items ≡ out.old.items ++ trigger_octets trigger.now) }
    ensures sized { IsSizedTrigger trigger.now }
    ensures short { length (trigger_octets trigger.now) ≤ 300 }
{
    match trigger {
        Trigger::ClientIp(prefix) => write_prefix(out, 0, prefix),
        Trigger::Qname(pattern) => write_pattern(out, 1, pattern),
        Trigger::ResponseIp(prefix) => write_prefix(out, 2, prefix),
        Trigger::NsDname(pattern) => write_pattern(out, 3, pattern),
        Trigger::NsIp(prefix) => write_prefix(out, 4, prefix),
    }
}

// puts the kind of a place and the octets of its pattern at the end
fn write_pattern(out: &mut Vec<u8>, kind: u8, pattern: &Pattern) -> Result<(), AllocError>
    ensures octets { OnOk result (out.new.items ≡ out.old.items ++ kind ∷ pattern_octets pattern.now) }
    ensures short { length (pattern_octets pattern.now) ≤ 255 }
{
    let key = Key::of(pattern.base());
    out.push(kind)?;
    out.extend_from_slice(key.as_slice())?;
    out.push(u8::from(pattern.is_wild()))?;
    Ok(())
}

// puts the kind of a place and the octets of its prefix at the end
fn write_prefix(out: &mut Vec<u8>, kind: u8, prefix: &Prefix) -> Result<(), AllocError>
    ensures octets { OnOk result (out.new.items ≡ out.old.items ++ kind ∷ prefix_octets prefix.now) }
    ensures sized { number_of prefix.now.addr < 2 ^ 128 }
    ensures short { length (prefix_octets prefix.now) ≤ 18 }
{
    let addr = prefix.addr();
    out.extend_from_slice(&[kind, family(addr), prefix.length() as u8])?;
    write_number(out, number(addr))
}

// puts the 16 octets of a number at the end, the highest first
fn write_number(out: &mut Vec<u8>, number: u128) -> Result<(), AllocError>
    ensures octets { OnOk result (out.new.items ≡ out.old.items ++ number_octets number) }
{
    let high = (number / HALF) as u64;
    let low = (number % HALF) as u64;
    out.extend_from_slice(&high.to_be_bytes())?;
    out.extend_from_slice(&low.to_be_bytes())
}

// 0 for an address of version 4, 1 for one of version 6
fn family(addr: Addr) -> u8
    ensures { result ≡ family addr }
{
    match addr {
        Addr::V4(_) => 0,
        Addr::V6(_) => 1,
    }
}

// the bits as a number
fn number(addr: Addr) -> u128
    ensures { result ≡ number_of addr }
{
    match addr {
        Addr::V4(number) => u128::from(number),
        Addr::V6(number) => number,
    }
}

/// Two places whose octets are the same are the same. It is called for its clause.
pub(crate) fn octets_tell_places_apart()
    ensures { (p q : Place) → IsSized p → IsSized q → place_octets p ≡ place_octets q → p ≡ q }
{
    keys_are_of_patterns();
}
