//! What a field says.

ghost use Rattle.std.specs.Prelude.{◌≡◌, ◌≤◌, IfOk};
ghost use Rattle.dns_name.specs.Labels.{IsName};
ghost use Rattle.networks.specs.Network.{IsNetwork};
ghost use Rattle.script_codec.specs.Outcome.{Gives};
ghost use Rattle.script_codec.specs.Within.{IsWorker, IsMessage};
ghost use Rattle.script_codec.specs.Field.{name_field, number_field, zone_field, worker_field, transport_field, v4_field, v6_field, address_field, network_field, bytes_field, message_field};

use crate::line_fault::{LineFault, UnnumberedError};
use crate::state::WORKERS;
use dns_name::{Name, Octets, TextError};
use hex::{FromHex, FromHexError};
use ip_prefix::{Addr, Transport};
use networks::{Network, read_decimal, read_network, read_v4};
use std::alloc::Global;

/// The most digits of a number.
const NUMBER_DIGITS: usize = 10;

/// All numbers are below this one.
const NUMBER_BOUND: u64 = 4_294_967_296;

/// The most bytes of a message (RFC 1035, section 4.2.2).
const MESSAGE_BYTES: usize = 65_535;

/// The name that the text gives.
pub fn name(alloc: Global, text: &[u8]) -> Result<Name, UnnumberedError>
    ensures exact { Gives result (name_field text.now) }
    ensures name { IfOk result IsName }
{
    match Name::from_text(alloc, text) {
        Ok(name) => Ok(name),
        Err(TextError::OutOfMemory) => Err(UnnumberedError::OutOfMemory),
        Err(TextError::Fault(_)) => Err(UnnumberedError::Refused(LineFault::Name)),
    }
}

/// The number that 1 to 10 decimal digits write, from 0 to 4,294,967,295; leading zeros are allowed. Anything else is
/// `LineFault::Number`, a sign among it.
#[tactic(auto, unfolding(crate::specs::Field::number_field))]
pub fn number(digits: &[u8]) -> Result<u32, LineFault>
    ensures { result ≡ number_field digits.now }
{
    read_decimal(digits, NUMBER_DIGITS, NUMBER_BOUND).ok_or(LineFault::Number)
}

/// The number of a zone, of so many that there are. Zone 1 is the first.
#[tactic(auto, unfolding(crate::specs::Field::zone_field))]
pub fn zone(digits: &[u8], zones: usize) -> Result<u32, LineFault>
    ensures exact { result ≡ zone_field zones digits.now }
    ensures within { IfOk result (λ zone. (1 ≤ zone) × (zone ≤ zones)) }
{
    let zone = number(digits)?;
    if zone == 0 || zone as usize > zones {
        return Err(LineFault::NoZone);
    }
    Ok(zone)
}

/// The number of a worker. Worker 0 is the first.
#[tactic(auto, unfolding(crate::specs::Field::worker_field))]
pub fn worker(digits: &[u8]) -> Result<u32, LineFault>
    ensures exact { result ≡ worker_field digits.now }
    ensures within { IfOk result IsWorker }
{
    let worker = number(digits)?;
    if worker as usize >= WORKERS {
        return Err(LineFault::NoWorker);
    }
    Ok(worker)
}

/// The transport that `udp` or `tcp` names.
pub fn transport(text: &[u8]) -> Result<Transport, LineFault>
    ensures { result ≡ transport_field text.now }
{
    if text == b"udp".as_slice() {
        return Ok(Transport::Udp);
    }
    if text == b"tcp".as_slice() {
        return Ok(Transport::Tcp);
    }
    Err(LineFault::Transport)
}

/// The address that four decimals or 32 hexadecimal digits write.
#[tactic(auto, unfolding(crate::specs::Field::address_field))]
pub fn address(text: &[u8]) -> Result<Addr, LineFault>
    ensures { result ≡ address_field text.now }
{
    if text.len() == 32 {
        address_6(text)
    } else {
        address_4(text)
    }
}

/// The address of IP version 4 that four decimals write: each has 1 to 3 digits and is at most 255, and they are joined
/// by dots (RFC 3986, section 3.2.2, with leading zeros allowed). Anything else is `LineFault::Address`.
#[tactic(auto, unfolding(crate::specs::Field::v4_field))]
pub fn address_4(text: &[u8]) -> Result<Addr, LineFault>
    ensures { result ≡ v4_field text.now }
{
    match read_v4(text) {
        Some(number) => Ok(Addr::V4(number)),
        None => Err(LineFault::Address),
    }
}

// An address of IP version 6: 32 hexadecimal digits.
#[tactic(auto, unfolding(crate::specs::Field::v6_field))]
fn address_6(text: &[u8]) -> Result<Addr, LineFault>
    ensures { result ≡ v6_field text.now }
{
    match <[u8; 16]>::from_hex(text) {
        Ok(bytes) => Ok(Addr::V6(u128::from_be_bytes(bytes))),
        Err(_) => Err(LineFault::Address),
    }
}

/// The network that `ADDRESS/LENGTH` writes. Anything else is `LineFault::Prefix`.
#[tactic(auto, using(crate::proofs::NetworkBounds::network_bounds))]
pub fn network(text: &[u8]) -> Result<Network, LineFault>
    ensures exact { result ≡ network_field text.now }
    ensures within { IfOk result IsNetwork }
{
    match read_network(text) {
        Ok(network) => Ok(network),
        Err(_) => Err(LineFault::Prefix),
    }
}

/// The bytes that `-` or an even number of hexadecimal digits write.
#[tactic(auto, unfolding(crate::specs::Field::bytes_field))]
pub fn bytes(alloc: Global, text: &[u8]) -> Result<Octets, UnnumberedError>
    ensures { Gives result (bytes_field text.now) }
{
    if text == b"-".as_slice() {
        return Ok(Octets::new(alloc));
    }
    match hex::decode(alloc, text) {
        Ok(bytes) => Ok(Octets::from_vec(bytes)),
        Err(FromHexError::OutOfMemory) => Err(UnnumberedError::OutOfMemory),
        Err(_) => Err(UnnumberedError::Refused(LineFault::Hex)),
    }
}

/// The message that `-` or an even number of hexadecimal digits write, of at most 65,535 bytes.
#[tactic(auto, unfolding(crate::specs::Field::message_field))]
pub fn message(alloc: Global, text: &[u8]) -> Result<Octets, UnnumberedError>
    ensures exact { Gives result (message_field text.now) }
    ensures within { IfOk result IsMessage }
{
    let message = bytes(alloc, text)?;
    if message.len() > MESSAGE_BYTES {
        return Err(UnnumberedError::Refused(LineFault::Long));
    }
    Ok(message)
}
