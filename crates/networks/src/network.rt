//! A network of addresses.

ghost use Rattle.std.specs.Prelude.{◌≡◌, ◌≤◌};
ghost use Rattle.ip_prefix.specs.Prefix.{contains, has_host_bits, width};
ghost use Rattle.networks.specs.Network.{network_of, IsNetwork};

use crate::bits::{high_u32, high_u128, low_u32, low_u128};
use ip_prefix::Addr;
use std::marker::Model;

/// Why an address and a length make no network.
#[derive(Clone, Copy, Debug, PartialEq, Eq)]
pub enum NetworkFault {
    /// The length is above the address's number of bits: 32 in version 4, 128 in version 6.
    Length,
    /// A bit of the address behind the length is 1. It is given only where the length is in its bounds.
    HostBits,
}

/// A network: an address and a length in bits, where each bit of the address behind the length is 0 (RFC 4632, section 3.1;
/// RFC 4291, section 2.3). The length is from 0 to 32 in version 4, and from 0 to 128 in version 6; of length 0 is the network
/// of all addresses of a version. Contracts see the two.
#[derive(Clone, Copy, Debug, PartialEq, Eq)]
pub struct Network {
    addr: Addr,
    bits: u32,
}

impl Model for Network {
    ghost use Rattle.ip_prefix.specs.Prefix.{PlainPrefix};
    ghost use Rattle.networks.specs.Network.{IsNetwork};

    ghost Value = { PlainPrefix };

    ghost view = { λ n. record { addr = n.addr; length = n.bits } };

    ghost invariant = { λ n. IsNetwork (record { addr = n.addr; length = n.bits }) };

    ghost inverse = { λ n. record { addr = n.addr; bits = n.length } };
}

impl Network {
    /// The network of this address and length in bits, or what is wrong with them: first [`NetworkFault::Length`], then
    /// [`NetworkFault::HostBits`].
    pub fn new(addr: Addr, length: u32) -> Result<Network, NetworkFault>
        ensures { result ≡ network_of addr length }
    {
        if length > addr.width() {
            return Err(NetworkFault::Length);
        }
        if has_bits_behind(addr, length) {
            return Err(NetworkFault::HostBits);
        }
        Ok(Network { addr, bits: length })
    }

    /// The smallest address of the network.
    pub fn addr(&self) -> Addr
        ensures addr { result ≡ self.now.addr }
        ensures is_network { IsNetwork self.now }
    {
        self.addr
    }

    /// The length in bits: from 0 to 32 in version 4, and from 0 to 128 in version 6.
    pub fn length(&self) -> u32
        ensures length { result ≡ self.now.length }
        ensures is_network { IsNetwork self.now }
    {
        self.bits
    }

    /// Whether the address is in the network. One of the other version never is, mapped or not.
    pub fn has(&self, addr: Addr) -> bool
        ensures { result ≡ contains self.now addr }
    {
        match (self.addr, addr) {
            (Addr::V4(network), Addr::V4(number)) => {
                high_u32(network, 32 - self.bits) == high_u32(number, 32 - self.bits)
            }
            (Addr::V6(network), Addr::V6(number)) => {
                high_u128(network, 128 - self.bits) == high_u128(number, 128 - self.bits)
            }
            _ => false,
        }
    }
}

// Whether some bit behind the first of them, so many, is 1.
fn has_bits_behind(addr: Addr, length: u32) -> bool
    requires { length ≤ width addr }
    ensures { result ≡ has_host_bits addr length }
{
    match addr {
        Addr::V4(number) => low_u32(number, 32 - length) > 0,
        Addr::V6(number) => low_u128(number, 128 - length) > 0,
    }
}
