//! Networks as text: an address and a length.

ghost use Rattle.std.specs.Prelude.{◌≡◌, IfOk, IfSome};
ghost use Rattle.ip_prefix.specs.Bits.{IsAddr};
ghost use Rattle.networks.specs.Network.{IsNetworkOfAddresses};
ghost use Rattle.networks.specs.NetworkText.{text_address, length_of, network_text};

use crate::decimal::read_decimal;
use crate::dotted::read_v4;
use crate::network::{Network, NetworkFault};
use crate::split::{has_byte, split_first};
use crate::v6::read_v6;
use ip_prefix::Addr;

/// Why a text writes no network. Where several things are wrong, the fault is the first of this list.
#[derive(Clone, Copy, Debug, PartialEq, Eq)]
pub enum NetworkTextFault {
    /// There is no `/`.
    Form,
    /// What stands before the first `/` is no address.
    Address,
    /// What stands behind it isn't 1 to 3 decimal digits, or the length is above the address's number of bits: 32 in version 4,
    /// 128 in version 6.
    Length,
    /// A bit of the address behind the length is 1.
    HostBits,
}

impl From<NetworkFault> for NetworkTextFault {
    ghost use Rattle.std.specs.Prelude.{◌≡◌};
    ghost use Rattle.networks.specs.NetworkText.{text_fault};

    ghost from_gives = { λ fault e. e ≡ text_fault fault };

    fn from(fault: NetworkFault) -> Self {
        match fault {
            NetworkFault::Length => NetworkTextFault::Length,
            NetworkFault::HostBits => NetworkTextFault::HostBits,
        }
    }
}

/// The network that `ADDRESS/LENGTH` writes (RFC 4632, section 3.1; RFC 4291, section 2.3). The length is from 0 to 32 in version
/// 4, and from 0 to 128 in version 6, and leading zeros are allowed in it. An address with a colon is of version 6, also a mapped
/// one (RFC 4291, section 2.5.5.2).
#[tactic(auto, unfolding(crate::specs::NetworkText::network_text))]
pub fn read_network(text: &[u8]) -> Result<Network, NetworkTextFault>
    ensures value { result ≡ network_text text.now }
    ensures of_addresses { IfOk result IsNetworkOfAddresses }
{
    let Some((addr, length)) = split_first(text, b'/') else {
        return Err(NetworkTextFault::Form);
    };
    let addr = read_address(addr).ok_or(NetworkTextFault::Address)?;
    let length = read_length(length).ok_or(NetworkTextFault::Length)?;
    Ok(Network::new(addr, length)?)
}

/// The address that a text writes: with a colon one of version 6, as [`read_v6`] reads it, else one of version 4, as
/// [`read_v4`] does.
pub fn read_address(text: &[u8]) -> Option<Addr>
    ensures value { result ≡ text_address text.now }
    ensures bits { IfSome result IsAddr }
{
    if has_byte(text, b':') {
        return Some(Addr::V6(read_v6(text)?));
    }
    Some(Addr::V4(read_v4(text)?))
}

// The length that 1 to 3 decimal digits write.
fn read_length(digits: &[u8]) -> Option<u32>
    ensures { result ≡ length_of digits.now }
{
    read_decimal(digits, 3, 1000)
}
