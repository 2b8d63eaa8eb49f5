//! A list of networks whose clients may ask.

ghost use Rattle.std.specs.Prelude.{◌≡◌, [], ◌∷◌, ◌++◌, length, IfOk, OnOk, OnErr};
ghost use Rattle.std.specs.List.{list_any};
ghost use Rattle.ip_prefix.specs.Prefix.{contains};
ghost use Rattle.networks.specs.Allowed.{has_network, is_allowed};

use crate::network::Network;
use ip_prefix::Addr;
use std::alloc::{AllocError, Global};
use std::marker::Model;

/// The most networks of a list that is read.
pub const NETWORK_LIMIT: usize = 64;

/// The networks whose clients may ask; where there is none, everyone may. Contracts see the list.
#[derive(Debug, Drop)]
pub struct AllowList {
    networks: Vec<Network>,
}

impl Model for AllowList {
    ghost use Rattle.std.specs.Prelude.{List};
    ghost use Rattle.ip_prefix.specs.Prefix.{PlainPrefix};

    ghost Value = { List PlainPrefix };

    ghost view = { λ a. a.networks.items };
}

impl AllowList {
    /// No networks, so that everyone may ask. It takes no memory.
    pub fn everyone(alloc: Global) -> Self
        ensures { result ≡ [] }
    {
        AllowList {
            networks: Vec::new(alloc),
        }
    }

    /// Puts a network at the end. An `Err` leaves the list as it was.
    pub fn push(&mut self, network: Network) -> Result<(), AllocError>
        ensures ok { OnOk result (self.new ≡ self.old ++ network ∷ []) }
        ensures err { OnErr result (self.new ≡ self.old) }
    {
        self.networks.push(network)?;
        Ok(())
    }

    /// How many networks there are.
    pub fn len(&self) -> usize
        ensures { result ≡ length self.now }
    {
        self.networks.len()
    }

    /// Whether this network is one of them. A network inside another is another network.
    pub fn contains(&self, network: &Network) -> bool
        ensures { result ≡ has_network self.now network.now }
    {
        is_among(self.networks.as_slice(), network)
    }

    /// A copy of the list.
    pub fn again(&self, alloc: Global) -> Result<Self, AllocError>
        ensures { IfOk result (λ list. list ≡ self.now) }
    {
        Ok(AllowList {
            networks: Vec::from_slice(alloc, self.networks.as_slice())?,
        })
    }

    /// Whether a client of this address may ask.
    pub fn allows(&self, addr: Addr) -> bool
        ensures { result ≡ is_allowed self.now addr }
    {
        self.networks.is_empty() || is_in_one(self.networks.as_slice(), addr)
    }
}

// Whether this network is one of them.
fn is_among(networks: &[Network], network: &Network) -> bool
    ensures { result ≡ has_network networks.now network.now }
{
    networks.iter().any(|other| other == network)
}

// Whether the address is in one of the networks.
fn is_in_one(networks: &[Network], addr: Addr) -> bool
    ensures { result ≡ list_any (λ network. contains network addr) networks.now }
{
    networks.iter().any(|network| network.has(addr))
}
