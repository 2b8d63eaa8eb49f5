//! Who may ask, as `--allow` says it.

ghost use Rattle.std.specs.Prelude.{◌≡◌, map, IfOk};
ghost use Rattle.std.specs.Result.{result_map_both};
ghost use Rattle.networks.specs.Allowed.{has_network, is_same_network};
ghost use Rattle.networks.specs.NetworkText.{network_text};
ghost use Rattle.rpz_words.specs.Lists.{allow_fault, each_of, has_twice, networks_of};
ghost use Rattle.rpz_words.specs.Outcome.{Gives, or_said};

use crate::cutting::comma_parts;
use crate::usage_cause::{AllowFault, UsageCause};
use crate::words_error::WordsError;
use networks::{AllowList, NETWORK_LIMIT, Network, read_network};
use std::alloc::{AllocError, Global};

/// The networks that the value of `--allow` writes: 1 to 64 with commas between them, none twice.
#[tactic(auto, unfolding(crate::specs::Lists::networks_of))]
pub(crate) fn read_networks(alloc: Global, text: &[u8]) -> Result<AllowList, WordsError>
    ensures { Gives result (networks_of text.now) }
{
    let parts = comma_parts(alloc, text)?;
    if parts.len() > NETWORK_LIMIT {
        return Err(WordsError::Usage(UsageCause::Allow(AllowFault::Many)));
    }
    let networks = read_each(alloc, parts.as_slice())?;
    if has_repeated(networks.as_slice()) {
        return Err(WordsError::Usage(UsageCause::Allow(AllowFault::Repeated)));
    }
    Ok(list_of(alloc, networks.as_slice())?)
}

// The network of each text.
fn read_each(alloc: Global, texts: &[&[u8]]) -> Result<Vec<Network>, WordsError>
    ensures { Gives (result_map_both (λ networks. networks.items) (λ error. error) result)
        (each_of network_text allow_fault 1 (map (λ text. text.now) texts.now)) }
{
    let mut networks = Vec::new(alloc);
    let mut number = 0;
    for text in texts {
        number += 1;
        let network = read_at(number, text)?;
        if networks.push(network).is_err() {
            return Err(WordsError::OutOfMemory);
        }
    }
    Ok(networks)
}

// The network of this number.
fn read_at(number: usize, text: &[u8]) -> Result<Network, UsageCause>
    ensures { result ≡ or_said (allow_fault number) (network_text text.now) }
{
    match read_network(text) {
        Ok(network) => Ok(network),
        Err(why) => Err(UsageCause::Allow(AllowFault::At { number, why })),
    }
}

// Whether two of the networks are equal.
fn has_repeated(networks: &[Network]) -> bool
    ensures { result ≡ has_twice is_same_network networks.now }
{
    let mut left = networks;
    while let [network, others @ ..] = left {
        if is_among(network, others) {
            return true;
        }
        left = others;
    }
    false
}

// Whether this network is one of them.
fn is_among(network: &Network, others: &[Network]) -> bool
    ensures { result ≡ has_network others.now network.now }
{
    others.iter().any(|other| other == network)
}

// The list of these networks.
fn list_of(alloc: Global, networks: &[Network]) -> Result<AllowList, AllocError>
    ensures { IfOk result (λ list. list ≡ networks.now) }
{
    let mut list = AllowList::everyone(alloc);
    for network in networks {
        list.push(*network)?;
    }
    Ok(list)
}
