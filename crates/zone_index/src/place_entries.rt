//! Entries of all places, of which tries are to be made.

ghost use Rattle.std.specs.Prelude.{◌≡◌, [], true, IfOk, OnOk, None};
ghost use Rattle.zone_index.specs.Kept.{is_kept};
ghost use Rattle.zone_index.specs.Made.{IsKeyBetween};
ghost use Rattle.zone_index.specs.PlaceOctets.{place_octets};
ghost use Rattle.zone_index.specs.Places.{entry_at, nothing_at, with_entry};

use crate::kept::Kept;
use crate::pattern_entries::PatternEntries;
use crate::patterns::Patterns;
use crate::place::Place;
use crate::places::Places;
use crate::prefix_entries::PrefixEntries;
use crate::prefixes::Prefixes;
use std::alloc::{AllocError, Global};
use trie_keys::Marked;
use trigger_codec::{ByKind, Trigger};

/// No entries.
pub(crate) fn empty<'a>(alloc: Global) -> Places<PrefixEntries, PatternEntries<'a>>
    ensures { result ≡ nothing_at }
{
    Places {
        rules: ByKind {
            client_ip: PrefixEntries::empty(alloc),
            qname: PatternEntries::empty(alloc),
            response_ip: PrefixEntries::empty(alloc),
            nsdname: PatternEntries::empty(alloc),
            nsip: PrefixEntries::empty(alloc),
        },
        other: PatternEntries::empty(alloc),
    }
}

// The key of the base in the octets of a place that has a pattern: all but the first and the last.
fn key_in(octets: &[u8]) -> &[u8]
    ensures { IsKeyBetween octets.now result.now }
{
    if octets.len() < 2 {
        return octets;
    }
    &octets[1..octets.len() - 1]
}

/// Puts the value at the place, which has none, and whose octets are these.
pub(crate) fn put<'a>(
    places: &mut Places<PrefixEntries, PatternEntries<'a>>,
    place: &Place,
    octets: &'a [u8],
    value: Marked<u32, Kept>,
) -> Result<(), AllocError>
    requires octets { octets.now ≡ place_octets place.now }
    requires present { is_kept value.mark ≡ true }
    requires none { entry_at places.old place.now ≡ None }
    ensures { OnOk result (places.new ≡ with_entry places.old place.now value) }
{
    let rules = &mut places.rules;
    match place {
        Place::Rule(Trigger::ClientIp(prefix)) => rules.client_ip.put(prefix, value),
        Place::Rule(Trigger::Qname(pattern)) => rules.qname.put(pattern, key_in(octets), value),
        Place::Rule(Trigger::ResponseIp(prefix)) => rules.response_ip.put(prefix, value),
        Place::Rule(Trigger::NsDname(pattern)) => rules.nsdname.put(pattern, key_in(octets), value),
        Place::Rule(Trigger::NsIp(prefix)) => rules.nsip.put(prefix, value),
        Place::Other(pattern) => places.other.put(pattern, key_in(octets), value),
    }
}

/// The tries of the entries.
pub(crate) fn built(
    alloc: Global,
    places: Places<PrefixEntries, PatternEntries<'_>>,
) -> Result<Places<Prefixes, Patterns>, AllocError>
    ensures { IfOk result (λ other. other ≡ places.entry) }
{
    let Places { rules, other } = places;
    let rules = built_rules(alloc, rules)?;
    let other = other.built(alloc)?;
    Ok(Places { rules, other })
}

fn built_rules(
    alloc: Global,
    rules: ByKind<PrefixEntries, PatternEntries<'_>>,
) -> Result<ByKind<Prefixes, Patterns>, AllocError>
    ensures { IfOk result (λ other. other ≡ rules.entry) }
{
    let ByKind {
        client_ip,
        qname,
        response_ip,
        nsdname,
        nsip,
    } = rules;
    let client_ip = client_ip.built(alloc)?;
    let qname = qname.built(alloc)?;
    let response_ip = response_ip.built(alloc)?;
    let nsdname = nsdname.built(alloc)?;
    let nsip = nsip.built(alloc)?;
    Ok(ByKind {
        client_ip,
        qname,
        response_ip,
        nsdname,
        nsip,
    })
}
