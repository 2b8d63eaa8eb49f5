//! The canonical owner of a trigger.

ghost use Rattle.std.specs.Prelude.{◌≡◌, Ok, [], ◌∷◌, ◌++◌, codes, IfOk};
ghost use Rattle.dns_name.specs.Join.{join_outcome, JoinGives};
ghost use Rattle.dns_name.specs.Text.{text_name};
ghost use Rattle.trigger_codec.specs.Canonical.{prefix_labels, pattern_labels, canonical_owner};
ghost use Rattle.trigger_codec.specs.Dotted.{IsShort};

use crate::spelling::text_of_prefix;
use crate::trigger::Trigger;
use dns_name::laws::a_name_is_read_from_its_text;
use dns_name::{JoinError, Name, Pattern};
use ip_prefix::Prefix;
use std::alloc::{AllocError, Global};

/// The canonical owner of the trigger in the zone of this origin: lower case before the origin, digits
/// without leading zeros, and `zz` for the longest run of two or more zero words, the first in the address
/// where two are equal. It is `TooLong` if it would be written in more than 255 bytes (RFC 1035, section
/// 2.3.4).
#[tactic(auto, unfolding(crate::specs::Canonical::trigger_labels))]
pub fn owner_of(alloc: Global, trigger: &Trigger, origin: &Name) -> Result<Name, JoinError>
    ensures { JoinGives result (canonical_owner trigger.now origin.now) }
{
    match trigger {
        Trigger::ClientIp(prefix) => owner_of_prefix(alloc, prefix, "rpz-client-ip", origin),
        Trigger::Qname(pattern) => owner_of_pattern(alloc, pattern, origin),
        Trigger::ResponseIp(prefix) => owner_of_prefix(alloc, prefix, "rpz-ip", origin),
        Trigger::NsDname(pattern) => owner_of_servers(alloc, pattern, origin),
        Trigger::NsIp(prefix) => owner_of_prefix(alloc, prefix, "rpz-nsip", origin),
    }
}

// The labels of the prefix and this label, before the origin.
fn owner_of_prefix(
    alloc: Global,
    prefix: &Prefix,
    marker: &str,
    origin: &Name,
) -> Result<Name, JoinError>
    requires { IsShort 20 marker.now }
    ensures { JoinGives result
        (join_outcome (prefix_labels prefix.now ++ marker.now ∷ []) origin.now) }
{
    let text = text_of_prefix(alloc, prefix, marker)?;
    a_name_is_read_from_its_text();
    let front = name_of(alloc, text.as_bytes())?;
    Name::join(alloc, &front, origin)
}

// The labels of the pattern before the zone.
fn owner_of_pattern(alloc: Global, pattern: &Pattern, zone: &Name) -> Result<Name, JoinError>
    ensures { JoinGives result (join_outcome (pattern_labels pattern.now) zone.now) }
{
    if pattern.is_wild() {
        let wild = name_of(alloc, b"*")?;
        let base = Name::join(alloc, pattern.base(), zone)?;
        Name::join(alloc, &wild, &base)
    } else {
        Name::join(alloc, pattern.base(), zone)
    }
}

// The labels of the pattern and `rpz-nsdname` before the origin.
fn owner_of_servers(alloc: Global, pattern: &Pattern, origin: &Name) -> Result<Name, JoinError>
    ensures { JoinGives result
        (join_outcome (pattern_labels pattern.now ++ codes "rpz-nsdname" ∷ []) origin.now) }
{
    let marker = name_of(alloc, b"rpz-nsdname")?;
    let zone = Name::join(alloc, &marker, origin)?;
    owner_of_pattern(alloc, pattern, &zone)
}

// The name of a text that gives one, so that only memory can lack.
fn name_of(alloc: Global, text: &[u8]) -> Result<Name, AllocError>
    ensures { IfOk result (λ name. text_name text.now ≡ Ok name) }
{
    match Name::from_text(alloc, text) {
        Ok(name) => Ok(name),
        Err(_) => Err(AllocError),
    }
}
