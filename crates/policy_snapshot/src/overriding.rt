//! Hits under the operator's overrides.

ghost use Rattle.std.specs.Prelude.{◌≡◌, ◌≤◌, ◌∷◌, [], All, None, false, map, option_map};
ghost use Rattle.dns_name.specs.Labels.{lowered, name_octets};
ghost use Rattle.dns_record.specs.declared.rtype.TheConstants.{CNAME};
ghost use Rattle.action_codec.specs.Seen.{action_seen};
ghost use Rattle.rpz_precedence.specs.Seen.{hit_seen};
ghost use Rattle.summary_index.specs.Zones.{has_zone};
ghost use Rattle.upstream_link.specs.Known.{AreInOrder};
ghost use Rattle.policy_snapshot.specs.Lookup as form;
ghost use Rattle.policy_snapshot.specs.Overridden.{override_action};
ghost use Rattle.policy_snapshot.specs.Sight.{sight_seen};
ghost use Rattle.zone_rows.specs.declared.zone.TheConstants.{ZONE_LIMIT};

use crate::lookup::zone_hit;
use crate::sight::Sight;
use action_codec::{ActionRef, LocalPart, LocalRef};
use dns_name::Name;
use dns_record::{Record, rtype};
use policy_override::{Override, Overrides};
use rpz_precedence::Hit;
use summary_index::Zones;
use zone_index::Zone;

/// The best hit among the rules of a zone of this number, under its override. The zone isn't looked at where it is none of the
/// candidates, or disabled.
pub(crate) fn ruled_hit<'a>(
    candidates: Zones,
    overrides: &'a Overrides,
    number: u32,
    zone: &'a Zone,
    sight: &Sight<'_>,
) -> Option<Hit<'a>>
    requires some { 1 ≤ number }
    requires within { number ≤ ZONE_LIMIT }
    requires name { sight.now.lower.now ≡ lowered sight.now.name.now }
    requires servers { All AreInOrder (map (λ list. list.now) sight.now.servers.now) }
    requires passed { has_zone candidates number ≡ false →
        form.zone_hit number (sight_seen sight.now) zone.now ≡ None }
    ensures { option_map hit_seen result
        ≡ form.ruled_hit overrides.now number (sight_seen sight.now) zone.now }
{
    if candidates.has(number) {
        hit_under_override(overrides, number, zone, sight)
    } else {
        None
    }
}

/// The same, whether the zone is a candidate or not. It isn't looked at where it is disabled.
#[inline(always)]
pub(crate) fn hit_under_override<'a>(
    overrides: &'a Overrides,
    number: u32,
    zone: &'a Zone,
    sight: &Sight<'_>,
) -> Option<Hit<'a>>
    requires some { 1 ≤ number }
    requires within { number ≤ ZONE_LIMIT }
    requires name { sight.now.lower.now ≡ lowered sight.now.name.now }
    requires servers { All AreInOrder (map (λ list. list.now) sight.now.servers.now) }
    ensures { option_map hit_seen result
        ≡ form.ruled_hit overrides.now number (sight_seen sight.now) zone.now }
{
    let over = overrides.at(number);
    if !over.is_ruling() {
        return None;
    }
    match zone_hit(number, zone, sight) {
        None => None,
        Some(hit) => Some(overridden(over, hit)),
    }
}

// The hit with the action that the override puts into the place of its own.
#[inline(always)]
fn overridden<'a>(over: &'a Override, hit: Hit<'a>) -> Hit<'a>
    ensures { hit_seen result ≡ form.hit_under over.now (hit_seen hit.entry) }
{
    let Hit {
        position,
        zone,
        trigger,
        action,
        soa,
    } = hit;
    let action = match action_of(over, soa) {
        None => action,
        Some(other) => other,
    };
    Hit {
        position,
        zone,
        trigger,
        action,
        soa,
    }
}

// The action that the override puts into the place of that of each rule of a zone of this SOA record, where it has one.
fn action_of<'a>(over: &'a Override, soa: &Record) -> Option<ActionRef<'a>>
    ensures { option_map action_seen result ≡ override_action over.now soa.now }
{
    match over {
        Override::Given => None,
        Override::Disabled => None,
        Override::NxDomain => Some(ActionRef::NxDomain),
        Override::NoData => Some(ActionRef::NoData),
        Override::PassThru => Some(ActionRef::PassThru),
        Override::Drop => Some(ActionRef::Drop),
        Override::TcpOnly => Some(ActionRef::TcpOnly),
        Override::Cname(target) => Some(ActionRef::Local(alias(target, soa.ttl()))),
    }
}

// One CNAME record to the target.
fn alias<'a>(target: &'a Name, ttl: u32) -> LocalRef<'a>
    ensures { result ≡ record { rtype = CNAME; ttl = ttl; rdata = name_octets target.now } ∷ [] }
{
    LocalRef::one(LocalPart {
        rtype: rtype::CNAME,
        ttl,
        rdata: target.octets(),
    })
}
