//! The best hit among the rules of one zone.

ghost use Rattle.std.specs.Prelude.{◌≡◌, All, map, option_map};
ghost use Rattle.dns_name.specs.Labels.{lowered};
ghost use Rattle.rpz_precedence.specs.Seen.{hit_seen};
ghost use Rattle.upstream_link.specs.Known.{AreInOrder};
ghost use Rattle.policy_snapshot.specs.Lookup as form;
ghost use Rattle.policy_snapshot.specs.Lookup.{best_over};
ghost use Rattle.policy_snapshot.specs.Sight.{sight_seen};

use crate::sight::Sight;
use dns_name::Name;
use dns_name::laws::case_does_not_matter;
use dns_record::Record;
use ip_prefix::Addr;
use qname_index::LookupName;
use rpz_precedence::{Hit, TriggerRef, before};
use upstream_link::Names;
use zone_index::{Rules, Zone};

/// The best hit among the rules of a zone of this number. Its time is that of some look-ups, linear in the number of
/// records, servers and addresses where the zone has rules about them.
#[inline(always)]
pub(crate) fn zone_hit<'a>(number: u32, zone: &'a Zone, sight: &Sight<'_>) -> Option<Hit<'a>>
    requires name { sight.now.lower.now ≡ lowered sight.now.name.now }
    requires servers { All AreInOrder (map (λ list. list.now) sight.now.servers.now) }
    ensures { option_map hit_seen result ≡ form.zone_hit number (sight_seen sight.now) zone.now }
{
    match zone.index() {
        None => None,
        Some(index) => rules_hit(number, index.soa_record(), index.rules(), sight),
    }
}

// The best hit among rules.
#[inline(always)]
fn rules_hit<'a>(
    number: u32,
    soa: &'a Record,
    rules: &Rules<'a>,
    sight: &Sight<'_>,
) -> Option<Hit<'a>>
    requires name { sight.now.lower.now ≡ lowered sight.now.name.now }
    requires servers { All AreInOrder (map (λ list. list.now) sight.now.servers.now) }
    ensures { option_map hit_seen result
        ≡ form.index_hit number soa.now (sight_seen sight.now) rules.now }
{
    case_does_not_matter();
    if sight.position == 0 {
        if let Some((prefix, action)) = rules.client_ip(sight.client) {
            let trigger = TriggerRef::ClientIp(prefix);
            return Some(Hit {
                position: sight.position,
                zone: number,
                trigger,
                action,
                soa,
            });
        }
    }
    if let Some((pattern, action)) = rules.qname(sight.lower) {
        let trigger = TriggerRef::Qname(pattern);
        return Some(Hit {
            position: sight.position,
            zone: number,
            trigger,
            action,
            soa,
        });
    }
    if let Some((prefix, action)) = rules.response_ip(sight.name, &sight.records) {
        let trigger = TriggerRef::ResponseIp(prefix);
        return Some(Hit {
            position: sight.position,
            zone: number,
            trigger,
            action,
            soa,
        });
    }
    let hit = servers_hit(number, soa, rules, sight.position, sight.servers);
    if hit.is_some() {
        return hit;
    }
    addresses_hit(number, soa, rules, sight.position, sight.addresses)
}

// The best hit of the rules about names of servers, for servers in lists. Where no zone has such rules there are no lists.
#[inline(always)]
fn servers_hit<'a>(
    number: u32,
    soa: &'a Record,
    rules: &Rules<'a>,
    position: u32,
    lists: &[&Names],
) -> Option<Hit<'a>>
    requires { All AreInOrder (map (λ list. list.now) lists.now) }
    ensures { option_map hit_seen result
        ≡ best_over (best_over (form.server_hit position number soa.now rules.now))
        (map (λ list. list.now) lists.now) }
{
    if lists.is_empty() {
        return None;
    }
    lists_hit(number, soa, rules, position, lists)
}

// The same, however many lists there are.
fn lists_hit<'a>(
    number: u32,
    soa: &'a Record,
    rules: &Rules<'a>,
    position: u32,
    lists: &[&Names],
) -> Option<Hit<'a>>
    requires { All AreInOrder (map (λ list. list.now) lists.now) }
    ensures { option_map hit_seen result
        ≡ best_over (best_over (form.server_hit position number soa.now rules.now))
        (map (λ list. list.now) lists.now) }
{
    let mut best = None;
    for list in lists {
        if let Some(hit) = names_hit(number, soa, rules, position, list.as_slice()) {
            if goes_before(&hit, &best) {
                best = Some(hit);
            }
        }
    }
    best
}

// The best hit of the rules about names of servers, for servers of these names in lower case.
fn names_hit<'a>(
    number: u32,
    soa: &'a Record,
    rules: &Rules<'a>,
    position: u32,
    servers: &[Name],
) -> Option<Hit<'a>>
    requires { All (λ server. lowered server ≡ server) servers.now }
    ensures { option_map hit_seen result
        ≡ best_over (form.server_hit position number soa.now rules.now) servers.now }
{
    let mut best = None;
    for server in servers {
        if let Some((pattern, action)) = rules.nsdname(&LookupName::of(server)) {
            let trigger = TriggerRef::NsDname(pattern);
            let hit = Hit {
                position,
                zone: number,
                trigger,
                action,
                soa,
            };
            if goes_before(&hit, &best) {
                best = Some(hit);
            }
        }
    }
    best
}

// The best hit of the rules about addresses of servers. Where no zone has such rules there are no addresses.
#[inline(always)]
fn addresses_hit<'a>(
    number: u32,
    soa: &'a Record,
    rules: &Rules<'a>,
    position: u32,
    addresses: &[Addr],
) -> Option<Hit<'a>>
    ensures { option_map hit_seen result
        ≡ best_over (form.address_hit position number soa.now rules.now) addresses.now }
{
    if addresses.is_empty() {
        return None;
    }
    each_address_hit(number, soa, rules, position, addresses)
}

// The same, however many addresses there are.
fn each_address_hit<'a>(
    number: u32,
    soa: &'a Record,
    rules: &Rules<'a>,
    position: u32,
    addresses: &[Addr],
) -> Option<Hit<'a>>
    ensures { option_map hit_seen result
        ≡ best_over (form.address_hit position number soa.now rules.now) addresses.now }
{
    let mut best = None;
    for addr in addresses {
        if let Some((prefix, action)) = rules.nsip(*addr) {
            let trigger = TriggerRef::NsIp(prefix);
            let hit = Hit {
                position,
                zone: number,
                trigger,
                action,
                soa,
            };
            if goes_before(&hit, &best) {
                best = Some(hit);
            }
        }
    }
    best
}

// Whether the hit goes before the best one so far.
fn goes_before(hit: &Hit<'_>, best: &Option<Hit<'_>>) -> bool
    ensures { result ≡ form.goes_before (hit_seen hit.now) (option_map hit_seen best.now) }
{
    match best {
        None => true,
        Some(best) => before(hit, best),
    }
}
