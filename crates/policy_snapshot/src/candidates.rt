//! Which zones may have a rule that is hit.

ghost use Rattle.std.specs.Prelude.{◌≡◌, ◌<◌, ℕ, All, None, false, map};
ghost use Rattle.std.specs.List.{list_any};
ghost use Rattle.dns_name.specs.Labels.{lowered};
ghost use Rattle.summary_index.specs.Zones.{has_zone};
ghost use Rattle.upstream_link.specs.Known.{AreInOrder};
ghost use Rattle.zone_index.specs.Indexed.{HasRows};
ghost use Rattle.zone_rows.specs.declared.zone.PlainZone.{PlainZone};
ghost use Rattle.policy_snapshot.specs.Lookup as form;
ghost use Rattle.policy_snapshot.specs.Sight.{PlainSight, sight_seen};
ghost use Rattle.policy_snapshot.specs.Summed.{AreOfNames, KnowsZone, PlainSummaries, content_entries, is_candidate, may_be_about, may_be_client, may_contain, may_match};

use crate::sight::Sight;
use dns_message::RecordRefs;
use dns_name::Name;
use dns_name::laws::case_does_not_matter;
use dns_record::RecordRef;
use ip_prefix::Addr;
use qname_index::LookupName;
use std::marker::Brand;
use std::sync::ledger::{Blank, Ledger};
use summary_index::{NameSummary, PrefixSummary, Zones};
use trie_keys::{NumberSet, Steps};
use trigger_codec::ByKind;
use upstream_link::Names;
use zone_index::laws::{a_rule_does_what_its_rows_do, triggers_of_one_place_are_equal};

/// A law, which does nothing: a zone that is no candidate has no rule that is hit, by summaries that know its rules.
pub(crate) fn a_zone_that_is_no_candidate_has_no_hit()
    ensures { (number : ℕ) (sight : PlainSight) (zone : PlainZone) (s : PlainSummaries) →
        AreOfNames s → HasRows zone.content →
        KnowsZone number (content_entries zone.origin zone.content) s →
        is_candidate s sight number ≡ false → form.zone_hit number sight zone ≡ None }
{
    a_rule_does_what_its_rows_do();
    triggers_of_one_place_are_equal();
}

/// The zones that may have a rule that is hit, by the summaries of the kinds: all others have none. It takes no memory, and one walk in
/// a trie for each kind that is listed; for the kinds about records, servers and addresses, one for each of these.
pub(crate) fn candidates(summaries: &ByKind<PrefixSummary, NameSummary>, sight: &Sight<'_>) -> Zones
    requires name { sight.now.lower.now ≡ lowered sight.now.name.now }
    requires servers { All AreInOrder (map (λ list. list.now) sight.now.servers.now) }
    ensures { (n : ℕ) → has_zone result n ≡ is_candidate summaries.now (sight_seen sight.now) n }
{
    case_does_not_matter();
    let client = for_client(&summaries.client_ip, sight.position, sight.client);
    let name = matching(&summaries.qname, sight.lower);
    let records = for_records(&summaries.response_ip, sight.name, &sight.records);
    let servers = for_lists(&summaries.nsdname, sight.servers);
    let addresses = for_addresses(&summaries.nsip, sight.addresses);
    client.union(name.union(records.union(servers.union(addresses))))
}

// The zones that may have a rule about the client, which counts at the name of the query alone.
fn for_client(summary: &PrefixSummary, position: u32, client: Addr) -> Zones
    ensures { (n : ℕ) → has_zone result n ≡ may_be_client summary.now n position client }
{
    if position == 0 {
        containing(summary, client)
    } else {
        Zones::none()
    }
}

// The zones that may have a rule about an address that some of the records holds for the name.
fn for_records(summary: &PrefixSummary, name: &Name, records: &RecordRefs<'_>) -> Zones
    ensures { (n : ℕ) → has_zone result n
        ≡ list_any (may_be_about summary.now n name.now) records.now }
{
    let mut zones = Zones::none();
    for rr in records.iter() {
        zones = zones.union(for_record(summary, name, rr));
    }
    zones
}

// The zones that may have a rule about an address that the record holds for the name.
fn for_record(summary: &PrefixSummary, name: &Name, rr: RecordRef<'_>) -> Zones
    ensures { (n : ℕ) → has_zone result n ≡ may_be_about summary.now n name.now rr.entry }
{
    if !rr.owner().is_same(name) {
        return Zones::none();
    }
    match rr.address() {
        None => Zones::none(),
        Some(addr) => containing(summary, addr),
    }
}

// The zones that may have a rule about the name of some server in these lists.
fn for_lists(summary: &NameSummary, lists: &[&Names]) -> Zones
    requires { All AreInOrder (map (λ list. list.now) lists.now) }
    ensures { (n : ℕ) → has_zone result n
        ≡ list_any (list_any (may_match summary.now n)) (map (λ list. list.now) lists.now) }
{
    let mut zones = Zones::none();
    for list in lists {
        zones = zones.union(for_servers(summary, list.as_slice()));
    }
    zones
}

// The zones that may have a rule about the name of some of these servers, which are in lower case.
fn for_servers(summary: &NameSummary, servers: &[Name]) -> Zones
    requires { All (λ server. lowered server ≡ server) servers.now }
    ensures { (n : ℕ) → has_zone result n ≡ list_any (may_match summary.now n) servers.now }
{
    let mut zones = Zones::none();
    for server in servers {
        zones = zones.union(matching(summary, &LookupName::of(server)));
    }
    zones
}

// The zones that may have a rule about some of these addresses of servers.
fn for_addresses(summary: &PrefixSummary, addresses: &[Addr]) -> Zones
    ensures { (n : ℕ) → has_zone result n ≡ list_any (may_contain summary.now n) addresses.now }
{
    let mut zones = Zones::none();
    for addr in addresses {
        zones = zones.union(containing(summary, *addr));
    }
    zones
}

// The zones that may have a rule whose pattern matches the name.
fn matching(summary: &NameSummary, name: &LookupName) -> Zones
    ensures { (n : ℕ) → has_zone result n ≡ may_match summary.now n name.now }
{
    matching_from::<Brand>(Blank::new(1), summary, name)
}

// The same with a new ledger for the count of steps.
fn matching_from<L: Ledger>(blank: Blank, summary: &NameSummary, name: &LookupName) -> Zones
    requires name { blank.name ≡ L.name }
    requires parts { blank.parts ≡ L.parts }
    requires some { 0 < blank.parts }
    ensures { (n : ℕ) → has_zone result n ≡ may_match summary.now n name.now }
{
    let mut steps = Steps::<L>::start(blank);
    summary.zones_for_name(name, &mut steps)
}

// The zones that may have a rule whose prefix contains the address.
fn containing(summary: &PrefixSummary, addr: Addr) -> Zones
    ensures { (n : ℕ) → has_zone result n ≡ may_contain summary.now n addr }
{
    containing_from::<Brand>(Blank::new(1), summary, addr)
}

// The same with a new ledger for the count of steps.
fn containing_from<L: Ledger>(blank: Blank, summary: &PrefixSummary, addr: Addr) -> Zones
    requires name { blank.name ≡ L.name }
    requires parts { blank.parts ≡ L.parts }
    requires some { 0 < blank.parts }
    ensures { (n : ℕ) → has_zone result n ≡ may_contain summary.now n addr }
{
    let mut steps = Steps::<L>::start(blank);
    summary.zones_for_addr(addr, &mut steps)
}
