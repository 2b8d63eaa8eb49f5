//! The rule that comes first of those about the addresses of an answer.

ghost use Rattle.std.specs.Prelude.{◌≡◌};
ghost use Rattle.std.specs.List.{find};
ghost use Rattle.std.specs.List.Sorted.{IsStrictlySortedBy};
ghost use Rattle.std.specs.Map.{keys_of};
ghost use Rattle.std.specs.Option.{option_map};
ghost use Rattle.action_codec.specs.Seen.{action_seen};
ghost use Rattle.ip_prefix.specs.Prefix.{prefix_order};
ghost use Rattle.prefix_index.specs.Longest.{longest};
ghost use Rattle.zone_index.specs.Addresses.{first_about as first_of, holds_within};
ghost use Rattle.zone_index.specs.Earlier.{earlier_key};
ghost use Rattle.zone_index.specs.Placed.{rules_in};

use crate::indexed::IndexedRows;
use action_codec::ActionRef;
use dns_message::RecordRefs;
use dns_name::Name;
use dns_record::RecordRef;
use ip_prefix::{Addr, Prefix};
use std::cmp::Ordering;
use trigger_codec::Trigger;

/// The prefix of the rule that comes first of those whose prefix contains some address that the records hold for the
/// name.
pub(crate) fn first_prefix(
    rows: &IndexedRows,
    owner: &Name,
    records: &RecordRefs<'_>,
) -> Option<Prefix>
    ensures prefix { result ≡ option_map (λ e. e.0) (first_of owner.now records.now (rules_in rows.now).response_ip) }
    ensures sorted { IsStrictlySortedBy prefix_order (keys_of (rules_in rows.now).response_ip) }
{
    let mut first = None;
    for rr in records.iter() {
        first = earlier(first, about_record(rows, owner, rr));
    }
    first
}

// The prefix of the rule that comes first of those whose prefix contains the address that the record holds for the
// name.
#[tactic(auto, using(crate::proofs::FirstRule::by_address))]
fn about_record(rows: &IndexedRows, owner: &Name, rr: RecordRef<'_>) -> Option<Prefix>
    ensures { result
        ≡ option_map (λ e. e.0) (find (λ e. holds_within e.0 owner.now rr.entry) (rules_in rows.now).response_ip) }
{
    if !rr.owner().is_same(owner) {
        return None;
    }
    match rr.address() {
        None => None,
        Some(addr) => longest_prefix(rows, addr),
    }
}

// The longest prefix that contains the address and has a rule.
fn longest_prefix(rows: &IndexedRows, addr: Addr) -> Option<Prefix>
    ensures { result ≡ option_map (λ e. e.0) (longest addr (rules_in rows.now).response_ip) }
{
    match rows.response_ip(addr) {
        None => None,
        Some(found) => Some(found.0),
    }
}

// The one of two prefixes that comes first.
fn earlier(first: Option<Prefix>, other: Option<Prefix>) -> Option<Prefix>
    ensures { result ≡ earlier_key prefix_order first other }
{
    match (first, other) {
        (None, other) => other,
        (first, None) => first,
        (Some(first), Some(other)) => {
            if first.rank_cmp(&other) == Ordering::Less {
                Some(first)
            } else {
                Some(other)
            }
        }
    }
}

/// The rule of this prefix, which comes first of those about an answer.
pub(crate) fn first_about<'a>(
    rows: &'a IndexedRows,
    owner: &Name,
    records: &RecordRefs<'_>,
) -> Option<(Prefix, ActionRef<'a>)>
    ensures { option_map (λ e. (e.0, action_seen e.1)) result
        ≡ first_of owner.now records.now (rules_in rows.now).response_ip }
{
    let prefix = first_prefix(rows, owner, records)?;
    match rows.rule(&Trigger::ResponseIp(prefix)) {
        None => None,
        Some(action) => Some((prefix, action)),
    }
}
