//! The summary of a kind of prefixes, once a zone is another.

ghost use Rattle.std.specs.Prelude.{◌≡◌, ◌==◌, ◌&&◌, ◌||◌, ◌≤◌, ℕ, true, false, if◌then◌else◌, option_copied, IfOk};
ghost use Rattle.std.specs.BTreeMap.{is_at};
ghost use Rattle.std.specs.List.Sorted.{IsStrictlySortedBy};
ghost use Rattle.std.specs.Map.{keys_of};
ghost use Rattle.ip_prefix.specs.Prefix.{PlainPrefix, prefix_order};
ghost use Rattle.summary_index.specs.Summary.{zones_at};
ghost use Rattle.summary_index.specs.Zones.{has_zone};
ghost use Rattle.zone_index.specs.Listed.{is_same};
ghost use Rattle.policy_snapshot.specs.Listing.{AreChangesAt, AreSameElsewhere, IsThere, KnowsPrefixes, ZonesHave};
ghost use Rattle.policy_snapshot.specs.Listing.{has_prefix, is_of_patterns, prefix_of_kind, prefix_trigger, zones_after, zones_before};
ghost use Rattle.zone_rows.specs.declared.zone.TheConstants.{ZONE_LIMIT};

use crate::new_zone::NewZone;
use crate::summaries::{has_kind, zones_with};
use ip_prefix::Prefix;
use std::alloc::{AllocError, Global};
use summary_index::{PrefixSummary, Zones, merged_prefixes};
use trie_keys::Marked;
use trigger_codec::{Kind, Trigger};
use zone_index::laws::{a_rule_does_what_its_rows_do, triggers_of_one_place_are_equal};
use zone_index::{Changes, Zone};

/// What is known of a kind of prefixes once a zone is another, whose rules at other triggers than these are as before. Where one zone
/// alone has rules of the kind, or none has, it isn't listed. Where it is listed, a few triggers are changed one by one, and for all of
/// them it is listed anew from what it had and the rules of the zone, in one pass. Where a second zone gets rules of the kind, it is
/// listed from the rules of both. Where the zone has no rules of the kind and had none, it stays as it is.
pub(crate) fn prefixes_after(
    alloc: Global,
    before: &PrefixSummary,
    kind: Kind,
    next: &NewZone<'_>,
    changes: &Changes,
) -> Result<PrefixSummary, AllocError>
    requires kind { is_of_patterns kind ≡ false }
    requires there { IsThere next.now }
    requires known { KnowsPrefixes kind (zones_before next.now) before.now }
    requires changes { AreChangesAt next.now changes.now }
    ensures { IfOk result (KnowsPrefixes kind (zones_after next.now)) }
{
    let has = has_kind(next.zone, kind);
    if !has && !before.having().has(next.number) {
        return before.share();
    }
    let having = zones_with(before.having(), next.number, has);
    if !having.are_several() {
        return Ok(PrefixSummary::empty(alloc).with_having(having));
    }
    if !before.is_listed() {
        return listed(alloc, kind, having, next);
    }
    match changes {
        Changes::All => relisted(alloc, before, kind, having, next),
        Changes::Triggers(triggers) => edited(before, kind, having, next, triggers),
    }
}

// The prefixes that have a rule of the kind in the zone, each with its number.
fn rules_by_rank(
    alloc: Global,
    zone: &Zone,
    kind: Kind,
    number: u32,
) -> Result<Vec<(Prefix, Marked<Zones, bool>)>, AllocError>
    requires kind { is_of_patterns kind ≡ false }
    requires some { 1 ≤ number }
    requires within { number ≤ ZONE_LIMIT }
    ensures keys { IfOk result (λ entries. IsStrictlySortedBy prefix_order (keys_of entries.items)) }
    ensures rules { IfOk result (λ entries. (p : PlainPrefix) → (n : ℕ) → 1 ≤ n → n ≤ ZONE_LIMIT →
        has_zone (zones_at prefix_order p entries.items) n ≡ (n == number && has_prefix kind zone.now p)) }
{
    match zone.index() {
        None => Ok(Vec::new(alloc)),
        Some(index) => {
            index
                .rules()
                .prefixes(alloc, kind, Zones::default().with(number))
        }
    }
}

// The entries, and the rules of the zone of this number.
fn with_rules(
    alloc: Global,
    entries: &[(Prefix, Marked<Zones, bool>)],
    zone: &Zone,
    kind: Kind,
    number: u32,
) -> Result<Vec<(Prefix, Marked<Zones, bool>)>, AllocError>
    requires kind { is_of_patterns kind ≡ false }
    requires some { 1 ≤ number }
    requires within { number ≤ ZONE_LIMIT }
    requires keys { IsStrictlySortedBy prefix_order (keys_of entries.now) }
    ensures keys { IfOk result (λ all. IsStrictlySortedBy prefix_order (keys_of all.items)) }
    ensures rules { IfOk result (λ all. (p : PlainPrefix) → (n : ℕ) → 1 ≤ n → n ≤ ZONE_LIMIT →
        has_zone (zones_at prefix_order p all.items) n
        ≡ (has_zone (zones_at prefix_order p entries.now) n || (n == number && has_prefix kind zone.now p))) }
{
    let rules = rules_by_rank(alloc, zone, kind, number)?;
    merged_prefixes(alloc, entries, &rules)
}

// The kind, listed from the rules of all zones that have some.
fn listed(
    alloc: Global,
    kind: Kind,
    having: Zones,
    next: &NewZone<'_>,
) -> Result<PrefixSummary, AllocError>
    requires kind { is_of_patterns kind ≡ false }
    requires there { IsThere next.now }
    requires having { ZonesHave kind (zones_after next.now) having }
    ensures { IfOk result (KnowsPrefixes kind (zones_after next.now)) }
{
    let mut entries = Vec::new(alloc);
    let mut number = 0;
    for zone in next.zones {
        number += 1;
        if having.has(number) {
            entries = with_rules(alloc, &entries, next.or_new(number, zone), kind, number)?;
        }
    }
    PrefixSummary::listed(alloc, having, &entries)
}

// The kind, listed from what it had of other zones and from the rules of the zone.
fn relisted(
    alloc: Global,
    before: &PrefixSummary,
    kind: Kind,
    having: Zones,
    next: &NewZone<'_>,
) -> Result<PrefixSummary, AllocError>
    requires kind { is_of_patterns kind ≡ false }
    requires there { IsThere next.now }
    requires listed { before.now.is_listed ≡ true }
    requires known { KnowsPrefixes kind (zones_before next.now) before.now }
    requires having { ZonesHave kind (zones_after next.now) having }
    ensures { IfOk result (KnowsPrefixes kind (zones_after next.now)) }
{
    let others = before.without_zone(alloc, next.number)?;
    let entries = with_rules(alloc, &others, next.zone, kind, next.number)?;
    PrefixSummary::listed(alloc, having, &entries)
}

// The kind with these triggers as the zone has them now.
fn edited(
    before: &PrefixSummary,
    kind: Kind,
    having: Zones,
    next: &NewZone<'_>,
    triggers: &[Trigger],
) -> Result<PrefixSummary, AllocError>
    requires kind { is_of_patterns kind ≡ false }
    requires there { IsThere next.now }
    requires listed { before.now.is_listed ≡ true }
    requires known { KnowsPrefixes kind (zones_before next.now) before.now }
    requires having { ZonesHave kind (zones_after next.now) having }
    requires others { AreSameElsewhere next.now triggers.now }
    ensures { IfOk result (KnowsPrefixes kind (zones_after next.now)) }
{
    a_rule_does_what_its_rows_do();
    triggers_of_one_place_are_equal();
    let mut summary = before.share()?.with_having(having);
    for trigger in triggers {
        summary = edited_at(summary, kind, next.number, next.zone, trigger)?;
    }
    Ok(summary)
}

// The summary with the trigger as the zone of this number has it, if it is of the kind.
fn edited_at(
    summary: PrefixSummary,
    kind: Kind,
    number: u32,
    zone: &Zone,
    trigger: &Trigger,
) -> Result<PrefixSummary, AllocError>
    requires kind { is_of_patterns kind ≡ false }
    requires some { 1 ≤ number }
    requires within { number ≤ ZONE_LIMIT }
    ensures having { IfOk result (λ after. after.having ≡ summary.having) }
    ensures listed { IfOk result (λ after. after.is_listed ≡ summary.is_listed) }
    ensures at { IfOk result (λ after. (p : PlainPrefix) → (n : ℕ) → 1 ≤ n → n ≤ ZONE_LIMIT →
        has_zone (zones_at prefix_order p after.triggers) n
        ≡ (if n == number && is_same (prefix_trigger kind p) trigger.now then has_prefix kind zone.now p
        else has_zone (zones_at prefix_order p summary.triggers) n)) }
{
    a_rule_does_what_its_rows_do();
    triggers_of_one_place_are_equal();
    match prefix_of(trigger, kind) {
        None => Ok(summary),
        Some(prefix) => with_zone_at(summary, prefix, number, zone.rule(trigger).is_some()),
    }
}

// The summary, in which the zone of this number has a rule of the prefix, or has none.
fn with_zone_at(
    summary: PrefixSummary,
    prefix: &Prefix,
    number: u32,
    has: bool,
) -> Result<PrefixSummary, AllocError>
    requires some { 1 ≤ number }
    requires within { number ≤ ZONE_LIMIT }
    ensures having { IfOk result (λ after. after.having ≡ summary.having) }
    ensures listed { IfOk result (λ after. after.is_listed ≡ summary.is_listed) }
    ensures here { IfOk result (λ after. (n : ℕ) → 1 ≤ n → n ≤ ZONE_LIMIT →
        has_zone (zones_at prefix_order prefix.now after.triggers) n
        ≡ (if n == number then has else has_zone (zones_at prefix_order prefix.now summary.triggers) n)) }
    ensures elsewhere { IfOk result (λ after. (p : PlainPrefix) → is_at (prefix_order p) prefix.now ≡ false →
        zones_at prefix_order p after.triggers ≡ zones_at prefix_order p summary.triggers) }
{
    let zones = summary.zones_at(prefix);
    if zones.has(number) == has {
        return Ok(summary);
    }
    summary.put(prefix, zones_with(zones, number, has))
}

// The prefix of the trigger, if it is of this kind.
fn prefix_of(trigger: &Trigger, kind: Kind) -> Option<&Prefix>
    ensures { option_copied result ≡ prefix_of_kind kind trigger.now }
{
    match (kind, trigger) {
        (Kind::ClientIp, Trigger::ClientIp(prefix)) => Some(prefix),
        (Kind::ResponseIp, Trigger::ResponseIp(prefix)) => Some(prefix),
        (Kind::NsIp, Trigger::NsIp(prefix)) => Some(prefix),
        _ => None,
    }
}
