//! The summary of a kind of patterns, once a zone is another.

ghost use Rattle.std.specs.Prelude.{◌≡◌, ◌==◌, ◌&&◌, ◌≤◌, ℕ, true, false, map, if◌then◌else◌, ◌||◌, option_copied, IfOk};
ghost use Rattle.std.specs.BTreeMap.{is_at};
ghost use Rattle.std.specs.List.{AllByRecursion};
ghost use Rattle.dns_name.specs.Alike.{PlainPattern};
ghost use Rattle.octet_trie.specs.Trie.{found_entry};
ghost use Rattle.qname_index.specs.Best.{pattern_order};
ghost use Rattle.qname_index.specs.Ranked.{pattern_key};
ghost use Rattle.qname_index.specs.Trie.{IsNameTrie};
ghost use Rattle.summary_index.specs.Entries.{zones_by_key};
ghost use Rattle.summary_index.specs.Summary.{zones_at};
ghost use Rattle.summary_index.specs.Zones.{has_zone};
ghost use Rattle.trigger_codec.specs.Bases.{IsPattern, IsTrigger};
ghost use Rattle.zone_index.specs.Listed.{is_same};
ghost use Rattle.policy_snapshot.specs.Listing.{AreChangesAt, AreSameElsewhere, IsThere, KnowsPatterns, ZonesHave};
ghost use Rattle.policy_snapshot.specs.Listing.{has_pattern, is_of_patterns, pattern_of_kind, pattern_trigger, zones_after, zones_before};
ghost use Rattle.zone_rows.specs.declared.zone.TheConstants.{ZONE_LIMIT};

use crate::new_zone::NewZone;
use crate::summaries::{has_kind, zones_with};
use dns_name::Pattern;
use octet_trie::OctetFound;
use std::alloc::{AllocError, Global};
use summary_index::{NameSummary, Zones, merged};
use trie_keys::NumberSet;
use trigger_codec::{Kind, Trigger};
use zone_index::laws::{a_rule_does_what_its_rows_do, triggers_of_one_place_are_equal};
use zone_index::{Changes, Zone};

/// What is known of a kind of patterns once a zone is another, whose rules at other triggers than these are as before. Where one zone
/// alone has rules of the kind, or none has, it isn't listed. Where it is listed, a few triggers are changed one by one, and for all of
/// them it is listed anew from what it had and the rules of the zone, in one pass. Where a second zone gets rules of the kind, it is
/// listed from the rules of both. Where the zone has no rules of the kind and had none, it stays as it is.
pub(crate) fn names_after(
    alloc: Global,
    before: &NameSummary,
    kind: Kind,
    next: &NewZone<'_>,
    changes: &Changes,
) -> Result<NameSummary, AllocError>
    requires kind { is_of_patterns kind ≡ true }
    requires there { IsThere next.now }
    requires known { KnowsPatterns kind (zones_before next.now) before.now }
    requires changes { AreChangesAt next.now changes.now }
    ensures { IfOk result (KnowsPatterns kind (zones_after next.now)) }
{
    let has = has_kind(next.zone, kind);
    if !has && !before.having().has(next.number) {
        return before.share();
    }
    let having = zones_with(before.having(), next.number, has);
    if !having.are_several() {
        return Ok(NameSummary::empty(alloc).with_having(having));
    }
    if !before.is_listed() {
        return listed(alloc, kind, having, next);
    }
    match changes {
        Changes::All => relisted(alloc, before, kind, having, next),
        Changes::Triggers(triggers) => edited(before, kind, having, next, triggers),
    }
}

// The keys of the patterns that have a rule of the kind in the zone, each with its number.
fn rules_by_key<'a>(
    alloc: Global,
    zone: &'a Zone,
    kind: Kind,
    number: u32,
) -> Result<Vec<OctetFound<'a, Zones, bool>>, AllocError>
    requires kind { is_of_patterns kind ≡ true }
    requires some { 1 ≤ number }
    requires within { number ≤ ZONE_LIMIT }
    ensures keys { IfOk result (λ entries. IsNameTrie (map found_entry entries.items)) }
    ensures rules { IfOk result (λ entries. (p : PlainPattern) → IsPattern p → (n : ℕ) → 1 ≤ n → n ≤ ZONE_LIMIT →
        has_zone (zones_by_key (pattern_key p) entries.items) n ≡ (n == number && has_pattern kind zone.now p)) }
{
    match zone.index() {
        None => Ok(Vec::new(alloc)),
        Some(index) => {
            index
                .rules()
                .patterns_by_key(alloc, kind, Zones::none().with(number))
        }
    }
}

// The entries, and the rules of the zone of this number.
fn with_rules<'a>(
    alloc: Global,
    entries: &[OctetFound<'a, Zones, bool>],
    zone: &'a Zone,
    kind: Kind,
    number: u32,
) -> Result<Vec<OctetFound<'a, Zones, bool>>, AllocError>
    requires kind { is_of_patterns kind ≡ true }
    requires some { 1 ≤ number }
    requires within { number ≤ ZONE_LIMIT }
    requires keys { IsNameTrie (map found_entry entries.now) }
    ensures keys { IfOk result (λ all. IsNameTrie (map found_entry all.items)) }
    ensures rules { IfOk result (λ all. (p : PlainPattern) → IsPattern p → (n : ℕ) → 1 ≤ n → n ≤ ZONE_LIMIT →
        has_zone (zones_by_key (pattern_key p) all.items) n
        ≡ (has_zone (zones_by_key (pattern_key p) entries.now) n || (n == number && has_pattern kind zone.now p))) }
{
    let rules = rules_by_key(alloc, zone, kind, number)?;
    merged(alloc, entries, &rules)
}

// The kind, listed from the rules of all zones that have some.
fn listed(
    alloc: Global,
    kind: Kind,
    having: Zones,
    next: &NewZone<'_>,
) -> Result<NameSummary, AllocError>
    requires kind { is_of_patterns kind ≡ true }
    requires there { IsThere next.now }
    requires having { ZonesHave kind (zones_after next.now) having }
    ensures { IfOk result (KnowsPatterns kind (zones_after next.now)) }
{
    let mut entries = Vec::new(alloc);
    let mut number = 0;
    for zone in next.zones {
        number += 1;
        if having.has(number) {
            entries = with_rules(alloc, &entries, next.or_new(number, zone), kind, number)?;
        }
    }
    NameSummary::listed(alloc, having, &entries)
}

// The kind, listed from what it had of other zones and from the rules of the zone.
fn relisted(
    alloc: Global,
    before: &NameSummary,
    kind: Kind,
    having: Zones,
    next: &NewZone<'_>,
) -> Result<NameSummary, AllocError>
    requires kind { is_of_patterns kind ≡ true }
    requires there { IsThere next.now }
    requires listed { before.now.is_listed ≡ true }
    requires known { KnowsPatterns kind (zones_before next.now) before.now }
    requires having { ZonesHave kind (zones_after next.now) having }
    ensures { IfOk result (KnowsPatterns kind (zones_after next.now)) }
{
    let others = before.without_zone(next.number)?;
    let entries = with_rules(alloc, &others, next.zone, kind, next.number)?;
    NameSummary::listed(alloc, having, &entries)
}

// The kind with these triggers as the zone has them now.
fn edited(
    before: &NameSummary,
    kind: Kind,
    having: Zones,
    next: &NewZone<'_>,
    triggers: &[Trigger],
) -> Result<NameSummary, AllocError>
    requires kind { is_of_patterns kind ≡ true }
    requires there { IsThere next.now }
    requires listed { before.now.is_listed ≡ true }
    requires known { KnowsPatterns kind (zones_before next.now) before.now }
    requires having { ZonesHave kind (zones_after next.now) having }
    requires triggers { AllByRecursion IsTrigger triggers.now }
    requires others { AreSameElsewhere next.now triggers.now }
    ensures { IfOk result (KnowsPatterns kind (zones_after next.now)) }
{
    a_rule_does_what_its_rows_do();
    triggers_of_one_place_are_equal();
    let mut summary = before.share()?.with_having(having);
    for trigger in triggers {
        summary = edited_at(summary, kind, next.number, next.zone, trigger)?;
    }
    Ok(summary)
}

// The summary with the trigger as the zone of this number has it, if it is of the kind.
fn edited_at(
    summary: NameSummary,
    kind: Kind,
    number: u32,
    zone: &Zone,
    trigger: &Trigger,
) -> Result<NameSummary, AllocError>
    requires kind { is_of_patterns kind ≡ true }
    requires some { 1 ≤ number }
    requires within { number ≤ ZONE_LIMIT }
    requires trigger { IsTrigger trigger.now }
    ensures having { IfOk result (λ after. after.having ≡ summary.having) }
    ensures listed { IfOk result (λ after. after.is_listed ≡ summary.is_listed) }
    ensures at { IfOk result (λ after. (p : PlainPattern) → IsPattern p → (n : ℕ) → 1 ≤ n → n ≤ ZONE_LIMIT →
        has_zone (zones_at pattern_order p after.triggers) n
        ≡ (if n == number && is_same (pattern_trigger kind p) trigger.now then has_pattern kind zone.now p
        else has_zone (zones_at pattern_order p summary.triggers) n)) }
{
    a_rule_does_what_its_rows_do();
    triggers_of_one_place_are_equal();
    match pattern_of(trigger, kind) {
        None => Ok(summary),
        Some(pattern) => with_zone_at(summary, pattern, number, zone.rule(trigger).is_some()),
    }
}

// The summary, in which the zone of this number has a rule of the pattern, or has none.
fn with_zone_at(
    summary: NameSummary,
    pattern: &Pattern,
    number: u32,
    has: bool,
) -> Result<NameSummary, AllocError>
    requires some { 1 ≤ number }
    requires within { number ≤ ZONE_LIMIT }
    ensures having { IfOk result (λ after. after.having ≡ summary.having) }
    ensures listed { IfOk result (λ after. after.is_listed ≡ summary.is_listed) }
    ensures here { IfOk result (λ after. (n : ℕ) → 1 ≤ n → n ≤ ZONE_LIMIT →
        has_zone (zones_at pattern_order pattern.now after.triggers) n
        ≡ (if n == number then has else has_zone (zones_at pattern_order pattern.now summary.triggers) n)) }
    ensures elsewhere { IfOk result (λ after. (p : PlainPattern) → is_at (pattern_order p) pattern.now ≡ false →
        zones_at pattern_order p after.triggers ≡ zones_at pattern_order p summary.triggers) }
{
    let zones = summary.zones_at(pattern);
    if zones.has(number) == has {
        return Ok(summary);
    }
    summary.put(pattern, zones_with(zones, number, has))
}

// The pattern of the trigger, if it is of this kind.
fn pattern_of(trigger: &Trigger, kind: Kind) -> Option<&Pattern>
    ensures { option_copied result ≡ pattern_of_kind kind trigger.now }
{
    match (kind, trigger) {
        (Kind::Qname, Trigger::Qname(pattern)) => Some(pattern),
        (Kind::NsDname, Trigger::NsDname(pattern)) => Some(pattern),
        _ => None,
    }
}
