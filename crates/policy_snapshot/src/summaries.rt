//! What is known of the rules of all zones of a policy together.

ghost use Rattle.std.specs.Prelude.{◌≡◌, ◌==◌, ◌≤◌, ℕ, IfOk, if◌then◌else◌};
ghost use Rattle.std.specs.Arc.{arc_value};
ghost use Rattle.summary_index.specs.Zones.{has_zone};
ghost use Rattle.policy_snapshot.specs.Knowing.{KnowsAll, no_summaries as nothing_known, zones_having};
ghost use Rattle.policy_snapshot.specs.Listing.{AreChangesAt, IsThere, zones_after, zones_before};
ghost use Rattle.policy_snapshot.specs.Lookup as form;
ghost use Rattle.zone_rows.specs.declared.zone.TheConstants.{ZONE_LIMIT};

use crate::name_listing::names_after;
use crate::new_zone::NewZone;
use crate::prefix_listing::prefixes_after;
use std::alloc::{AllocError, Global};
use std::sync::Arc;
use summary_index::{NameSummary, PrefixSummary, Zones};
use trigger_codec::{ByKind, Kind};
use zone_index::{Changes, Zone};

/// No zone has rules.
pub(crate) fn no_summaries(alloc: Global) -> ByKind<PrefixSummary, NameSummary>
    ensures { result ≡ nothing_known }
{
    ByKind {
        client_ip: PrefixSummary::empty(alloc),
        qname: NameSummary::empty(alloc),
        response_ip: PrefixSummary::empty(alloc),
        nsdname: NameSummary::empty(alloc),
        nsip: PrefixSummary::empty(alloc),
    }
}

/// The zones that have rules of the kind.
pub(crate) fn having(summaries: &ByKind<PrefixSummary, NameSummary>, kind: Kind) -> Zones
    ensures { result ≡ zones_having summaries.now kind }
{
    match kind {
        Kind::ClientIp => summaries.client_ip.having(),
        Kind::Qname => summaries.qname.having(),
        Kind::ResponseIp => summaries.response_ip.having(),
        Kind::NsDname => summaries.nsdname.having(),
        Kind::NsIp => summaries.nsip.having(),
    }
}

/// Up to how many rows a transfer names its triggers one by one: a thirty-second of the rows of all zones, where some kind is listed.
/// Beyond that a summary that is made anew takes less time than one that is edited.
pub(crate) fn most_rows(
    summaries: &ByKind<PrefixSummary, NameSummary>,
    zones: &[Arc<Zone, Global>],
) -> usize {
    if !is_some_listed(summaries) {
        return 0;
    }
    let mut rows: usize = 0;
    for zone in zones {
        rows = rows.saturating_add(zone.row_count().unwrap_or(0));
    }
    rows / 32
}

// Whether some kind is listed.
fn is_some_listed(summaries: &ByKind<PrefixSummary, NameSummary>) -> bool {
    summaries.client_ip.is_listed()
        || summaries.qname.is_listed()
        || summaries.response_ip.is_listed()
        || summaries.nsdname.is_listed()
        || summaries.nsip.is_listed()
}

/// The summaries once a zone is another, whose rules at other triggers than these are as before.
pub(crate) fn summaries_after(
    alloc: Global,
    before: &ByKind<PrefixSummary, NameSummary>,
    next: &NewZone<'_>,
    changes: &Changes,
) -> Result<ByKind<PrefixSummary, NameSummary>, AllocError>
    requires there { IsThere next.now }
    requires known { KnowsAll (zones_before next.now) before.now }
    requires changes { AreChangesAt next.now changes.now }
    ensures { IfOk result (KnowsAll (zones_after next.now)) }
{
    let client_ip = prefixes_after(alloc, &before.client_ip, Kind::ClientIp, next, changes)?;
    let qname = names_after(alloc, &before.qname, Kind::Qname, next, changes)?;
    let response_ip = prefixes_after(alloc, &before.response_ip, Kind::ResponseIp, next, changes)?;
    let nsdname = names_after(alloc, &before.nsdname, Kind::NsDname, next, changes)?;
    let nsip = prefixes_after(alloc, &before.nsip, Kind::NsIp, next, changes)?;
    Ok(ByKind {
        client_ip,
        qname,
        response_ip,
        nsdname,
        nsip,
    })
}

/// The summaries, to be held by several versions.
pub(crate) fn shared_summaries(
    alloc: Global,
    summaries: ByKind<PrefixSummary, NameSummary>,
) -> Result<Arc<ByKind<PrefixSummary, NameSummary>, Global>, AllocError>
    ensures { IfOk result (λ shared. arc_value shared ≡ summaries) }
{
    Ok(Arc::new(alloc, summaries)?)
}

/// The zones with the one of this number, or without it.
pub(crate) fn zones_with(zones: Zones, number: u32, has: bool) -> Zones
    requires some { 1 ≤ number }
    requires within { number ≤ ZONE_LIMIT }
    ensures { (n : ℕ) → 1 ≤ n → n ≤ ZONE_LIMIT →
        has_zone result n ≡ (if n == number then has else has_zone zones n) }
{
    if has {
        zones.with(number)
    } else {
        zones.without(number)
    }
}

/// Whether the zone has rules of this kind.
pub(crate) fn has_kind(zone: &Zone, kind: Kind) -> bool
    ensures { result ≡ form.has_kind_in kind zone.now.origin zone.now.content }
{
    match zone.index() {
        None => false,
        Some(index) => index.rules().has(kind),
    }
}
