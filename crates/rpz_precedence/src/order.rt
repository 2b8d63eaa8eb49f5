//! The order of ranks. It takes no memory.

ghost use Rattle.std.specs.Prelude.{◌≡◌};
ghost use Rattle.rpz_precedence.specs.Rank.{place_order, precedes, rank_order, server_order, trigger_order};
ghost use Rattle.rpz_precedence.specs.Seen.{hit_seen, trigger_seen};

use crate::hit::Hit;
use crate::trigger_ref::TriggerRef;
use qname_index::PatternRef;
use std::cmp::Ordering;

/// Whether the rule of the first hit goes before that of the second (draft-vixie-dnsop-dns-rpz, section 5): the smaller
/// position, then the earlier zone, then the kind of trigger, in the order of the variants of [`TriggerRef`]. Of one kind it
/// is the longer prefix, then the smaller address; the exact pattern, then the longer one; and of patterns of names of
/// servers the longer one, then the exact one, then the canonical order of their bases.
///
/// It takes no memory, and its time is linear in the bytes of the patterns.
pub fn before(a: &Hit, b: &Hit) -> bool
    ensures { result ≡ precedes (hit_seen a.now).rank (hit_seen b.now).rank }
{
    compare_ranks(a, b).is_lt()
}

fn compare_ranks(a: &Hit, b: &Hit) -> Ordering
    ensures { result ≡ rank_order (hit_seen a.now).rank (hit_seen b.now).rank }
{
    match a.position.cmp(&b.position) {
        Ordering::Equal => match a.zone.cmp(&b.zone) {
            Ordering::Equal => compare_triggers(&a.trigger, &b.trigger),
            order => order,
        },
        order => order,
    }
}

fn compare_triggers(a: &TriggerRef, b: &TriggerRef) -> Ordering
    ensures { result ≡ trigger_order (trigger_seen a.now) (trigger_seen b.now) }
{
    match a.kind().place().cmp(&b.kind().place()) {
        Ordering::Equal => compare_places(a, b),
        order => order,
    }
}

// The order of triggers of one kind.
fn compare_places(a: &TriggerRef, b: &TriggerRef) -> Ordering
    ensures { result ≡ place_order (trigger_seen a.now) (trigger_seen b.now) }
{
    match (a, b) {
        (TriggerRef::ClientIp(p), TriggerRef::ClientIp(q)) => p.rank_cmp(q),
        (TriggerRef::Qname(p), TriggerRef::Qname(q)) => p.rank_cmp(q),
        (TriggerRef::ResponseIp(p), TriggerRef::ResponseIp(q)) => p.rank_cmp(q),
        (TriggerRef::NsDname(p), TriggerRef::NsDname(q)) => compare_servers(p, q),
        (TriggerRef::NsIp(p), TriggerRef::NsIp(q)) => p.rank_cmp(q),
        _ => Ordering::Equal,
    }
}

fn compare_servers(a: &PatternRef<'_>, b: &PatternRef<'_>) -> Ordering
    ensures { result ≡ server_order a.now b.now }
{
    match b.label_count().cmp(&a.label_count()) {
        Ordering::Equal => match a.is_wild().cmp(&b.is_wild()) {
            Ordering::Equal => a.canonical_cmp(b),
            order => order,
        },
        order => order,
    }
}
