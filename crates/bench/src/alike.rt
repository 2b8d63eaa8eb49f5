//! Whether triggers and actions are the same.

use action_codec::{Action, ActionRef, LocalPart, LocalRef};
use dns_name::Pattern;
use trigger_codec::Trigger;

fn is_same_pattern(one: &Pattern, other: &Pattern) -> bool {
    one.is_wild() == other.is_wild() && one.base().is_same(other.base())
}

/// Whether two triggers are the same.
pub fn is_same_trigger(one: &Trigger, other: &Trigger) -> bool {
    match (one, other) {
        (Trigger::ClientIp(one), Trigger::ClientIp(other)) => one == other,
        (Trigger::Qname(one), Trigger::Qname(other)) => is_same_pattern(one, other),
        (Trigger::ResponseIp(one), Trigger::ResponseIp(other)) => one == other,
        (Trigger::NsDname(one), Trigger::NsDname(other)) => is_same_pattern(one, other),
        (Trigger::NsIp(one), Trigger::NsIp(other)) => one == other,
        _ => false,
    }
}

/// Whether a trigger is among these.
pub fn has_trigger(triggers: &[Trigger], trigger: &Trigger) -> bool {
    triggers.iter().any(|one| is_same_trigger(one, trigger))
}

fn is_same_part(one: &LocalPart<'_>, other: &LocalPart<'_>) -> bool {
    one.rtype == other.rtype && one.ttl == other.ttl && one.rdata == other.rdata
}

// Whether the rows are the same, in the same order.
fn is_same_local(one: &LocalRef<'_>, other: &LocalRef<'_>) -> bool {
    if one.len() != other.len() {
        return false;
    }
    for place in 0..one.len() {
        if !is_same_part(&one.at(place), &other.at(place)) {
            return false;
        }
    }
    true
}

fn is_same_action(one: &ActionRef<'_>, other: &ActionRef<'_>) -> bool {
    match (one, other) {
        (ActionRef::NxDomain, ActionRef::NxDomain) => true,
        (ActionRef::NoData, ActionRef::NoData) => true,
        (ActionRef::PassThru, ActionRef::PassThru) => true,
        (ActionRef::Drop, ActionRef::Drop) => true,
        (ActionRef::TcpOnly, ActionRef::TcpOnly) => true,
        (ActionRef::Local(one), ActionRef::Local(other)) => is_same_local(one, other),
        _ => false,
    }
}

/// Whether a rule does the same as another, or neither is there.
pub fn is_same_rule(zone: &Option<ActionRef<'_>>, plain: &Option<Action>) -> bool {
    match (zone, plain) {
        (None, None) => true,
        (Some(zone), Some(plain)) => is_same_action(zone, &plain.lend()),
        _ => false,
    }
}
