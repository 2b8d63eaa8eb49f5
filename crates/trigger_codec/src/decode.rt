//! Reads the trigger that an owner names.

ghost use Rattle.std.specs.Prelude.{◌≡◌, ◌-◌, ◌≤◌, length, take, IfOk};
ghost use Rattle.trigger_codec.specs.Decode.{Gives, trigger, labels_trigger as labels_name, by_marker as named_by, pattern_read};
ghost use Rattle.trigger_codec.specs.Seen.{marker_seen, first_is_asterisk};

use crate::address::prefix_of;
use crate::inert::{Inert, TriggerError};
use crate::marker::{Marker, is_asterisk, marker_of};
use crate::trigger::Trigger;
use dns_name::{Name, Pattern};
use std::alloc::{AllocError, Global};

/// The trigger that the owner of a rule names in the zone of this origin, or why it names none
/// (draft-vixie-dnsop-dns-rpz, section 4). ASCII letters count as lower case.
#[tactic(auto, unfolding(crate::specs::Decode::trigger))]
pub fn trigger_of(alloc: Global, owner: &Name, origin: &Name) -> Result<Trigger, TriggerError>
    ensures { Gives result (trigger owner.now origin.now) }
{
    if !owner.ends_with(origin) {
        return Err(TriggerError::Inert(Inert::OutOfZone));
    }
    let count = owner.label_count() - origin.label_count();
    labels_trigger(alloc, owner, count)
}

// The trigger that the first labels of the owner name, so many.
fn labels_trigger(alloc: Global, owner: &Name, count: usize) -> Result<Trigger, TriggerError>
    requires { count ≤ length owner.now }
    ensures { Gives result (labels_name (take count owner.now)) }
{
    if count == 0 {
        return Err(TriggerError::Inert(Inert::Apex));
    }
    let mut labels = owner.labels();
    labels.skip(count - 1);
    let Some(last) = labels.next_label() else {
        return Err(TriggerError::Inert(Inert::Apex));
    };
    by_marker(alloc, marker_of(last), owner, count)
}

// The trigger that the first labels of the owner name, so many, of which the last names this kind.
fn by_marker(
    alloc: Global,
    marker: Marker,
    owner: &Name,
    count: usize,
) -> Result<Trigger, TriggerError>
    requires some { 1 ≤ count }
    requires within { count ≤ length owner.now }
    ensures { Gives result
        (named_by (marker_seen marker) (take (count - 1) owner.now) (take count owner.now)) }
{
    let rest = count - 1;
    match marker {
        Marker::ClientIp => Ok(Trigger::ClientIp(prefix_of(owner, rest)?)),
        Marker::ResponseIp => Ok(Trigger::ResponseIp(prefix_of(owner, rest)?)),
        Marker::NsIp => Ok(Trigger::NsIp(prefix_of(owner, rest)?)),
        Marker::NsDname if rest == 0 => Err(TriggerError::Inert(Inert::Marker)),
        Marker::NsDname => Ok(Trigger::NsDname(pattern_of(alloc, owner, rest)?)),
        Marker::Unknown => Err(TriggerError::Inert(Inert::Marker)),
        Marker::Plain => Ok(Trigger::Qname(pattern_of(alloc, owner, count)?)),
    }
}

// The pattern that the first labels of the owner name, so many.
fn pattern_of(alloc: Global, owner: &Name, count: usize) -> Result<Pattern, AllocError>
    requires some { 1 ≤ count }
    requires within { count ≤ length owner.now }
    ensures { IfOk result (λ pattern. pattern ≡ pattern_read (take count owner.now)) }
{
    let wild = begins_wild(owner);
    let from = usize::from(wild);
    let base = owner.section(alloc, from, count - from)?;
    Pattern::new(alloc, &base, wild)
}

// Whether the first label is `*`.
fn begins_wild(owner: &Name) -> bool
    ensures { result ≡ first_is_asterisk owner.now }
{
    match owner.labels().next_label() {
        Some(first) => is_asterisk(first),
        None => false,
    }
}
