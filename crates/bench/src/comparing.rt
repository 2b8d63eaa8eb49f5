//! Compares a zone with the plain list beside it.

use crate::alike::is_same_rule;
use crate::difference::Difference;
use crate::plain_rules::{LiveRow, live_rows, plain_action};
use crate::sides::Sides;
use std::alloc::{AllocError, Global};
use trigger_codec::Trigger;

// How the serials or the numbers of rows differ.
fn count_difference(sides: &Sides) -> Option<Difference> {
    let (serial, rows) = match &sides.plain.content {
        Some(content) => (Some(content.soa.serial), Some(content.rows.len())),
        None => (None, None),
    };
    if sides.zone.serial() != serial {
        return Some(Difference::Serial {
            zone: sides.zone.serial(),
            plain: serial,
        });
    }
    if sides.zone.row_count() != rows {
        return Some(Difference::Rows {
            zone: sides.zone.row_count(),
            plain: rows,
        });
    }
    None
}

// How the rules of a trigger differ.
fn rule_difference(
    alloc: Global,
    sides: &Sides,
    live: &[LiveRow],
    trigger: &Trigger,
) -> Result<Option<Difference>, AllocError> {
    let plain = plain_action(alloc, live, trigger)?;
    if is_same_rule(&sides.zone.rule(trigger), &plain) {
        return Ok(None);
    }
    let trigger = format!(in alloc; "{trigger:?}")?;
    Ok(Some(Difference::Rule { trigger }))
}

/// The first difference between a zone and the plain list: of serials, numbers of rows, and the rules of these triggers.
pub fn first_difference(
    alloc: Global,
    sides: &Sides,
    triggers: &[Trigger],
) -> Result<Option<Difference>, AllocError> {
    if let Some(difference) = count_difference(sides) {
        return Ok(Some(difference));
    }
    let live = live_rows(alloc, &sides.plain)?;
    for trigger in triggers {
        if let Some(difference) = rule_difference(alloc, sides, live.as_slice(), trigger)? {
            return Ok(Some(difference));
        }
    }
    Ok(None)
}
