//! The action of a rule, by its rows.

ghost use Rattle.std.specs.Prelude.{◌≡◌, List, [], ◌∷◌, map, length, option_copied, IfOk};
ghost use Rattle.std.specs.List.{list_any};
ghost use Rattle.action_codec.specs.Local.{local_row};
ghost use Rattle.action_codec.specs.Action.{is_cname as cname, cname_action as cname_act, one_action as one_act, local_alone as alone, several_action as several_act, rows_action, action_by, action_for as rule_action, own_pattern as pattern_of};

use crate::action::Action;
use crate::local::LocalRows;
use crate::order::in_order;
use crate::words::{ASTERISK, DROP, PASSTHRU, ROOT, TCP_ONLY, is_own_name, is_reserved_name};
use dns_name::Pattern;
use dns_record::{Row, rtype};
use std::alloc::{AllocError, Global};
use trigger_codec::Trigger;

/// What a rule does that has the trigger and these live rows (see [`is_live_type`](crate::is_live_type)),
/// in any order. It is `None` exactly if the rule does nothing: where a CNAME row stands beside another, or
/// points to a single label that begins `rpz-` and is none of the words of draft-vixie-dnsop-dns-rpz,
/// section 3; or where there are no rows.
///
/// A CNAME row of a rule about a name that is asked for lets the answer pass where it points to the name
/// that its owner writes. Its time is n log n in the rows.
pub fn action_of(
    alloc: Global,
    trigger: &Trigger,
    rows: &[&Row],
) -> Result<Option<Action>, AllocError>
    ensures { IfOk result
        (λ action. action ≡ action_by trigger.now (map (λ row. row.now) rows.now)) }
{
    action_for(alloc, own_pattern(trigger), rows)
}

/// What a rule of these live rows does, in any order, as [`action_of`] has it. All that matters of the trigger
/// is its own pattern: that of a rule about a name that is asked for, and `None` for rules of other kinds.
pub fn action_for(
    alloc: Global,
    own: Option<&Pattern>,
    rows: &[&Row],
) -> Result<Option<Action>, AllocError>
    ensures { IfOk result (λ action. action
        ≡ rule_action (option_copied own.entry) (map (λ row. row.now) rows.now)) }
{
    if rows.len() < 2 {
        return kept_action(alloc, own, rows);
    }
    let kept = in_order(alloc, rows)?;
    kept_action(alloc, own, kept.as_slice())
}

// The pattern of a trigger that is about a name that is asked for.
fn own_pattern(trigger: &Trigger) -> Option<&Pattern>
    ensures { option_copied result ≡ pattern_of trigger.now }
{
    match trigger {
        Trigger::Qname(pattern) => Some(pattern),
        Trigger::ClientIp(_) | Trigger::ResponseIp(_) | Trigger::NsDname(_) | Trigger::NsIp(_) =>
            None,
    }
}

// What a rule of these rows does, which are in their order.
fn kept_action(
    alloc: Global,
    own: Option<&Pattern>,
    rows: &[&Row],
) -> Result<Option<Action>, AllocError>
    ensures { IfOk result (λ action. action
        ≡ rows_action (option_copied own.entry) (map (λ row. row.now) rows.now)) }
{
    match rows {
        [] => Ok(None),
        [row] => one_action(alloc, own, row),
        [_, _, ..] => several_action(alloc, rows),
    }
}

// What a rule of several rows does, which are in their order.
fn several_action(alloc: Global, rows: &[&Row]) -> Result<Option<Action>, AllocError>
    ensures { IfOk result (λ action. action ≡ several_act (map (λ row. row.now) rows.now)) }
{
    if has_cname(rows) {
        return Ok(None);
    }
    Ok(Some(Action::Local(local_rows(alloc, rows)?)))
}

// Whether a CNAME row is among the rows.
fn has_cname(rows: &[&Row]) -> bool
    ensures { result ≡ list_any (λ row. cname row.now) rows.now }
{
    rows.iter().any(|row| is_cname(row))
}

// What a rule of one row does.
fn one_action(alloc: Global, own: Option<&Pattern>, row: &Row) -> Result<Option<Action>, AllocError>
    ensures { IfOk result (λ action. action ≡ one_act (option_copied own.entry) row.now) }
{
    if is_cname(row) {
        cname_action(alloc, own, row)
    } else {
        local_alone(alloc, row)
    }
}

fn is_cname(row: &Row) -> bool
    ensures { result ≡ cname row.now }
{
    row.rtype() == rtype::CNAME
}

// What a rule of one CNAME row does.
#[tactic(auto, unfolding(crate::specs::Action::cname_action))]
fn cname_action(
    alloc: Global,
    own: Option<&Pattern>,
    row: &Row,
) -> Result<Option<Action>, AllocError>
    ensures { IfOk result (λ action. action ≡ cname_act (option_copied own.entry) row.now) }
{
    let target = row.rdata();
    if target == ROOT {
        Ok(Some(Action::NxDomain))
    } else if target == ASTERISK {
        Ok(Some(Action::NoData))
    } else if target == PASSTHRU {
        Ok(Some(Action::PassThru))
    } else if target == DROP {
        Ok(Some(Action::Drop))
    } else if target == TCP_ONLY {
        Ok(Some(Action::TcpOnly))
    } else if is_reserved_name(target) {
        Ok(None)
    } else if is_own_name(own, target) {
        Ok(Some(Action::PassThru))
    } else {
        local_alone(alloc, row)
    }
}

// The row alone is the answer.
fn local_alone(alloc: Global, row: &Row) -> Result<Option<Action>, AllocError>
    ensures { IfOk result (λ action. action ≡ alone row.now) }
{
    let mut rows = LocalRows::with_capacity(alloc, 1)?;
    rows.push(alloc, row)?;
    Ok(Some(Action::Local(rows)))
}

// The rows without their owners.
fn local_rows(alloc: Global, rows: &[&Row]) -> Result<LocalRows, AllocError>
    ensures { IfOk result (λ local. local ≡ map (λ row. local_row row.now) rows.now) }
{
    let mut local = LocalRows::with_capacity(alloc, rows.len())?;
    for row in rows {
        local.push(alloc, row)?;
    }
    Ok(local)
}
