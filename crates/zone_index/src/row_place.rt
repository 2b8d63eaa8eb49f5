//! Where a row stands in the index of its zone.

ghost use Rattle.std.specs.Prelude.{◌≡◌, IfOk, None, if◌then◌else◌};
ghost use Rattle.action_codec.specs.Action.{is_live_type as is_live};
ghost use Rattle.dns_name.specs.Labels.{lowered};
ghost use Rattle.dns_record.specs.Row.{IsRow};
ghost use Rattle.packed_lists.specs.RowsSeen.{seen};
ghost use Rattle.trigger_codec.specs.Decode.{trigger};
ghost use Rattle.zone_index.specs.Placed.{owner_place, row_place};
ghost use Rattle.zone_index.specs.Rules.{some_trigger};
ghost use Rattle.zone_rows.specs.Stored.{IsStored, plain_row};

use crate::place::Place;
use action_codec::is_live_type;
use dns_name::laws::a_name_is_read_where_it_stands;
use dns_name::{Name, NameError, Pattern};
use dns_record::Row;
use packed_lists::StoredRow;
use std::alloc::{AllocError, Global};
use trigger_codec::{Trigger, TriggerError, trigger_of};
use zone_rows::RowRef;

/// Where the row stands in a zone of this origin: with the rows of its trigger if it is live, and else with those of its owner
/// that make no rule.
pub(crate) fn place_of(alloc: Global, origin: &Name, row: &Row) -> Result<Place, AllocError>
    ensures place { IfOk result (λ place. place ≡ row_place origin.now row.now) }
    ensures is_row { IsRow row.now }
{
    place_of_owner(alloc, origin, row.owner(), row.rtype())
}

/// The same for a row that a list lends.
pub(crate) fn stored_place(
    alloc: Global,
    origin: &Name,
    row: StoredRow<'_>,
) -> Result<Place, AllocError>
    requires { IsStored (seen row) }
    ensures { IfOk result (λ place. place ≡ row_place origin.now (plain_row (seen row.entry))) }
{
    let row = RowRef::new(row);
    let owner = owner_of(alloc, &row)?;
    place_of_owner(alloc, origin, &owner, row.rtype())
}

// The owner of a row that a list lends.
fn owner_of(alloc: Global, row: &RowRef<'_>) -> Result<Name, AllocError>
    ensures owner { IfOk result (λ owner. owner ≡ row.now.owner) }
    ensures lower { lowered row.now.owner ≡ row.now.owner }
{
    a_name_is_read_where_it_stands();
    match Name::read(alloc, row.owner(), 0) {
        Ok((owner, _)) => Ok(owner),
        Err(NameError::OutOfMemory) => Err(AllocError),
        Err(NameError::Fault(_)) => unreachable!(),
    }
}

// Where rows of the owner, in lower case, and the type stand.
fn place_of_owner(
    alloc: Global,
    origin: &Name,
    owner: &Name,
    rtype: u16,
) -> Result<Place, AllocError>
    requires { lowered owner.now ≡ owner.now }
    ensures { IfOk result (λ place. place ≡ owner_place origin.now owner.now rtype) }
{
    match live_trigger(alloc, origin, owner, rtype)? {
        Some(trigger) => Ok(Place::Rule(trigger)),
        None => Ok(Place::Other(Pattern::new(alloc, owner, false)?)),
    }
}

// The trigger of rows of the owner and type, if they are live.
fn live_trigger(
    alloc: Global,
    origin: &Name,
    owner: &Name,
    rtype: u16,
) -> Result<Option<Trigger>, AllocError>
    ensures { IfOk result (λ found. found
        ≡ (if is_live rtype then some_trigger (trigger owner.now origin.now) else None)) }
{
    if !is_live_type(rtype) {
        return Ok(None);
    }
    match trigger_of(alloc, owner, origin) {
        Ok(trigger) => Ok(Some(trigger)),
        Err(TriggerError::OutOfMemory) => Err(AllocError),
        Err(TriggerError::Inert(_)) => Ok(None),
    }
}
