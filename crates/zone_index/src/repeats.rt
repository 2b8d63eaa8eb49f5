//! Whether rows of a transfer repeat: rows of one identity stand at one place, so that only the rows of a place are compared.

ghost use Rattle.std.specs.Prelude.{◌≡◌, ◌<◌, ◌≤◌, ◌++◌, [], All, true, drop as drop_list, length, map, IfOk, IfSome};
ghost use Rattle.packed_lists.specs.KeysSeen.{keyed_seen};
ghost use Rattle.packed_lists.specs.Stored.{row_of_number};
ghost use Rattle.zone_index.specs.Gathering.{AreApart, AreKeysOf, AreSized};
ghost use Rattle.zone_index.specs.Placed.{rows_by, with_found};
ghost use Rattle.zone_rows.specs.Distinct.{AreDistinct};
ghost use Rattle.zone_rows.specs.Stored.{IsStored, plain_row};

use crate::place_octets::octets_tell_places_apart;
use dns_name::Name;
use dns_name::laws::{case_does_not_matter, names_of_equal_octets_are_equal};
use dns_record::laws::rows_of_one_identity_differ_in_the_ttl_alone;
use packed_lists::{Keyed, RowList, first_run, numbers_of};
use std::alloc::{AllocError, Global};
use zone_rows::laws::without_repeats_stand_the_first_rows;
use zone_rows::{RowRef, Rows};

// Puts the row of the number at the end, if there is one.
fn push_row(rows: &RowList, number: u32, group: &mut Rows) -> Result<(), AllocError>
    requires { All IsStored rows.now.rows }
    ensures { IfOk result (λ _. group.new
        ≡ group.old ++ map plain_row (with_found (row_of_number number rows.now.rows) [])) }
{
    if let Some(row) = rows.get(number) {
        group.push_ref(&RowRef::new(row))?;
    }
    Ok(())
}

// The rows of the numbers.
fn group_of(alloc: Global, rows: &RowList, numbers: &[u32]) -> Result<Rows, AllocError>
    requires { All IsStored rows.now.rows }
    ensures { IfOk result (λ group. group ≡ map plain_row (rows_by numbers.now rows.now.rows)) }
{
    let mut group = Rows::new(alloc);
    for number in numbers {
        push_row(rows, *number, &mut group)?;
    }
    Ok(group)
}

// Whether no two rows of the numbers have one identity.
fn is_distinct(alloc: Global, rows: &RowList, numbers: &[u32]) -> Result<bool, AllocError>
    requires { All IsStored rows.now.rows }
    ensures { IfOk result (λ distinct. distinct ≡ true →
        AreDistinct (map plain_row (rows_by numbers.now rows.now.rows))) }
{
    without_repeats_stand_the_first_rows();
    let group = group_of(alloc, rows, numbers)?;
    let count = group.len();
    let kept = group.without_repeats(alloc)?;
    Ok(kept.len() == count)
}

// Whether no two rows of a run have one identity.
fn is_run_distinct(alloc: Global, rows: &RowList, run: &[Keyed<'_>]) -> Result<bool, AllocError>
    requires { All IsStored rows.now.rows }
    ensures { IfOk result (λ distinct. distinct ≡ true → AreDistinct (map plain_row
        (rows_by (map (λ k. k.number) (map keyed_seen run.now)) rows.now.rows))) }
{
    if run.len() <= 1 {
        return Ok(true);
    }
    let numbers = numbers_of(alloc, run)?;
    is_distinct(alloc, rows, &numbers)
}

// How many keys the first run of those that are left has, if no two of its rows have one identity.
fn next_distinct(
    alloc: Global,
    origin: &Name,
    rows: &RowList,
    left: &[Keyed<'_>],
) -> Result<Option<usize>, AllocError>
    requires stored { All IsStored rows.now.rows }
    requires sized { AreSized origin.now rows.now.rows }
    requires some { 0 < length left.now }
    requires apart { AreApart origin.now rows.now.rows (map keyed_seen left.now) }
    ensures apart { IfOk result (λ found. IfSome found
        (λ count. AreApart origin.now rows.now.rows (map keyed_seen (drop_list count left.now)))) }
    ensures some { IfOk result (λ found. IfSome found (λ count. 0 < count)) }
    ensures within { IfOk result (λ found. IfSome found (λ count. count ≤ length left.now)) }
{
    names_of_equal_octets_are_equal();
    case_does_not_matter();
    octets_tell_places_apart();
    // called for its clauses
    let _count = rows.len();
    let (run, _others) = first_run(left);
    if is_run_distinct(alloc, rows, run)? {
        Ok(Some(run.len()))
    } else {
        Ok(None)
    }
}

/// Whether no two rows have one identity. These are the keys of their places.
pub(crate) fn are_distinct(
    alloc: Global,
    origin: &Name,
    rows: &RowList,
    keys: &[Keyed<'_>],
) -> Result<bool, AllocError>
    requires stored { All IsStored rows.now.rows }
    requires keys { AreKeysOf origin.now rows.now.rows (map keyed_seen keys.now) }
    ensures { IfOk result
        (λ distinct. distinct ≡ true → AreDistinct (map plain_row rows.now.rows)) }
{
    names_of_equal_octets_are_equal();
    case_does_not_matter();
    octets_tell_places_apart();
    rows_of_one_identity_differ_in_the_ttl_alone();
    // called for its clauses
    let _count = rows.len();
    let mut done = 0;
    while done < keys.len() {
        let Some(count) = next_distinct(alloc, origin, rows, &keys[done..])? else {
            return Ok(false);
        };
        done += count;
    }
    Ok(true)
}
