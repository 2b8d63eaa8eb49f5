//! The index of many rows at once: they are sorted by the octets of their places, and those of one place are taken together.

ghost use Rattle.std.specs.Prelude.{◌≡◌, ◌+◌, ◌<◌, ◌≤◌, All, None, Some, true, drop as drop_list, length, map, take, IfOk, IfSome, IsSome, OnOk};
ghost use Rattle.std.specs.Option.{is_some, option_map};
ghost use Rattle.packed_lists.specs.KeysSeen.{keyed_seen};
ghost use Rattle.packed_lists.specs.Stored.{row_of_number};
ghost use Rattle.zone_index.specs.Gathering.{AreGathered, AreKeysOf, AreSized, IsListed, IsRunOf};
ghost use Rattle.zone_index.specs.Placed.{IsIndexOf, entry_for, put_at, row_place, rows_by};
ghost use Rattle.zone_index.specs.Places.{entry_at};
ghost use Rattle.zone_rows.specs.Distinct.{AreDistinct};
ghost use Rattle.zone_rows.specs.Stored.{IsStored, plain_row};

use crate::index_entries::IndexEntries;
use crate::place::Place;
use crate::place_octets::{octets_tell_places_apart, write_place};
use crate::repeats::are_distinct;
use crate::row_place::stored_place;
use crate::settling::does_at;
use crate::trigger_index::TriggerIndex;
use dns_name::Name;
use dns_name::laws::{case_does_not_matter, names_of_equal_octets_are_equal};
use packed_lists::{KeyList, Keyed, RowList, first_run, numbers_of};
use std::alloc::{AllocError, Global};

// Puts the row at `at` behind those before it.
fn list_row(
    alloc: Global,
    origin: &Name,
    rows: &RowList,
    at: usize,
    octets: &mut Vec<u8>,
    list: &mut KeyList,
) -> Result<(), AllocError>
    requires stored { All IsStored rows.now.rows }
    requires within { at < length rows.now.rows }
    requires listed { IsListed origin.now (take at rows.now.rows) list.old }
    ensures { OnOk result (IsListed origin.now (take (at + 1) rows.now.rows) list.new) }
{
    octets.clear();
    let row = rows.nth(at);
    let number = row.number;
    let place = stored_place(alloc, origin, row)?;
    write_place(octets, &place)?;
    list.push(octets, number)
}

// The numbers of the rows, by the octets of their places.
fn list_rows(alloc: Global, origin: &Name, rows: &RowList) -> Result<KeyList, AllocError>
    requires { All IsStored rows.now.rows }
    ensures { IfOk result (IsListed origin.now rows.now.rows) }
{
    let mut list = KeyList::new(alloc);
    let mut octets = Vec::new(alloc);
    for at in 0..rows.len() {
        list_row(alloc, origin, rows, at, &mut octets, &mut list)?;
    }
    Ok(list)
}

// Where the row of the number stands.
fn place_of_number(
    alloc: Global,
    origin: &Name,
    rows: &RowList,
    number: u32,
) -> Result<Place, AllocError>
    requires stored { All IsStored rows.now.rows }
    requires found { is_some (row_of_number number rows.now.rows) ≡ true }
    ensures { IfOk result (λ place. Some place
        ≡ option_map (λ s. row_place origin.now (plain_row s)) (row_of_number number rows.now.rows)) }
{
    match rows.get(number) {
        Some(row) => stored_place(alloc, origin, row),
        None => unreachable!(),
    }
}

// With the rows of these numbers, which are all at the place.
fn gather_run<'a>(
    alloc: Global,
    rows: &RowList,
    entries: IndexEntries<'a>,
    place: &Place,
    run: &[Keyed<'a>],
) -> Result<IndexEntries<'a>, AllocError>
    requires stored { All IsStored rows.now.rows }
    requires run { IsRunOf place.now rows.now.rows (map keyed_seen run.now) }
    requires none { entry_at entries place.now ≡ None }
    ensures { IfOk result (λ new. new ≡ put_at entries.entry place.now
        (entry_for place.now (rows_by (map (λ k. k.number) (map keyed_seen run.now)) rows.now.rows))) }
{
    let octets = run[0].key;
    let numbers = numbers_of(alloc, run)?;
    let does = does_at(alloc, rows, place, &numbers)?;
    entries.put(place, octets, &numbers, does)
}

// With the rows of the first key that is left, and how many keys that were.
fn gather_next<'a>(
    alloc: Global,
    origin: &Name,
    rows: &RowList,
    entries: IndexEntries<'a>,
    left: &[Keyed<'a>],
) -> Result<(IndexEntries<'a>, usize), AllocError>
    requires stored { All IsStored rows.now.rows }
    requires sized { AreSized origin.now rows.now.rows }
    requires some { 0 < length left.now }
    requires gathered { AreGathered origin.now rows.now.rows entries (map keyed_seen left.now) }
    ensures gathered { IfOk result
        (λ r. AreGathered origin.now rows.now.rows r.0 (map keyed_seen (drop_list r.1 left.now))) }
    ensures some { IfOk result (λ r. 0 < r.1) }
    ensures within { IfOk result (λ r. r.1 ≤ length left.now) }
{
    names_of_equal_octets_are_equal();
    case_does_not_matter();
    octets_tell_places_apart();
    // called for its clauses
    let _count = rows.len();
    let (run, _others) = first_run(left);
    let place = place_of_number(alloc, origin, rows, run[0].number)?;
    let entries = gather_run(alloc, rows, entries, &place, run)?;
    Ok((entries, run.len()))
}

// What stands at the places of the rows, whose keys these are.
fn gather<'a>(
    alloc: Global,
    origin: &Name,
    rows: &RowList,
    keys: &[Keyed<'a>],
) -> Result<IndexEntries<'a>, AllocError>
    requires stored { All IsStored rows.now.rows }
    requires keys { AreKeysOf origin.now rows.now.rows (map keyed_seen keys.now) }
    ensures { IfOk result (λ entries. IsIndexOf origin.now rows.now.rows entries) }
{
    names_of_equal_octets_are_equal();
    case_does_not_matter();
    octets_tell_places_apart();
    // called for its clauses
    let _count = rows.len();
    let mut entries = IndexEntries::empty(alloc);
    let mut done = 0;
    while done < keys.len() {
        let (with_next, count) = gather_next(alloc, origin, rows, entries, &keys[done..])?;
        entries = with_next;
        done += count;
    }
    Ok(entries)
}

// The index of the rows whose keys these are, which are given up before the tries are made.
fn index_by<'a>(
    alloc: Global,
    origin: &Name,
    rows: &RowList,
    keys: Vec<Keyed<'a>>,
) -> Result<TriggerIndex, AllocError>
    requires stored { All IsStored rows.now.rows }
    requires keys { AreKeysOf origin.now rows.now.rows (map keyed_seen keys.items) }
    ensures { IfOk result (λ index. IsIndexOf origin.now rows.now.rows index) }
{
    let entries = gather(alloc, origin, rows, &keys)?;
    drop(keys);
    let index = entries.built()?;
    Ok(index)
}

// The keys in order, of the rows that are listed.
fn sorted_keys<'a>(
    alloc: Global,
    origin: &Name,
    rows: &RowList,
    list: &'a KeyList,
) -> Result<Vec<Keyed<'a>>, AllocError>
    requires { IsListed origin.now rows.now.rows list.now }
    ensures { IfOk result
        (λ keys. AreKeysOf origin.now rows.now.rows (map keyed_seen keys.items)) }
{
    let _count = rows.len();
    list.sorted(alloc)
}

/// The index of the rows for a zone of this origin. Its time is that of sorting the octets of their places.
pub(crate) fn index_of(
    alloc: Global,
    origin: &Name,
    rows: &RowList,
) -> Result<TriggerIndex, AllocError>
    requires { All IsStored rows.now.rows }
    ensures { IfOk result (λ index. IsIndexOf origin.now rows.now.rows index) }
{
    let list = list_rows(alloc, origin, rows)?;
    let keys = sorted_keys(alloc, origin, rows, &list)?;
    index_by(alloc, origin, rows, keys)
}

/// The same, or `None` where two rows have one identity: that is seen before the index is made.
pub(crate) fn index_of_distinct(
    alloc: Global,
    origin: &Name,
    rows: &RowList,
) -> Result<Option<TriggerIndex>, AllocError>
    requires { All IsStored rows.now.rows }
    ensures index { IfOk result
        (λ made. IfSome made (λ index. IsIndexOf origin.now rows.now.rows index)) }
    ensures distinct { IfOk result
        (λ made. IsSome made → AreDistinct (map plain_row rows.now.rows)) }
{
    let list = list_rows(alloc, origin, rows)?;
    let keys = sorted_keys(alloc, origin, rows, &list)?;
    if !are_distinct(alloc, origin, rows, &keys)? {
        return Ok(None);
    }
    let index = index_by(alloc, origin, rows, keys)?;
    Ok(Some(index))
}
