//! Calls of lists that pack their rows or keys.

use crate::sheet::Sheet;
use crate::tried::{Tried, after, changed_twice, made_changed_twice};
use crate::try_error::TryError;
use packed_lists::{KeyList, Keyed, RowList, numbers_of};
use std::alloc::{AllocError, Global};

/// The names of these calls.
pub const NAMES: &str = "packed_lists::KeyList::push\n\
    packed_lists::KeyList::sorted\n\
    packed_lists::numbers_of\n\
    packed_lists::RowList::push\n\
    packed_lists::RowList::push::full\n\
    packed_lists::RowList::remove\n\
    packed_lists::RowList::remove::full\n\
    packed_lists::RowList::share\n\
    packed_lists::RowList::rebuilt\n";

// So many rows fill a block.
const BLOCK: u32 = 512;

fn show_keys(sheet: &mut Sheet, keys: Vec<Keyed<'_>>) {
    for keyed in &keys {
        sheet.show(&keyed.key);
        sheet.show(&keyed.number);
    }
}

// The keys of a list in order.
fn sorted(alloc: Global, sheet: &mut Sheet, list: &KeyList) -> Result<(), TryError> {
    show_keys(sheet, list.sorted(alloc)?);
    Ok(())
}

// All of a list that a call has changed.
fn show_kept(alloc: Global, sheet: &mut Sheet, list: &KeyList) -> Result<(), TryError> {
    match list.sorted(alloc) {
        Ok(keys) => {
            show_keys(sheet, keys);
            Ok(())
        }
        Err(AllocError) => Err(TryError::NotShown),
    }
}

fn numbers(alloc: Global, list: &KeyList) -> Result<Vec<u32>, AllocError> {
    let keys = list.sorted(alloc)?;
    numbers_of(alloc, &keys)
}

impl Tried for KeyList {
    fn once(&mut self, alloc: Global, sheet: &mut Sheet, call: &str) -> Result<(), TryError> {
        match call {
            "packed_lists::KeyList::sorted" => sorted(alloc, sheet, self),
            "packed_lists::numbers_of" => sheet.show_result(numbers(alloc, self)),
            _ => {
                self.push(b"\x07example", 7)?;
                show_kept(alloc, sheet, self)
            }
        }
    }
}

// The number that the next row gets, and all rows.
fn show_list(sheet: &mut Sheet, list: &RowList) {
    sheet.show(&list.next());
    for place in 0..list.len() {
        let row = list.nth(place);
        sheet.show(&row.number);
        sheet.show(&row.owner);
        sheet.show(&row.rtype);
        sheet.show(&row.ttl);
        sheet.show(&row.rdata);
    }
}

fn show_made(sheet: &mut Sheet, made: Result<RowList, AllocError>) -> Result<(), TryError> {
    show_list(sheet, &made?);
    Ok(())
}

// Puts a row at the end, whose number it gives.
fn push(list: &mut RowList) -> Result<u32, AllocError> {
    list.push(b"\x01a\0", 1, 60, b"\xc0\0\x02\x08")
}

// Takes the first row out.
fn remove_first(list: &mut RowList) -> Result<(), TryError> {
    if list.len() == 0 {
        return Err(TryError::Sample);
    }
    let number = list.nth(0).number;
    Ok(list.remove(number)?)
}

impl Tried for RowList {
    fn once(&mut self, _alloc: Global, sheet: &mut Sheet, call: &str) -> Result<(), TryError> {
        match call {
            "packed_lists::RowList::share" => return show_made(sheet, self.share()),
            "packed_lists::RowList::rebuilt" => return show_made(sheet, self.rebuilt()),
            "packed_lists::RowList::remove" | "packed_lists::RowList::remove::full" => {
                remove_first(self)?;
            }
            _ => sheet.show(&push(self)?),
        }
        show_list(sheet, self);
        Ok(())
    }
}

fn fill_keys(keys: &mut KeyList) -> Result<(), AllocError> {
    keys.push(b"\x04test", 1)?;
    keys.push(b"\x07example", 2)?;
    keys.push(b"\x04test", 3)
}

// Keys of which two are the same, not in order.
fn make_keys(alloc: Global) -> Result<KeyList, AllocError> {
    let mut keys = KeyList::new(alloc);
    let done = fill_keys(&mut keys);
    after(keys, done)
}

fn fill_list(list: &mut RowList, count: u32) -> Result<(), AllocError> {
    for _count in 0..count {
        let _number = push(list)?;
    }
    Ok(())
}

// So many rows.
fn make_list(alloc: Global, count: u32) -> Result<RowList, AllocError> {
    let mut list = RowList::empty(alloc);
    let done = fill_list(&mut list, count);
    after(list, done)
}

// How many rows there are before the call.
fn count_of(call: &str) -> u32 {
    match call {
        "packed_lists::RowList::push" => 0,
        "packed_lists::RowList::push::full" => BLOCK,
        "packed_lists::RowList::remove" => 2,
        _ => BLOCK + 1,
    }
}

/// Does the call of this name twice.
pub fn twice(alloc: Global, sheet: &mut Sheet, call: &str) -> Result<(), TryError> {
    match call {
        "packed_lists::KeyList::push" => changed_twice(alloc, sheet, call, KeyList::new(alloc)),
        "packed_lists::KeyList::sorted" | "packed_lists::numbers_of" => {
            made_changed_twice(alloc, sheet, call, make_keys(alloc))
        }
        _ => made_changed_twice(alloc, sheet, call, make_list(alloc, count_of(call))),
    }
}
