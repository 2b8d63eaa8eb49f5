//! Calls of lists whose copies share their blocks.

use crate::sheet::Sheet;
use crate::tried::{Tried, after, made_changed_twice};
use crate::try_error::TryError;
use packed_lists::{Held, Share, SharedList, SharedOctets, SharedTable};
use std::alloc::{AllocError, Global};

/// The names of these calls.
pub const NAMES: &str = "packed_lists::SharedList::push\n\
    packed_lists::SharedList::push::full\n\
    packed_lists::SharedList::share\n\
    packed_lists::SharedOctets::push\n\
    packed_lists::SharedOctets::push::full\n\
    packed_lists::SharedOctets::share\n\
    packed_lists::SharedTable::push\n\
    packed_lists::SharedTable::push::full\n\
    packed_lists::SharedTable::set\n\
    packed_lists::SharedTable::share\n";

/// A list of numbers, and a table of some that are held.
type Numbers = SharedList<u32>;

type Table = SharedTable<Held<u32>>;

// So many items fill a block of a list, and a group of a table.
const LIST_BLOCK: u32 = 1024;

const TABLE_GROUP: u32 = 64;

// So many of these strings fill a block of octets.
const STRINGS: u32 = 256;

const STRING: &[u8; 16] = b"0123456789abcdef";

fn show_numbers(sheet: &mut Sheet, numbers: &Numbers) {
    for place in 0..numbers.len() {
        sheet.show(numbers.get(place));
    }
}

fn show_table(sheet: &mut Sheet, table: &Table) {
    for place in 0..table.len() {
        sheet.show(table.get(place).get());
    }
}

impl Tried for SharedList<u32> {
    fn once(&mut self, _alloc: Global, sheet: &mut Sheet, call: &str) -> Result<(), TryError> {
        if call == "packed_lists::SharedList::share" {
            show_numbers(sheet, &self.share()?);
            return Ok(());
        }
        self.push(7)?;
        show_numbers(sheet, self);
        Ok(())
    }
}

// The place of the string that is put, and how many octets there are then.
fn push_string(sheet: &mut Sheet, octets: &mut SharedOctets) -> Result<(), TryError> {
    let place = octets.push(STRING)?;
    sheet.show(&place);
    sheet.show(&octets.len());
    sheet.show(&octets.get(place, STRING.len()));
    Ok(())
}

impl Tried for SharedOctets {
    fn once(&mut self, _alloc: Global, sheet: &mut Sheet, call: &str) -> Result<(), TryError> {
        if call == "packed_lists::SharedOctets::share" {
            let mut other = self.share()?;
            return push_string(sheet, &mut other);
        }
        push_string(sheet, self)
    }
}

// Adds one to the first number.
fn set_first(alloc: Global, table: &mut Table) -> Result<(), TryError> {
    if table.len() == 0 {
        return Err(TryError::Sample);
    }
    let next = table.get(0).get().wrapping_add(1);
    let held = Held::new(alloc, next)?;
    Ok(table.set(0, held)?)
}

fn push_held(alloc: Global, table: &mut Table, number: u32) -> Result<(), AllocError> {
    let held = Held::new(alloc, number)?;
    table.push(held)
}

impl Tried for SharedTable<Held<u32>> {
    fn once(&mut self, alloc: Global, sheet: &mut Sheet, call: &str) -> Result<(), TryError> {
        match call {
            "packed_lists::SharedTable::share" => {
                show_table(sheet, &self.share()?);
                return Ok(());
            }
            "packed_lists::SharedTable::set" => set_first(alloc, self)?,
            _ => push_held(alloc, self, 7)?,
        }
        show_table(sheet, self);
        Ok(())
    }
}

fn fill_numbers(numbers: &mut Numbers, count: u32) -> Result<(), AllocError> {
    for number in 0..count {
        numbers.push(number)?;
    }
    Ok(())
}

// So many numbers in a list.
fn make_numbers(alloc: Global, count: u32) -> Result<Numbers, AllocError> {
    let mut numbers = Numbers::new(alloc);
    let done = fill_numbers(&mut numbers, count);
    after(numbers, done)
}

fn fill_octets(octets: &mut SharedOctets, count: u32) -> Result<(), AllocError> {
    for _count in 0..count {
        let _place = octets.push(STRING)?;
    }
    Ok(())
}

// So many strings.
fn make_octets(alloc: Global, count: u32) -> Result<SharedOctets, AllocError> {
    let mut octets = SharedOctets::new(alloc);
    let done = fill_octets(&mut octets, count);
    after(octets, done)
}

fn fill_table(alloc: Global, table: &mut Table, count: u32) -> Result<(), AllocError> {
    for number in 0..count {
        push_held(alloc, table, number)?;
    }
    Ok(())
}

// So many numbers in a table.
fn make_table(alloc: Global, count: u32) -> Result<Table, AllocError> {
    let mut table = Table::new(alloc);
    let done = fill_table(alloc, &mut table, count);
    after(table, done)
}

// How many there are before the call, where a block is full with so many.
fn count_of(call: &str, block: u32) -> u32 {
    match call {
        "packed_lists::SharedList::push"
        | "packed_lists::SharedOctets::push"
        | "packed_lists::SharedTable::push" => 0,
        "packed_lists::SharedList::push::full"
        | "packed_lists::SharedOctets::push::full"
        | "packed_lists::SharedTable::push::full" => block,
        _ => block.saturating_add(1),
    }
}

/// Does the call of this name twice.
pub fn twice(alloc: Global, sheet: &mut Sheet, call: &str) -> Result<(), TryError> {
    match call {
        "packed_lists::SharedList::push"
        | "packed_lists::SharedList::push::full"
        | "packed_lists::SharedList::share" => {
            let numbers = make_numbers(alloc, count_of(call, LIST_BLOCK));
            made_changed_twice(alloc, sheet, call, numbers)
        }
        "packed_lists::SharedOctets::push"
        | "packed_lists::SharedOctets::push::full"
        | "packed_lists::SharedOctets::share" => {
            let octets = make_octets(alloc, count_of(call, STRINGS));
            made_changed_twice(alloc, sheet, call, octets)
        }
        _ => {
            let table = make_table(alloc, count_of(call, TABLE_GROUP));
            made_changed_twice(alloc, sheet, call, table)
        }
    }
}
