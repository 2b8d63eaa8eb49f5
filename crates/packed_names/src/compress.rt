//! A name against the table: written with a pointer, or its suffixes taken into the table.

ghost use Rattle.std.specs.Prelude.{◌≡◌, ◌≤◌, ◌++◌, length, take, OnOk};
ghost use Rattle.std.specs.List.{AllByRecursion};
ghost use Rattle.dns_name.specs.Wire.{labels_in, IsWire};
ghost use Rattle.packed_names.specs.Places.{compressed_octets, new_places};
ghost use Rattle.packed_names.specs.Recent.{added_places, known_places, IsRecentName};
ghost use Rattle.packed_names.specs.Table.{suffix_places, IsTable};

use crate::pointing::{POINTED_PLACES, write_pointer};
use crate::recent::RecentName;
use crate::split::split_label;
use crate::table::{SuffixEntry, find_or_insert};
use dns_name::Octets;
use std::alloc::{AllocError, Global};

/// Takes the suffixes of a name into the table whose labels begin before the offset `end`. The first stands at `start`.
pub(crate) fn insert_written<'n>(
    alloc: Global,
    key: u64,
    heads: &mut Vec<u16>,
    suffixes: &mut Vec<SuffixEntry<'n>>,
    octets: &'n [u8],
    start: usize,
    end: usize,
) -> Result<(), AllocError>
    requires table { IsTable key heads.old.items suffixes.old.items }
    requires wire { IsWire octets.now }
    requires near { end ≤ POINTED_PLACES }
    ensures table { IsTable key heads.new.items suffixes.new.items }
    ensures places { OnOk result (suffix_places suffixes.new.items
        ≡ suffix_places suffixes.old.items
        ++ added_places (suffix_places suffixes.old.items) start end (labels_in octets.now)) }
{
    let mut at = start;
    let mut rest = octets;
    while let Some((count, others)) = split_label(rest) {
        if at >= end {
            return Ok(());
        }
        let _place = find_or_insert(alloc, key, heads, suffixes, rest, at)?;
        at += count;
        rest = others;
    }
    Ok(())
}

/// Takes the suffixes of names into the table, in order.
pub(crate) fn insert_names<'n>(
    alloc: Global,
    key: u64,
    heads: &mut Vec<u16>,
    suffixes: &mut Vec<SuffixEntry<'n>>,
    names: &[RecentName<'n>],
) -> Result<(), AllocError>
    requires table { IsTable key heads.old.items suffixes.old.items }
    requires names { AllByRecursion IsRecentName names.now }
    ensures table { IsTable key heads.new.items suffixes.new.items }
    ensures places { OnOk result (suffix_places suffixes.new.items ≡ known_places suffixes.old.items names.now) }
{
    for name in names {
        let start = usize::from(name.start);
        let end = usize::from(name.end);
        insert_written(alloc, key, heads, suffixes, name.octets, start, end)?;
    }
    Ok(())
}

/// Writes a name, and takes the suffixes whose labels are written into the table. An `Err` leaves what was written before, and
/// maybe a part of the name behind it.
pub(crate) fn compress<'n>(
    alloc: Global,
    key: u64,
    heads: &mut Vec<u16>,
    suffixes: &mut Vec<SuffixEntry<'n>>,
    out: &mut Octets,
    octets: &'n [u8],
) -> Result<(), AllocError>
    requires table { IsTable key heads.old.items suffixes.old.items }
    requires wire { IsWire octets.now }
    ensures table { IsTable key heads.new.items suffixes.new.items }
    ensures octets { OnOk result (out.new
        ≡ out.old ++ compressed_octets (suffix_places suffixes.old.items) (labels_in octets.now)) }
    ensures places { OnOk result (suffix_places suffixes.new.items
        ≡ suffix_places suffixes.old.items
        ++ new_places (suffix_places suffixes.old.items) (length out.old) (labels_in octets.now)) }
    ensures begins { take (length out.old) out.new ≡ out.old }
{
    let mut rest = octets;
    loop {
        let Some((count, others)) = split_label(rest) else {
            return out.push(0);
        };
        if let Some(offset) = find_or_insert(alloc, key, heads, suffixes, rest, out.len())? {
            return write_pointer(out, offset);
        }
        out.append(&rest[..count])?;
        rest = others;
    }
}
