//! The places of a message that pointers can lead to, and names written by them.

ghost use Rattle.std.specs.Prelude.{◌≡◌, ℕ, ◌+◌, ◌<◌, ◌≤◌, min, [], ◌∷◌, ◌++◌, length, take, Some, OnOk, OnErr, IfSome, ◌≢◌};
ghost use Rattle.std.specs.List.{AllByRecursion};
ghost use Rattle.dns_name.specs.Labels.{name_octets};
ghost use Rattle.dns_name.specs.Wire.{labels_in, IsWire};
ghost use Rattle.packed_names.specs.Places.{first_offset, pointer_octets, pointer_or, compressed_octets, new_places, new_places_in_full};
ghost use Rattle.packed_names.specs.Recent.{known_places, added_places, IsRecentName};
ghost use Rattle.packed_names.specs.Table.{suffix_places, IsTable};

use crate::compress::{compress, insert_names, insert_written};
use crate::pointing::{POINTED_PLACES, write_pointer};
use crate::recent::{self, RecentName, RecentNames, longest_match};
use crate::table::{self, SuffixEntry};
use dns_name::{Name, Octets};
use std::alloc::{AllocError, Global};
use std::marker::Model;

/// The places of a message that pointers can lead to: where labels of the names written so far begin in its first 16,384
/// bytes. Contracts see these places, in the order in which they were written.
///
/// Offsets are counted from the first byte of the `Octets` that are written to, so a message begins there, and the two bytes of
/// length that stand before it over TCP (RFC 1035, section 4.2.2) do not. The octets of the names are borrowed, and none are copied.
#[derive(Debug, Drop)]
pub struct Places<'n> {
    alloc: Global,
    key: u64,
    heads: Vec<u16>,
    suffixes: Vec<SuffixEntry<'n>>,
    // The names whose suffixes are not in the table. While there are few, there is no table, and nothing is hashed or allocated.
    recent: RecentNames<'n>,
}

impl<'n> Model for Places<'n> {
    ghost use Rattle.std.specs.Prelude.{List};
    ghost use Rattle.std.specs.List.{AllByRecursion};
    ghost use Rattle.packed_names.specs.Places.{Place};
    ghost use Rattle.packed_names.specs.Table.{IsTable};
    ghost use Rattle.packed_names.specs.Recent.{known_places, IsRecentName};

    ghost Value = { List Place };

    ghost view = { λ p. known_places p.suffixes.items p.recent };

    ghost invariant = { λ p. IsTable p.key p.heads.items p.suffixes.items × AllByRecursion IsRecentName p.recent };
}

impl<'n> Places<'n> {
    /// No places. It takes no memory.
    ///
    /// The key is that of the hash of the suffixes, a random number. Those who send the names must not know it, or they can
    /// choose names that collide and are slow to find.
    #[inline(always)]
    pub fn new(alloc: Global, key: u64) -> Self
        ensures { result ≡ [] }
    {
        Places {
            alloc,
            key,
            heads: Vec::new(alloc),
            suffixes: Vec::new(alloc),
            recent: RecentNames::new(),
        }
    }

    /// The places of a name that stands in full at the offset, before all others, as the question's name. It takes no memory. The
    /// key is that of [`Places::new`].
    #[inline(always)]
    pub fn of_name(alloc: Global, key: u64, name: &'n Name, start: u16) -> Self
        ensures { result ≡ new_places_in_full [] start name.now }
    {
        let octets = name.octets();
        let end = reach(usize::from(start), octets.len());
        Places {
            alloc,
            key,
            heads: Vec::new(alloc),
            suffixes: Vec::new(alloc),
            recent: RecentNames::of_one(RecentName {
                octets,
                start,
                end: end as u16,
            }),
        }
    }

    /// Forgets all places, and keeps their room.
    pub fn clear(&mut self)
        ensures { self.new ≡ [] }
    {
        self.heads.clear();
        self.suffixes.clear();
        self.recent.clear();
    }

    /// The offset of a whole name, where one comparison finds it, as that of the question's name: the first name that was
    /// written. The name is then compressed to a [`pointer`] there, and adds no places. `None` says nothing. The root has no place.
    #[inline(always)]
    pub fn known(&self, octets: &[u8]) -> Option<u16>
        requires { IsWire octets.now }
        ensures place { IfSome result
            (λ offset. first_offset self.now (labels_in octets.now) ≡ Some offset) }
        ensures label { IfSome result (λ offset. labels_in octets.now ≢ []) }
        ensures near { IfSome result (λ offset. offset < POINTED_PLACES) }
        ensures octets { IfSome result
            (λ offset. compressed_octets self.now (labels_in octets.now) ≡ pointer_octets offset) }
        ensures places { (at : ℕ) → IfSome result
            (λ offset. new_places self.now at (labels_in octets.now) ≡ []) }
    {
        known_offset(
            self.key,
            self.heads.as_slice(),
            self.suffixes.as_slice(),
            self.recent.as_slice(),
            octets,
        )
    }

    /// Writes a name at the end of the message, with a pointer in place of its longest suffix that has a place, and adds the
    /// places of the labels that are written. An `Err` leaves the message as it was, and no places.
    pub fn write_name(&mut self, out: &mut Octets, name: &'n Name) -> Result<(), AllocError>
        ensures octets { OnOk result (out.new ≡ out.old ++ compressed_octets self.old name.now) }
        ensures places { OnOk result (self.new
            ≡ self.old ++ new_places self.old (length out.old) name.now) }
        ensures same { OnErr result (out.new ≡ out.old) }
        ensures none { OnErr result (self.new ≡ []) }
    {
        self.write_octets(out, name.octets())
    }

    /// Writes a name that is given as it is written in full, as in the data of a record ([`split_name`](crate::split_name)),
    /// the way [`Places::write_name`] does.
    #[inline(always)]
    pub fn write_octets(&mut self, out: &mut Octets, octets: &'n [u8]) -> Result<(), AllocError>
        requires { IsWire octets.now }
        ensures octets { OnOk result (out.new
            ≡ out.old ++ compressed_octets self.old (labels_in octets.now)) }
        ensures places { OnOk result (self.new
            ≡ self.old ++ new_places self.old (length out.old) (labels_in octets.now)) }
        ensures same { OnErr result (out.new ≡ out.old) }
        ensures none { OnErr result (self.new ≡ []) }
    {
        if octets.len() < 2 {
            return self.write_root(out);
        }
        self.write_labels(out, octets)
    }

    // Writes a name that is given as it is written in full, compressed.
    fn write_labels(&mut self, out: &mut Octets, octets: &'n [u8]) -> Result<(), AllocError>
        requires { IsWire octets.now }
        ensures octets { OnOk result (out.new
            ≡ out.old ++ compressed_octets self.old (labels_in octets.now)) }
        ensures places { OnOk result (self.new
            ≡ self.old ++ new_places self.old (length out.old) (labels_in octets.now)) }
        ensures same { OnErr result (out.new ≡ out.old) }
        ensures none { OnErr result (self.new ≡ []) }
    {
        let start = out.len();
        match write_compressed(
            self.alloc,
            self.key,
            &mut self.heads,
            &mut self.suffixes,
            &mut self.recent,
            out,
            octets,
        ) {
            Ok(()) => Ok(()),
            Err(e) => {
                out.truncate(start);
                self.clear();
                Err(e)
            }
        }
    }

    // Writes the root. It has no label, and so no place.
    #[inline(always)]
    fn write_root(&mut self, out: &mut Octets) -> Result<(), AllocError>
        ensures octets { OnOk result (out.new ≡ out.old ++ 0 ∷ []) }
        ensures places { OnOk result (self.new ≡ self.old) }
        ensures same { OnErr result (out.new ≡ out.old) }
        ensures none { OnErr result (self.new ≡ []) }
    {
        match out.push(0) {
            Ok(()) => Ok(()),
            Err(e) => {
                self.clear();
                Err(e)
            }
        }
    }

    /// Writes a name in full at the end of the message, as the question's, and adds the places of its labels, except for a
    /// suffix that has a place already. An `Err` leaves the message as it was, and no places.
    pub fn write_full(&mut self, out: &mut Octets, name: &'n Name) -> Result<(), AllocError>
        ensures octets { OnOk result (out.new ≡ out.old ++ name_octets name.now) }
        ensures places { OnOk result (self.new
            ≡ self.old ++ new_places_in_full self.old (length out.old) name.now) }
        ensures same { OnErr result (out.new ≡ out.old) }
        ensures none { OnErr result (self.new ≡ []) }
    {
        let start = out.len();
        let octets = name.octets();
        match write_in_full(
            self.alloc,
            self.key,
            &mut self.heads,
            &mut self.suffixes,
            &mut self.recent,
            out,
            octets,
        ) {
            Ok(()) => Ok(()),
            Err(e) => {
                out.truncate(start);
                self.clear();
                Err(e)
            }
        }
    }
}

// The offset of a whole name, if it is the first of the table or, without a table, of the recent names.
#[inline(always)]
fn known_offset<'n>(
    key: u64,
    heads: &[u16],
    suffixes: &[SuffixEntry<'n>],
    names: &[RecentName<'n>],
    octets: &[u8],
) -> Option<u16>
    requires table { IsTable key heads.now suffixes.now }
    requires names { AllByRecursion IsRecentName names.now }
    requires wire { IsWire octets.now }
    ensures place { IfSome result (λ offset.
        first_offset (known_places suffixes.now names.now) (labels_in octets.now) ≡ Some offset) }
    ensures label { IfSome result (λ offset. labels_in octets.now ≢ []) }
    ensures near { IfSome result (λ offset. offset < POINTED_PLACES) }
{
    if octets.len() < 2 {
        return None;
    }
    if suffixes.is_empty() {
        recent::offset_if_first(names, octets)
    } else {
        table::offset_if_first(key, heads, suffixes, octets)
    }
}

// Where labels end that so many octets of are written from an offset on, as far as pointers reach.
fn reach(start: usize, count: usize) -> usize
    ensures { result ≡ min (start + count) POINTED_PLACES }
{
    start.saturating_add(count).min(POINTED_PLACES)
}

// Puts the recent names into the table.
fn insert_recent<'n>(
    alloc: Global,
    key: u64,
    heads: &mut Vec<u16>,
    suffixes: &mut Vec<SuffixEntry<'n>>,
    recent: &mut RecentNames<'n>,
) -> Result<(), AllocError>
    requires table { IsTable key heads.old.items suffixes.old.items }
    requires recent { AllByRecursion IsRecentName recent.old }
    ensures table { IsTable key heads.new.items suffixes.new.items }
    ensures recent { AllByRecursion IsRecentName recent.new }
    ensures none { OnOk result (recent.new ≡ []) }
    ensures places { OnOk result (suffix_places suffixes.new.items
        ≡ known_places suffixes.old.items recent.old) }
{
    insert_names(alloc, key, heads, suffixes, recent.as_slice())?;
    recent.clear();
    Ok(())
}

// Room for so many entries is made at once, when there are names enough for a table.
const FIRST_ENTRIES: usize = 32;

// Puts the recent names into the table, and behind them a name whose labels were written from the offset `start` on up to `end`.
#[inline(never)]
fn insert_all<'n>(
    alloc: Global,
    key: u64,
    heads: &mut Vec<u16>,
    suffixes: &mut Vec<SuffixEntry<'n>>,
    recent: &mut RecentNames<'n>,
    octets: &'n [u8],
    start: usize,
    end: usize,
) -> Result<(), AllocError>
    requires table { IsTable key heads.old.items suffixes.old.items }
    requires recent { AllByRecursion IsRecentName recent.old }
    requires wire { IsWire octets.now }
    requires near { end ≤ POINTED_PLACES }
    ensures table { IsTable key heads.new.items suffixes.new.items }
    ensures recent { AllByRecursion IsRecentName recent.new }
    ensures places { OnOk result (known_places suffixes.new.items recent.new
        ≡ known_places suffixes.old.items recent.old
        ++ added_places (known_places suffixes.old.items recent.old) start end (labels_in octets.now)) }
{
    suffixes.reserve(FIRST_ENTRIES)?;
    insert_recent(alloc, key, heads, suffixes, recent)?;
    insert_written(alloc, key, heads, suffixes, octets, start, end)
}

// Adds the places of a name whose labels were written from the offset `start` on up to `end`: it becomes a recent name, or
// where there is no room for one more, all come into the table.
#[inline]
fn remember<'n>(
    alloc: Global,
    key: u64,
    heads: &mut Vec<u16>,
    suffixes: &mut Vec<SuffixEntry<'n>>,
    recent: &mut RecentNames<'n>,
    octets: &'n [u8],
    start: usize,
    end: usize,
) -> Result<(), AllocError>
    requires table { IsTable key heads.old.items suffixes.old.items }
    requires recent { AllByRecursion IsRecentName recent.old }
    requires wire { IsWire octets.now }
    requires near { end ≤ POINTED_PLACES }
    ensures table { IsTable key heads.new.items suffixes.new.items }
    ensures recent { AllByRecursion IsRecentName recent.new }
    ensures places { OnOk result (known_places suffixes.new.items recent.new
        ≡ known_places suffixes.old.items recent.old
        ++ added_places (known_places suffixes.old.items recent.old) start end (labels_in octets.now)) }
{
    if start >= end {
        return Ok(());
    }
    if recent.is_full() {
        return insert_all(alloc, key, heads, suffixes, recent, octets, start, end);
    }
    recent.push(RecentName {
        octets,
        start: start as u16,
        end: end as u16,
    });
    Ok(())
}

// Writes a name in full. An `Err` leaves what was written before.
fn write_in_full<'n>(
    alloc: Global,
    key: u64,
    heads: &mut Vec<u16>,
    suffixes: &mut Vec<SuffixEntry<'n>>,
    recent: &mut RecentNames<'n>,
    out: &mut Octets,
    octets: &'n [u8],
) -> Result<(), AllocError>
    requires table { IsTable key heads.old.items suffixes.old.items }
    requires recent { AllByRecursion IsRecentName recent.old }
    requires wire { IsWire octets.now }
    ensures table { IsTable key heads.new.items suffixes.new.items }
    ensures recent { AllByRecursion IsRecentName recent.new }
    ensures octets { OnOk result (out.new ≡ out.old ++ octets.now) }
    ensures places { OnOk result (known_places suffixes.new.items recent.new
        ≡ known_places suffixes.old.items recent.old
        ++ new_places_in_full (known_places suffixes.old.items recent.old) (length out.old)
        (labels_in octets.now)) }
    ensures begins { take (length out.old) out.new ≡ out.old }
{
    let start = out.len();
    out.append(octets)?;
    let end = reach(start, octets.len());
    remember(alloc, key, heads, suffixes, recent, octets, start, end)
}

// Writes so many octets of a name, and behind them a pointer to the offset or a zero. An `Err` leaves what was written before.
fn write_cut(
    out: &mut Octets,
    octets: &[u8],
    count: usize,
    found: Option<u16>,
) -> Result<(), AllocError>
    requires inside { count < length octets.now }
    requires near { IfSome found (λ offset. offset < POINTED_PLACES) }
    ensures octets { OnOk result (out.new
        ≡ out.old ++ (take count octets.now ++ pointer_or found (0 ∷ []))) }
    ensures begins { take (length out.old) out.new ≡ out.old }
{
    out.append(&octets[..count])?;
    match found {
        Some(offset) => write_pointer(out, offset),
        None => out.push(0),
    }
}

// Writes a name compressed, by the recent names alone. An `Err` leaves what was written before.
fn compress_by_recent<'n>(
    alloc: Global,
    key: u64,
    heads: &mut Vec<u16>,
    suffixes: &mut Vec<SuffixEntry<'n>>,
    recent: &mut RecentNames<'n>,
    out: &mut Octets,
    octets: &'n [u8],
) -> Result<(), AllocError>
    requires table { IsTable key heads.old.items suffixes.old.items }
    requires none { suffixes.old.items ≡ [] }
    requires recent { AllByRecursion IsRecentName recent.old }
    requires wire { IsWire octets.now }
    ensures table { IsTable key heads.new.items suffixes.new.items }
    ensures recent { AllByRecursion IsRecentName recent.new }
    ensures octets { OnOk result (out.new ≡ out.old
        ++ compressed_octets (known_places suffixes.old.items recent.old) (labels_in octets.now)) }
    ensures places { OnOk result (known_places suffixes.new.items recent.new
        ≡ known_places suffixes.old.items recent.old
        ++ new_places (known_places suffixes.old.items recent.old) (length out.old)
        (labels_in octets.now)) }
    ensures begins { take (length out.old) out.new ≡ out.old }
{
    let start = out.len();
    let (count, found) = longest_match(recent.as_slice(), octets);
    write_cut(out, octets, count, found)?;
    let end = reach(start, count);
    remember(alloc, key, heads, suffixes, recent, octets, start, end)
}

// Names are looked up without a table only if they are written in the first octets of a message, so that the work for a message
// that is made to be slow stays small: each suffix may be compared with each recent name.
const FEW_OCTETS: usize = 2_048;

// Writes a name compressed. An `Err` leaves what was written before.
fn write_compressed<'n>(
    alloc: Global,
    key: u64,
    heads: &mut Vec<u16>,
    suffixes: &mut Vec<SuffixEntry<'n>>,
    recent: &mut RecentNames<'n>,
    out: &mut Octets,
    octets: &'n [u8],
) -> Result<(), AllocError>
    requires table { IsTable key heads.old.items suffixes.old.items }
    requires recent { AllByRecursion IsRecentName recent.old }
    requires wire { IsWire octets.now }
    ensures table { IsTable key heads.new.items suffixes.new.items }
    ensures recent { AllByRecursion IsRecentName recent.new }
    ensures octets { OnOk result (out.new ≡ out.old
        ++ compressed_octets (known_places suffixes.old.items recent.old) (labels_in octets.now)) }
    ensures places { OnOk result (known_places suffixes.new.items recent.new
        ≡ known_places suffixes.old.items recent.old
        ++ new_places (known_places suffixes.old.items recent.old) (length out.old)
        (labels_in octets.now)) }
    ensures begins { take (length out.old) out.new ≡ out.old }
{
    if suffixes.is_empty() && out.len() < FEW_OCTETS {
        return compress_by_recent(alloc, key, heads, suffixes, recent, out, octets);
    }
    insert_recent(alloc, key, heads, suffixes, recent)?;
    compress(alloc, key, heads, suffixes, out, octets)
}
