//! The names of a message while there are few: a suffix is looked up in each of them, without a hash and without memory.

ghost use Rattle.std.specs.Prelude.{◌≡◌, ◌<◌, ◌≤◌, ◌≢◌, List, [], ◌∷◌, ◌++◌, length, take, Some, None, IfSome, IsTrue, ◌↔◌};
ghost use Rattle.std.specs.List.{AllByRecursion};
ghost use Rattle.dns_name.specs.Wire.{labels_in, IsWire};
ghost use Rattle.packed_names.specs.Places.{Place, first_offset};
ghost use Rattle.packed_names.specs.Recent.{added_places, known_after, count_before_match, match_offset, IsRecentName, BeginsLabel};

use crate::pointing::POINTED_PLACES;
use crate::split::split_label;
use std::marker::Model;

// So many names are searched one after another; with more there is a table.
const RECENT_LIMIT: usize = 8;

/// A name, and where its labels were written: from the offset `start` on, those that begin before `end`.
#[derive(Clone, Copy, Debug)]
pub struct RecentName<'n> {
    // the name as it is written in full
    pub(crate) octets: &'n [u8],
    pub(crate) start: u16,
    pub(crate) end: u16,
}

/// A few names, in the order in which they were written. Contracts see this list.
#[derive(Debug, Drop)]
pub struct RecentNames<'n> {
    names: [RecentName<'n>; RECENT_LIMIT],
    count: usize,
}

impl<'n> Model for RecentNames<'n> {
    ghost use Rattle.std.specs.Prelude.{◌≡◌, ◌≤◌, List, take, length};
    ghost use Rattle.packed_names.specs.declared.recent.RecentName.{RecentName};

    ghost Value = { List RecentName };

    ghost view = { λ r. take r.count r.names };

    ghost invariant = { λ r. (r.count ≤ 8) × (length r.names ≡ 8) };
}

impl<'n> RecentNames<'n> {
    /// No names.
    #[inline(always)]
    pub(crate) fn new() -> Self
        ensures { result ≡ [] }
    {
        RecentNames {
            names: [RecentName {
                octets: b"",
                start: 0,
                end: 0,
            }; RECENT_LIMIT],
            count: 0,
        }
    }

    /// This name alone.
    #[inline(always)]
    pub(crate) fn of_one(name: RecentName<'n>) -> Self
        ensures { result ≡ name.entry ∷ [] }
    {
        let mut names = RecentNames::new();
        names.push(name);
        names
    }

    /// The names.
    #[inline(always)]
    pub(crate) fn as_slice(&self) -> &[RecentName<'n>]
        ensures { result.now ≡ self.now }
    {
        &self.names[..self.count]
    }

    /// Forgets the names.
    #[inline(always)]
    pub(crate) fn clear(&mut self)
        ensures { self.new ≡ [] }
    {
        self.count = 0;
    }

    /// Whether there is no room for one more name.
    #[inline(always)]
    pub(crate) fn is_full(&self) -> bool
        ensures { IsTrue result ↔ (RECENT_LIMIT ≤ length self.now) }
    {
        self.count >= RECENT_LIMIT
    }

    /// Puts a name behind the others.
    #[inline(always)]
    pub(crate) fn push(&mut self, name: RecentName<'n>)
        requires { length self.old < RECENT_LIMIT }
        ensures { self.new ≡ self.old ++ name.entry ∷ [] }
    {
        self.names[self.count] = name;
        self.count += 1;
    }
}

// Whether a label of the name begins at the index, or its zero stands there.
fn begins_label(octets: &[u8], index: usize) -> bool
    requires wire { IsWire octets.now }
    requires inside { index < length octets.now }
    ensures begins { IsTrue result → BeginsLabel octets.now index }
    ensures others { BeginsLabel octets.now index → IsTrue result }
{
    let mut at = 0;
    while at < index {
        at += usize::from(octets[at]) + 1;
    }
    at == index
}

// Whether these are the same octets. Most names differ in their first one, and no call is made for them.
#[inline(always)]
fn is_same(some: &[u8], others: &[u8]) -> bool
    ensures { IsTrue result ↔ (some.now ≡ others.now) }
{
    some.first() == others.first() && some == others
}

// The offset of a suffix among the labels of one name.
fn offset_in<'n>(name: &RecentName<'n>, octets: &[u8]) -> Option<u16>
    requires name { IsRecentName name.now }
    requires wire { IsWire octets.now }
    requires label { 2 ≤ length octets.now }
    ensures place { (places : List Place) → first_offset places (labels_in octets.now) ≡ None →
        first_offset (added_places places name.now.start name.now.end (labels_in name.now.octets.now))
        (labels_in octets.now) ≡ result }
    ensures near { IfSome result (λ offset. offset < POINTED_PLACES) }
{
    let whole = name.octets.len();
    if octets.len() > whole {
        return None;
    }
    let index = whole - octets.len();
    let at = usize::from(name.start) + index;
    if at >= usize::from(name.end) {
        return None;
    }
    if !is_same(&name.octets[index..], octets) {
        return None;
    }
    if !begins_label(name.octets, index) {
        return None;
    }
    Some(at as u16)
}

// The offset of a suffix among the labels of the names.
fn offset_among<'n>(names: &[RecentName<'n>], octets: &[u8]) -> Option<u16>
    requires names { AllByRecursion IsRecentName names.now }
    requires wire { IsWire octets.now }
    requires label { 2 ≤ length octets.now }
    ensures place { first_offset (known_after [] names.now) (labels_in octets.now) ≡ result }
    ensures near { IfSome result (λ offset. offset < POINTED_PLACES) }
{
    for name in names {
        if let Some(offset) = offset_in(name, octets) {
            return Some(offset);
        }
    }
    None
}

/// The offset of a whole name, if it is the first of the names. `None` says nothing.
#[inline(always)]
pub(crate) fn offset_if_first<'n>(names: &[RecentName<'n>], octets: &[u8]) -> Option<u16>
    requires names { AllByRecursion IsRecentName names.now }
    requires wire { IsWire octets.now }
    requires label { 2 ≤ length octets.now }
    ensures place { IfSome result
        (λ offset. first_offset (known_after [] names.now) (labels_in octets.now) ≡ Some offset) }
    ensures near { IfSome result (λ offset. offset < POINTED_PLACES) }
{
    if names.is_empty() {
        return None;
    }
    let name = names[0];
    if name.start >= name.end {
        return None;
    }
    if is_same(name.octets, octets) {
        Some(name.start)
    } else {
        None
    }
}

/// The longest suffix of a name that has a place among the names: how many octets stand before it, and its offset. Without
/// one, all before the zero.
pub(crate) fn longest_match<'n>(names: &[RecentName<'n>], octets: &[u8]) -> (usize, Option<u16>)
    requires names { AllByRecursion IsRecentName names.now }
    requires wire { IsWire octets.now }
    ensures count { result.0 ≡ count_before_match (known_after [] names.now) (labels_in octets.now) }
    ensures offset { result.1 ≡ match_offset (known_after [] names.now) (labels_in octets.now) }
    ensures near { IfSome result.1 (λ offset. offset < POINTED_PLACES) }
    ensures fits { result.0 < length octets.now }
{
    let mut rest = octets;
    while let Some((_count, others)) = split_label(rest) {
        if let Some(offset) = offset_among(names, rest) {
            return (octets.len() - rest.len(), Some(offset));
        }
        rest = others;
    }
    (octets.len() - rest.len(), None)
}
