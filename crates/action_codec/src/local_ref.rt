//! The rows that a rule answers with, lent.

ghost use Rattle.std.specs.Prelude.{◌≡◌, ◌<◌, ◌^◌, ◌∷◌, [], Some, length, slice_get};
ghost use Rattle.dns_record.specs.Record.{IsData};
ghost use Rattle.action_codec.specs.Seen.{part_seen};

use crate::local::LocalRow;
use std::marker::Model;

// Rows that stand so, or one row in parts.
#[derive(Debug, Clone, Copy, Drop)]
enum Lent<'a> {
    Rows(&'a [LocalRow]),
    One(LocalPart<'a>),
}

/// The rows that a rule answers with, in order of type, then data, as an index lends them. Contracts see the list.
#[derive(Debug, Drop)]
pub struct LocalRef<'a> {
    lent: Lent<'a>,
}

impl<'a> Model for LocalRef<'a> {
    ghost use Rattle.std.specs.Prelude.{List};
    ghost use Rattle.action_codec.specs.Lent.{AreData, rows_in};
    ghost use Rattle.action_codec.specs.Local.{PlainLocal};

    ghost Value = { List PlainLocal };

    ghost view = { λ r. rows_in r.lent };

    ghost invariant = { λ r. AreData r.lent };
}

/// One of these rows: its type, how many seconds it may be kept, and its data, the names in full and in lower case.
#[derive(Debug, Clone, Copy)]
pub struct LocalPart<'a> {
    /// The type: see [`dns_record::rtype`].
    pub rtype: u16,
    /// The TTL in seconds.
    pub ttl: u32,
    /// The data, at most 65,535 bytes.
    pub rdata: &'a [u8],
}

impl<'a> LocalRef<'a> {
    /// The rows that stand so.
    pub(crate) fn over(rows: &'a [LocalRow]) -> Self
        ensures { result ≡ rows.now }
    {
        LocalRef {
            lent: Lent::Rows(rows),
        }
    }

    /// One row of these parts.
    pub fn one(part: LocalPart<'a>) -> Self
        requires { IsData part.rtype 1 part.rdata.now }
        ensures { result ≡ part_seen part.entry ∷ [] }
    {
        LocalRef {
            lent: Lent::One(part),
        }
    }

    /// How many rows, fewer than 2^62.
    pub fn len(&self) -> usize
        ensures len { result ≡ length self.now }
        ensures few { result < 2 ^ 62 }
    {
        match self.lent {
            Lent::Rows(rows) => count(rows),
            Lent::One(_) => 1,
        }
    }

    /// The row at the place.
    pub fn at(&self, place: usize) -> LocalPart<'a>
        requires { place < length self.now }
        ensures row { slice_get self.now place ≡ Some (part_seen result) }
        ensures is_data { IsData result.rtype 1 result.rdata.now }
    {
        match self.lent {
            Lent::Rows(rows) => part_at(rows, place),
            Lent::One(part) => part,
        }
    }
}

// How many rows.
fn count(rows: &[LocalRow]) -> usize
    ensures len { result ≡ length rows.now }
    ensures few { result < 2 ^ 62 }
{
    rows.len()
}

// The parts of the row at the place.
fn part_at<'a>(rows: &'a [LocalRow], place: usize) -> LocalPart<'a>
    requires { place < length rows.now }
    ensures row { slice_get rows.now place ≡ Some (part_seen result) }
    ensures is_data { IsData result.rtype 1 result.rdata.now }
{
    let row = &rows[place];
    LocalPart {
        rtype: row.rtype(),
        ttl: row.ttl(),
        rdata: row.rdata(),
    }
}
