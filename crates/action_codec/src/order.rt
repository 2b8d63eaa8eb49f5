//! The rows of one rule in their order, each type and data once.

ghost use Rattle.std.specs.Prelude.{◌≡◌, List, [], ◌∷◌, ◌++◌, map, take, IfOk, OnOk, OnErr};
ghost use Rattle.action_codec.specs.Local.{data_key as key_of, first_owned, insert_row, rule_rows};

use dns_name::Octets;
use dns_record::Row;
use dns_record::number::push_u16;
use std::alloc::{AllocError, Global};
use std::cmp::Ordering;
use std::collections::BTreeMap;
use std::marker::Model;

// Rows in order of type, then data, each of these once.
#[derive(Drop)]
struct ByData<'a> {
    rows: BTreeMap<Vec<u8>, &'a Row>,
}

impl<'a> Model for ByData<'a> {
    ghost use Rattle.std.specs.Prelude.{List, map};
    ghost use Rattle.std.specs.Cmp.Lexicographic.{slice_cmp};
    ghost use Rattle.std.specs.List.{AllByRecursion};
    ghost use Rattle.std.specs.List.Sorted.{IsStrictlySortedBy};
    ghost use Rattle.std.specs.Map.{keys_of};
    ghost use Rattle.std.specs.Ordering.{nat_cmp};
    ghost use Rattle.dns_record.specs.Row.{PlainRow};
    ghost use Rattle.action_codec.specs.Local.{IsKeyed};

    ghost Value = { List PlainRow };

    ghost view = { λ b. map (λ e. e.1.now) b.rows.entries };

    ghost invariant = { λ b. AllByRecursion (λ e. IsKeyed e.0.items e.1.now) b.rows.entries
        × IsStrictlySortedBy (λ x y. slice_cmp nat_cmp x.items y.items) (keys_of b.rows.entries) };
}

impl<'a> ByData<'a> {
    fn new(alloc: Global) -> Self
        ensures { result ≡ [] }
    {
        ByData {
            rows: BTreeMap::new(alloc),
        }
    }

    // Puts the row to its place; of two of the same type and data the one whose owner comes first is kept.
    fn place(&mut self, alloc: Global, row: &'a Row) -> Result<(), AllocError>
        ensures { OnOk result (self.new ≡ insert_row row.now self.old) }
    {
        let key = data_key(alloc, row)?;
        let kept = match self.rows.get(key.as_slice()) {
            Some(other) => first_of(row, *other),
            None => row,
        };
        self.rows.insert(key, kept)?;
        Ok(())
    }

    // The rows.
    fn into_vec(self, alloc: Global) -> Result<Vec<&'a Row>, AllocError>
        ensures { IfOk result (λ rows. map (λ row. row.now) rows.items ≡ self.entry) }
    {
        let mut rows = Vec::with_capacity(alloc, self.rows.len())?;
        for row in self.rows.into_values() {
            rows.push(row)?;
        }
        Ok(rows)
    }
}

// The type and the data as they are written.
#[tactic(auto, unfolding(crate::specs::Local::data_key))]
fn data_key(alloc: Global, row: &Row) -> Result<Vec<u8>, AllocError>
    ensures { IfOk result (λ key. key.items ≡ key_of row.now) }
{
    let mut key = Octets::with_capacity(alloc, 2 + row.rdata().len())?;
    push_u16(&mut key, row.rtype())?;
    key.append(row.rdata())?;
    Ok(key.into_vec())
}

// The row whose owner comes first.
fn first_of<'a>(row: &'a Row, other: &'a Row) -> &'a Row
    ensures { result.now ≡ first_owned row.now other.now }
{
    match row.owner().canonical_cmp(other.owner()) {
        Ordering::Less => row,
        Ordering::Equal | Ordering::Greater => other,
    }
}

/// The rows in order of type, then data. Rows that are equal in both count once, with the TTL of the one
/// whose owner comes first in the canonical order of names.
pub(crate) fn in_order<'a>(alloc: Global, rows: &[&'a Row]) -> Result<Vec<&'a Row>, AllocError>
    ensures { IfOk result (λ kept. map (λ row. row.now) kept.items ≡ rule_rows (map
        (λ row. row.now) rows.now)) }
{
    let mut by_data = ByData::new(alloc);
    for row in rows {
        by_data.place(alloc, *row)?;
    }
    by_data.into_vec(alloc)
}
