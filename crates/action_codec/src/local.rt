//! The rows that a rule answers with.

ghost use Rattle.std.specs.Prelude.{◌≡◌, List, [], ◌∷◌, ◌++◌, length, IfOk, OnOk, OnErr};
ghost use Rattle.dns_record.specs.Record.{IsData};
ghost use Rattle.action_codec.specs.Local.{local_row};

use crate::local_ref::LocalRef;
use dns_name::Octets;
use dns_record::Row;
use std::alloc::{AllocError, Global};
use std::marker::Model;

/// A record of class IN whose owner is the name that is answered for.
#[derive(Debug, Drop)]
pub struct LocalRow {
    rtype: u16,
    ttl: u32,
    rdata: Octets,
}

impl Model for LocalRow {
    ghost use Rattle.dns_record.specs.Record.{IsData};
    ghost use Rattle.action_codec.specs.Local.{PlainLocal};

    ghost Value = { PlainLocal };

    ghost view = { λ r. record { rtype = r.rtype; ttl = r.ttl; rdata = r.rdata } };

    ghost invariant = { λ r. IsData r.rtype 1 r.rdata };
}

impl LocalRow {
    /// The row without its owner.
    pub fn of(alloc: Global, row: &Row) -> Result<Self, AllocError>
        ensures { IfOk result (λ local. local ≡ local_row row.now) }
    {
        Ok(LocalRow {
            rtype: row.rtype(),
            ttl: row.ttl(),
            rdata: Octets::from_slice(alloc, row.rdata())?,
        })
    }

    /// The type: see [`dns_record::rtype`].
    pub fn rtype(&self) -> u16
        ensures { result ≡ self.now.rtype }
    {
        self.rtype
    }

    /// How many seconds the record may be kept.
    pub fn ttl(&self) -> u32
        ensures { result ≡ self.now.ttl }
    {
        self.ttl
    }

    /// The data, its names in full and in lower case; at most 65,535 bytes.
    pub fn rdata(&self) -> &[u8]
        ensures rdata { result.now ≡ self.now.rdata }
        ensures is_data { IsData self.now.rtype 1 self.now.rdata }
    {
        self.rdata.as_slice()
    }
}

/// The rows that a rule answers with, in order of type, then data. Contracts see the list.
#[derive(Debug, Drop)]
pub struct LocalRows {
    rows: Vec<LocalRow>,
}

impl Model for LocalRows {
    ghost use Rattle.std.specs.Prelude.{List};
    ghost use Rattle.action_codec.specs.Local.{PlainLocal};

    ghost Value = { List PlainLocal };

    ghost view = { λ r. r.rows.items };
}

impl LocalRows {
    /// No rows, with room for so many.
    pub(crate) fn with_capacity(alloc: Global, count: usize) -> Result<Self, AllocError>
        ensures { IfOk result (λ rows. rows ≡ []) }
    {
        Ok(LocalRows {
            rows: Vec::with_capacity(alloc, count)?,
        })
    }

    /// Puts the row at the end, without its owner.
    pub(crate) fn push(&mut self, alloc: Global, row: &Row) -> Result<(), AllocError>
        ensures { OnOk result (self.new ≡ self.old ++ local_row row.now ∷ []) }
    {
        self.rows.push(LocalRow::of(alloc, row)?)?;
        Ok(())
    }

    /// The rows, lent.
    pub fn lend(&self) -> LocalRef<'_>
        ensures { result ≡ self.now }
    {
        LocalRef::over(&self.rows)
    }
}
