//! A row that a list lends.

ghost use Rattle.std.specs.Prelude.{◌≡◌, ◌++◌, length, take, IfOk, OnOk};
ghost use Rattle.dns_name.specs.Labels.{name_octets};
ghost use Rattle.dns_record.specs.Record.{record_octets};
ghost use Rattle.dns_record.specs.Row.{IsRow, identity as row_identity};
ghost use Rattle.packed_lists.specs.RowsSeen.{seen};
ghost use Rattle.zone_rows.specs.Stored.{IsStored, plain_row, record_of};

use dns_name::Octets;
use dns_record::laws::a_record_is_read_where_it_stands;
use dns_record::number::push_u16;
use dns_record::{RecordError, RecordRef, Row, class, read_record};
use packed_lists::StoredRow;
use std::alloc::{AllocError, Global};
use std::marker::Model;

/// A row that a list lends: its octets lie in those of the list. Contracts see its four parts, as those of a [`Row`].
#[derive(Drop)]
pub struct RowRef<'a> {
    row: StoredRow<'a>,
}

impl<'a> Model for RowRef<'a> {
    ghost use Rattle.dns_record.specs.Row.{PlainRow};
    ghost use Rattle.packed_lists.specs.RowsSeen.{seen};
    ghost use Rattle.zone_rows.specs.Stored.{IsStored, plain_row};

    ghost Value = { PlainRow };

    ghost view = { λ r. plain_row (seen r.row) };

    ghost invariant = { λ r. IsStored (seen r.row) };
}

impl<'a> RowRef<'a> {
    /// The row that a list keeps so.
    pub fn new(row: StoredRow<'a>) -> Self
        requires { IsStored (seen row) }
        ensures { result ≡ plain_row (seen row.entry) }
    {
        RowRef { row }
    }

    /// The name that the row belongs to, in lower case, as it is written.
    pub fn owner(&self) -> &'a [u8]
        ensures owner { result.now ≡ name_octets self.now.owner }
        ensures is_row { IsRow self.now }
    {
        self.row.owner
    }

    /// The type: see [`rtype`](dns_record::rtype).
    pub fn rtype(&self) -> u16
        ensures { result ≡ self.now.rtype }
    {
        self.row.rtype
    }

    /// How many seconds the row may be kept.
    pub fn ttl(&self) -> u32
        ensures { result ≡ self.now.ttl }
    {
        self.row.ttl
    }

    /// The data, its names in full and in lower case; at most 65,535 bytes.
    pub fn rdata(&self) -> &'a [u8]
        ensures rdata { result.now ≡ self.now.rdata }
        ensures is_row { IsRow self.now }
    {
        self.row.rdata
    }

    /// The identity of the row: its owner, type and data, as they are written.
    pub fn identity(&self, alloc: Global) -> Result<Vec<u8>, AllocError>
        ensures { IfOk result (λ key. key.items ≡ row_identity self.now) }
    {
        let room = self.owner().len() + 2 + self.rdata().len();
        let mut key = Octets::with_capacity(alloc, room)?;
        self.write_identity(&mut key)?;
        Ok(key.into_vec())
    }

    /// Writes the identity of the row at the end. An `Err` leaves what was written before, and maybe a part of the identity
    /// behind it.
    #[tactic(auto, unfolding(dns_record::specs::Row::identity), using(crate::proofs::StoredRows::joined_three))]
    pub fn write_identity(&self, out: &mut Octets) -> Result<(), AllocError>
        ensures ok { OnOk result (out.new ≡ out.old ++ row_identity self.now) }
        ensures begins { take (length out.old) out.new ≡ out.old }
    {
        out.append(self.owner())?;
        push_u16(out, self.rtype())?;
        out.append(self.rdata())
    }

    /// A row of its own.
    pub fn to_row(&self, alloc: Global) -> Result<Row, AllocError>
        ensures { IfOk result (λ row. row ≡ self.now) }
    {
        a_record_is_read_where_it_stands();
        let written = self.written(alloc)?;
        match read_record(alloc, written.as_slice(), 0) {
            Ok((record_read, _)) => Row::of(alloc, &record_read),
            Err(RecordError::OutOfMemory) => Err(AllocError),
            Err(RecordError::Fault(_)) => unreachable!(),
        }
    }

    // The row as a record, as that is written.
    fn written(&self, alloc: Global) -> Result<Octets, AllocError>
        ensures octets { IfOk result (λ octets. octets ≡ record_octets (record_of self.now)) }
        ensures is_row { IsRow self.now }
    {
        let room = self.owner().len() + 10 + self.rdata().len();
        let mut out = Octets::with_capacity(alloc, room)?;
        let whole = RecordRef::new(
            self.row.owner,
            self.row.rtype,
            class::IN,
            self.row.ttl,
            self.row.rdata,
        );
        whole.write_with_ttl(&mut out, self.row.ttl)?;
        Ok(out)
    }
}
