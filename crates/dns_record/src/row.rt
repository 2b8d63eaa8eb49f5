//! Rows of zones.

ghost use Rattle.std.specs.Prelude.{◌≡◌, ◌++◌, length, take, IfOk, OnOk};
ghost use Rattle.dns_record.specs.Row.{IsRow, row_of, identity as row_identity};

use crate::lowering::lower_data;
use crate::number::push_u16;
use crate::record::Record;
use dns_name::{Name, Octets};
use std::alloc::{AllocError, Global};
use std::marker::Model;

/// A row of a zone: a record of class IN with its owner and the names of its data in lower case.
/// Contracts see its four parts.
#[derive(Debug, Drop)]
pub struct Row {
    owner: Name,
    rtype: u16,
    ttl: u32,
    rdata: Vec<u8>,
}

impl Model for Row {
    ghost use Rattle.dns_record.specs.Row.{PlainRow, IsRow};

    ghost Value = { PlainRow };

    ghost view = { λ r.
        record { owner = r.owner; rtype = r.rtype; ttl = r.ttl; rdata = r.rdata.items } };

    ghost invariant = { λ r. IsRow
        (record { owner = r.owner; rtype = r.rtype; ttl = r.ttl; rdata = r.rdata.items }) };
}

/// A copy is the row. It takes an allocation each for the owner and the data.
impl Clone for Row {
    ghost is_clone = { λ row copy. copy ≡ row };

    fn clone(&self) -> Result<Row, AllocError> {
        Ok(Row {
            owner: self.owner.clone()?,
            rtype: self.rtype,
            ttl: self.ttl,
            rdata: self.rdata.clone()?,
        })
    }
}

impl Row {
    /// The record as a row.
    pub fn of(alloc: Global, rr: &Record) -> Result<Self, AllocError>
        requires { rr.now.class ≡ 1 }
        ensures row { IfOk result (λ row. row ≡ row_of rr.now) }
        ensures is_row { IfOk result IsRow }
    {
        let owner = rr.owner().lower(alloc)?;
        let rdata = lower_data(alloc, rr.rtype(), rr.rdata())?;
        Ok(Row {
            owner,
            rtype: rr.rtype(),
            ttl: rr.ttl(),
            rdata: rdata.into_vec(),
        })
    }

    /// The name that the row belongs to, in lower case.
    pub fn owner(&self) -> &Name
        ensures owner { result.now ≡ self.now.owner }
        ensures is_row { IsRow self.now }
    {
        &self.owner
    }

    /// The type: see [`rtype`](crate::rtype).
    pub fn rtype(&self) -> u16
        ensures { result ≡ self.now.rtype }
    {
        self.rtype
    }

    /// How many seconds the row may be kept.
    pub fn ttl(&self) -> u32
        ensures { result ≡ self.now.ttl }
    {
        self.ttl
    }

    /// The data, its names in full and in lower case; at most 65,535 bytes.
    pub fn rdata(&self) -> &[u8]
        ensures rdata { result.now ≡ self.now.rdata }
        ensures is_row { IsRow self.now }
    {
        self.rdata.as_slice()
    }

    /// The identity of the row: its owner, type and data, as they are written.
    pub fn identity(&self, alloc: Global) -> Result<Vec<u8>, AllocError>
        ensures { IfOk result (λ key. key.items ≡ row_identity self.now) }
    {
        let room = self.owner.octets().len() + 2 + self.rdata.len();
        let mut key = Octets::with_capacity(alloc, room)?;
        self.write_identity(&mut key)?;
        Ok(key.into_vec())
    }

    /// Writes the identity of the row at the end. An `Err` leaves what was written before, and maybe a part of the identity
    /// behind it.
    #[tactic(auto, unfolding(crate::specs::Row::identity), using(crate::proofs::Writing::joined_three))]
    pub fn write_identity(&self, out: &mut Octets) -> Result<(), AllocError>
        ensures ok { OnOk result (out.new ≡ out.old ++ row_identity self.now) }
        ensures begins { take (length out.old) out.new ≡ out.old }
    {
        out.append(self.owner.octets())?;
        push_u16(out, self.rtype)?;
        out.append(self.rdata.as_slice())
    }
}
