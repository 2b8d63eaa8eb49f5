//! A resource record.

ghost use Rattle.std.specs.Prelude.{◌≡◌, ℕ, List, ◌++◌, ◌<◌, ◌^◌, length, take, OnOk, OnErr, IfOk};
ghost use Rattle.dns_name.specs.Labels.{IsName};
ghost use Rattle.dns_record.specs.Number.{number_octets};
ghost use Rattle.dns_record.specs.Record.{IsData, IsRecord, record_octets};

use byteorder::{BigEndian, ByteOrder};
use dns_name::{Name, Octets};
use std::alloc::AllocError;
use std::marker::Model;

/// A resource record, whose data is such as its type and class have, with names in full. Contracts see
/// its five parts.
#[derive(Debug, Drop)]
pub struct Record {
    owner: Name,
    rtype: u16,
    class: u16,
    ttl: u32,
    rdata: Octets,
}

impl Model for Record {
    ghost use Rattle.dns_record.specs.Record.{PlainRecord, IsData};

    ghost Value = { PlainRecord };

    ghost view = { λ r. record {
      owner = r.owner;
      rtype = r.rtype;
      class = r.class;
      ttl = r.ttl;
      rdata = r.rdata;
    } };

    ghost invariant = { λ r. IsData r.rtype r.class r.rdata };
}

impl Record {
    /// A record of parts that fit each other.
    pub(crate) fn new(owner: Name, rtype: u16, class: u16, ttl: u32, rdata: Octets) -> Self
        requires { IsData rtype class rdata }
        ensures { result
            ≡ record { owner = owner; rtype = rtype; class = class; ttl = ttl; rdata = rdata } }
    {
        Record {
            owner,
            rtype,
            class,
            ttl,
            rdata,
        }
    }

    /// The name that the record belongs to.
    pub fn owner(&self) -> &Name
        ensures { result.now ≡ self.now.owner }
    {
        &self.owner
    }

    /// The type: see [`crate::rtype`].
    pub fn rtype(&self) -> u16
        ensures { result ≡ self.now.rtype }
    {
        self.rtype
    }

    /// The class: see [`crate::class`].
    pub fn class(&self) -> u16
        ensures { result ≡ self.now.class }
    {
        self.class
    }

    /// How many seconds the record may be kept.
    pub fn ttl(&self) -> u32
        ensures { result ≡ self.now.ttl }
    {
        self.ttl
    }

    /// The data, with names in full; at most 65,535 bytes.
    pub fn rdata(&self) -> &[u8]
        ensures rdata { result.now ≡ self.now.rdata }
        ensures is_data { IsData self.now.rtype self.now.class self.now.rdata }
    {
        self.rdata.as_slice()
    }

    /// Writes the record at the end, its names in full. An `Err` leaves what was written before.
    pub fn write(&self, out: &mut Octets) -> Result<(), AllocError>
        ensures ok { OnOk result (out.new ≡ out.old ++ record_octets self.now) }
        ensures err { OnErr result (out.new ≡ out.old) }
        ensures is_record { IsRecord self.now }
    {
        let before = out.len();
        let written = write_record(
            out,
            &self.owner,
            self.rtype,
            self.class,
            self.ttl,
            self.rdata.as_slice(),
        );
        if written.is_err() {
            out.truncate(before);
        }
        written
    }
}

/// Writes a record of these parts at the end, its name in full. The data is written as it is, and has fewer than
/// 65,536 bytes. An `Err` leaves what was written before, and maybe a part of the record behind it.
#[tactic(auto, unfolding(crate::specs::Record::record_octets), using(crate::proofs::Writing::regrouped))]
pub fn write_record(
    out: &mut Octets,
    owner: &Name,
    rtype: u16,
    class: u16,
    ttl: u32,
    rdata: &[u8],
) -> Result<(), AllocError>
    requires { length rdata.now < 2 ^ 16 }
    ensures ok { OnOk result (out.new
        ≡ out.old
        ++ record_octets (record {
          owner = owner.now;
          rtype = rtype;
          class = class;
          ttl = ttl;
          rdata = rdata.now;
        })) }
    ensures begins { take (length out.old) out.new ≡ out.old }
    ensures name { IsName owner.now }
{
    owner.write(out)?;
    out.append(&field_octets(rtype, class, ttl, rdata.len() as u16))?;
    out.append(rdata)
}

// What stands between the name and the data: the type, the class, the TTL and the length of the data.
pub(crate) fn field_octets(rtype: u16, class: u16, ttl: u32, len: u16) -> [u8; 10]
    ensures { result
        ≡ number_octets 2 rtype ++ number_octets 2 class ++ number_octets 4 ttl
        ++ number_octets 2 len }
{
    let mut octets = [0; 10];
    BigEndian::write_u16(&mut octets, rtype);
    BigEndian::write_u16(&mut octets[2..], class);
    BigEndian::write_u32(&mut octets[4..], ttl);
    BigEndian::write_u16(&mut octets[8..], len);
    octets
}
