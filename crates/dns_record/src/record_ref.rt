//! A record that lies in octets of others.

ghost use Rattle.std.specs.Prelude.{◌≡◌, ◌++◌, length, take, OnOk};
ghost use Rattle.dns_name.specs.Wire.{IsWire, labels_in};
ghost use Rattle.dns_record.specs.Address.{address_in};
ghost use Rattle.dns_record.specs.Record.{IsData, record_octets};

use crate::number::{u32_at, u128_at};
use crate::record::field_octets;
use crate::{class, rtype};
use dns_name::{Labels, Octets};
use ip_prefix::Addr;
use std::alloc::AllocError;
use std::marker::Model;

/// A resource record whose owner and data lie in octets of others, the names in full. Contracts see its five parts.
#[derive(Debug, Drop)]
pub struct RecordRef<'a> {
    owner: &'a [u8],
    rtype: u16,
    class: u16,
    ttl: u32,
    rdata: &'a [u8],
}

impl<'a> Model for RecordRef<'a> {
    ghost use Rattle.dns_name.specs.Wire.{IsWire, labels_in};
    ghost use Rattle.dns_record.specs.Record.{IsData, PlainRecord};

    ghost Value = { PlainRecord };

    ghost view = { λ r. record {
      owner = labels_in r.owner.now;
      rtype = r.rtype;
      class = r.class;
      ttl = r.ttl;
      rdata = r.rdata.now;
    } };

    ghost invariant = { λ r. IsWire r.owner.now × IsData r.rtype r.class r.rdata.now };
}

impl<'a> RecordRef<'a> {
    /// A record of parts that fit each other.
    pub fn new(owner: &'a [u8], rtype: u16, class: u16, ttl: u32, rdata: &'a [u8]) -> Self
        requires owner { IsWire owner.now }
        requires data { IsData rtype class rdata.now }
        ensures { result
            ≡ record {
              owner = labels_in owner.now;
              rtype = rtype;
              class = class;
              ttl = ttl;
              rdata = rdata.now;
            } }
    {
        RecordRef {
            owner,
            rtype,
            class,
            ttl,
            rdata,
        }
    }

    /// The labels of the name that the record belongs to.
    pub fn owner(&self) -> Labels<'a>
        ensures { result ≡ self.now.owner }
    {
        Labels::new(self.owner)
    }

    /// The type: see [`crate::rtype`].
    pub fn rtype(&self) -> u16
        ensures { result ≡ self.now.rtype }
    {
        self.rtype
    }

    /// The class: see [`crate::class`].
    pub fn class(&self) -> u16
        ensures { result ≡ self.now.class }
    {
        self.class
    }

    /// How many seconds the record may be kept.
    pub fn ttl(&self) -> u32
        ensures { result ≡ self.now.ttl }
    {
        self.ttl
    }

    /// The data, with names in full; at most 65,535 bytes.
    pub fn rdata(&self) -> &'a [u8]
        ensures rdata { result.now ≡ self.now.rdata }
        ensures is_data { IsData self.now.rtype self.now.class self.now.rdata }
    {
        self.rdata
    }

    /// Writes the record with this TTL at the end, its names in full. An `Err` leaves what was written before, and maybe a part of
    /// the record behind it.
    #[tactic(auto, unfolding(crate::specs::Record::record_octets), using(crate::proofs::Writing::regrouped))]
    pub fn write_with_ttl(&self, out: &mut Octets, ttl: u32) -> Result<(), AllocError>
        ensures ok { OnOk result
            (out.new ≡ out.old ++ record_octets (record self.now { ttl = ttl })) }
        ensures begins { take (length out.old) out.new ≡ out.old }
    {
        out.append(self.owner)?;
        out.append(&field_octets(self.rtype, self.class, ttl, self.rdata.len() as u16))?;
        out.append(self.rdata)
    }

    /// The address that the record holds, if it is an A or AAAA record of class IN (RFC 1035, section 3.4.1;
    /// RFC 3596, section 2.2).
    #[tactic(auto, using(crate::proofs::Addresses::four_octets, crate::proofs::Addresses::sixteen_octets))]
    pub fn address(&self) -> Option<Addr>
        ensures { result ≡ address_in self.now }
    {
        if self.class != class::IN {
            return None;
        }
        match self.rtype {
            rtype::A => Some(Addr::V4(u32_at(self.rdata(), 0))),
            rtype::AAAA => Some(Addr::V6(u128_at(self.rdata(), 0))),
            _ => None,
        }
    }
}
