//! The start of a zone of authority.

ghost use Rattle.std.specs.Prelude.{◌≡◌, IfOk};

use crate::number::push_u32;
use crate::record::Record;
use crate::{class, rtype};
use dns_name::{Name, Octets};
use std::alloc::{AllocError, Global};

/// What a SOA record says (RFC 1035, section 3.3.13). All times are in seconds.
#[derive(Debug)]
pub struct Soa {
    /// The name of the primary server.
    pub mname: Name,
    /// The mailbox of who is responsible.
    pub rname: Name,
    /// The number of the zone's version, which wraps (RFC 1982).
    pub serial: u32,
    pub refresh: u32,
    pub retry: u32,
    pub expire: u32,
    /// How long a negative answer may be kept (RFC 2308, section 4).
    pub minimum: u32,
    /// How long the record itself may be kept.
    pub ttl: u32,
}

// Written out, so that wherever one is dropped this is one call.
impl Drop for Soa {
    fn drop(self) {
        let Soa {
            mname: _,
            rname: _,
            serial: _,
            refresh: _,
            retry: _,
            expire: _,
            minimum: _,
            ttl: _,
        } = self;
    }
}

/// A copy is what the SOA says. It takes an allocation for each of the two names.
impl Clone for Soa {
    ghost is_clone = { λ soa copy. copy ≡ soa };

    fn clone(&self) -> Result<Soa, AllocError> {
        Ok(Soa {
            mname: self.mname.clone()?,
            rname: self.rname.clone()?,
            serial: self.serial,
            refresh: self.refresh,
            retry: self.retry,
            expire: self.expire,
            minimum: self.minimum,
            ttl: self.ttl,
        })
    }
}

impl Soa {
    ghost use Rattle.dns_record.specs.Record.{IsData};
    ghost use Rattle.dns_record.specs.Soa.{soa_octets, soa_record};

    /// The SOA record of this owner.
    pub fn record(&self, alloc: Global, owner: Name) -> Result<Record, AllocError>
        ensures { IfOk result (λ r. r ≡ soa_record owner self.now) }
    {
        let rdata = self.data(alloc)?;
        Ok(Record::new(owner, rtype::SOA, class::IN, self.ttl, rdata))
    }

    // The data of the record.
    #[tactic(auto, unfolding(crate::specs::Soa::soa_octets), using(crate::proofs::SoaLemmas::soa_is_data))]
    fn data(&self, alloc: Global) -> Result<Octets, AllocError>
        ensures octets { IfOk result (λ rdata. rdata ≡ soa_octets self.now) }
        ensures data { IfOk result (λ rdata. IsData 6 1 rdata) }
    {
        let size = self.mname.octets().len() + self.rname.octets().len() + 20;
        let mut rdata = Octets::with_capacity(alloc, size)?;
        self.mname.write(&mut rdata)?;
        self.rname.write(&mut rdata)?;
        push_u32(&mut rdata, self.serial)?;
        push_u32(&mut rdata, self.refresh)?;
        push_u32(&mut rdata, self.retry)?;
        push_u32(&mut rdata, self.expire)?;
        push_u32(&mut rdata, self.minimum)?;
        Ok(rdata)
    }
}
