//! The address that a record holds.

ghost use Rattle.std.specs.Prelude.{◌≡◌};
ghost use Rattle.dns_record.specs.Address.{address_in};

use crate::number::{u32_at, u128_at};
use crate::record::Record;
use crate::{class, rtype};
use ip_prefix::Addr;

impl Record {
    /// The address that the record holds, if it is an A or AAAA record of class IN (RFC 1035, section 3.4.1;
    /// RFC 3596, section 2.2).
    #[tactic(auto, using(crate::proofs::Addresses::four_octets, crate::proofs::Addresses::sixteen_octets))]
    pub fn address(&self) -> Option<Addr>
        ensures { result ≡ address_in self.now }
    {
        if self.class() != class::IN {
            return None;
        }
        match self.rtype() {
            rtype::A => Some(Addr::V4(u32_at(self.rdata(), 0))),
            rtype::AAAA => Some(Addr::V6(u128_at(self.rdata(), 0))),
            _ => None,
        }
    }
}
