//! The types of rows that make rules.

ghost use Rattle.std.specs.Prelude.{◌≡◌};
ghost use Rattle.action_codec.specs.Action.{is_live_type as live_type};

use dns_record::rtype;

/// Whether rows of the type make rules: all but those that make a zone what it is (NS, SOA), DNAME, and
/// the types of DNSSEC (DS, RRSIG, NSEC, DNSKEY, NSEC3, NSEC3PARAM).
pub fn is_live_type(rtype: u16) -> bool
    ensures { result ≡ live_type rtype }
{
    !matches!(
        rtype,
        rtype::NS
            | rtype::SOA
            | rtype::DNAME
            | rtype::DS
            | rtype::RRSIG
            | rtype::NSEC
            | rtype::DNSKEY
            | rtype::NSEC3
            | rtype::NSEC3PARAM
    )
}
