//! Triggers of rules.

ghost use Rattle.std.specs.Prelude.{◌≡◌};

use dns_name::Pattern;
use ip_prefix::Prefix;

/// The trigger of a rule of a policy zone (draft-vixie-dnsop-dns-rpz, section 4).
#[derive(Debug, Drop)]
pub enum Trigger {
    /// The address of the client is in the prefix (section 4.1).
    ClientIp(Prefix),
    /// The pattern matches the name that is asked for (section 4.2).
    Qname(Pattern),
    /// An address of the answer is in the prefix (section 4.3).
    ResponseIp(Prefix),
    /// The pattern matches the name of a name server of the answer (section 4.4).
    NsDname(Pattern),
    /// The address of a name server of the answer is in the prefix (section 4.5).
    NsIp(Prefix),
}

/// The kinds of triggers, in the order in which they come where several rules hold
/// (draft-vixie-dnsop-dns-rpz, section 5).
#[derive(Clone, Copy, Debug, PartialEq, Eq, PartialOrd, Ord)]
pub enum Kind {
    ClientIp,
    Qname,
    ResponseIp,
    NsDname,
    NsIp,
}

impl Kind {
    ghost use Rattle.trigger_codec.specs.Kind.{kind_place};

    /// The place of the kind in the order of precedence, from 0.
    pub fn place(self) -> u8
        ensures { result ≡ kind_place self }
    {
        match self {
            Kind::ClientIp => 0,
            Kind::Qname => 1,
            Kind::ResponseIp => 2,
            Kind::NsDname => 3,
            Kind::NsIp => 4,
        }
    }
}

impl Trigger {
    ghost use Rattle.trigger_codec.specs.Kind.{kind_of};

    /// The kind of the trigger.
    pub fn kind(&self) -> Kind
        ensures { result ≡ kind_of self.now }
    {
        match self {
            Trigger::ClientIp(_) => Kind::ClientIp,
            Trigger::Qname(_) => Kind::Qname,
            Trigger::ResponseIp(_) => Kind::ResponseIp,
            Trigger::NsDname(_) => Kind::NsDname,
            Trigger::NsIp(_) => Kind::NsIp,
        }
    }
}
