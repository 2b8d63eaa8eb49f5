//! The trigger of a rule.

ghost use Rattle.std.specs.Prelude.{◌≡◌};
ghost use Rattle.trigger_codec.specs.Kind.{kind_of};

use ip_prefix::Prefix;
use qname_index::PatternRef;
use trigger_codec::Kind;

/// The trigger of a rule, where a pattern is lent by the index that has it.
#[derive(Drop)]
pub enum TriggerRef<'a> {
    /// The address of the client is in the prefix.
    ClientIp(Prefix),
    /// The name at the rank's position is of the pattern.
    Qname(PatternRef<'a>),
    /// An address of the response is in the prefix.
    ResponseIp(Prefix),
    /// The name of a name server is of the pattern.
    NsDname(PatternRef<'a>),
    /// The address of a name server is in the prefix.
    NsIp(Prefix),
}

impl<'a> TriggerRef<'a> {
    ghost use Rattle.rpz_precedence.specs.Seen.{trigger_seen};

    /// The kind of the trigger.
    pub fn kind(&self) -> Kind
        ensures { result ≡ kind_of (trigger_seen self.now) }
    {
        match self {
            TriggerRef::ClientIp(_) => Kind::ClientIp,
            TriggerRef::Qname(_) => Kind::Qname,
            TriggerRef::ResponseIp(_) => Kind::ResponseIp,
            TriggerRef::NsDname(_) => Kind::NsDname,
            TriggerRef::NsIp(_) => Kind::NsIp,
        }
    }
}
