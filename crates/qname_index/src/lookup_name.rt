//! A name that is looked up in tries.

ghost use Rattle.std.specs.Prelude.{◌≡◌, []};
ghost use Rattle.dns_name.specs.Labels.{lowered};
ghost use Rattle.qname_index.specs.Key.{name_key};

use crate::key::Key;
use dns_name::Name;
use std::marker::Model;

/// A name in lower case, as the octets by which tries look it up, so that these are made once for many look-ups. Contracts see the
/// name. It lies on the stack.
#[derive(Drop)]
pub struct LookupName {
    key: Key,
}

impl Model for LookupName {
    ghost use Rattle.dns_name.specs.Labels.{Name};
    ghost use Rattle.qname_index.specs.Lookup.{IsLookup};
    ghost use Rattle.qname_index.specs.Patterns.{name_in};

    ghost Value = { Name };

    ghost view = { λ l. name_in l.key };

    ghost invariant = { λ l. IsLookup (name_in l.key) l.key };
}

impl LookupName {
    /// The name, which is in lower case ([`Name::lower`]). It takes no memory.
    pub fn of(name: &Name) -> Self
        requires { lowered name.now ≡ name.now }
        ensures { result ≡ name.now }
    {
        LookupName { key: Key::of(name) }
    }

    /// The root. It takes no memory.
    #[inline(always)]
    pub fn root() -> Self
        ensures { result ≡ [] }
    {
        LookupName { key: Key::root() }
    }

    /// Makes it this name in lower case, however it is written. It is made where it lies, since a copy costs as much as a short look-up.
    #[inline(always)]
    pub fn set_lower(&mut self, name: &Name)
        ensures { self.new ≡ lowered name.now }
    {
        self.key.put_lower(name);
    }

    // The octets by which it is looked up.
    pub(crate) fn octets(&self) -> &[u8]
        ensures key { result.now ≡ name_key self.now }
        ensures lower { lowered self.now ≡ self.now }
    {
        self.key.as_slice()
    }
}
