//! A domain name in one buffer.

ghost use Rattle.std.specs.Prelude.{◌≡◌, ℕ, List, [], ◌∷◌, ◌++◌, length, IfOk, OnOk, OnErr, IsTrue, ◌↔◌};
ghost use Rattle.dns_name.specs.Labels.{IsName, name_octets, lowered, EndsWith};
ghost use Rattle.dns_name.specs.Alike.{same_name, ends_with};
ghost use Rattle.dns_name.specs.Wire.{labels_in, IsWire};

use crate::alike::are_alike;
use crate::cursor::Labels;
use crate::octets::Octets;
use std::alloc::{AllocError, Global};
use std::marker::Model;

/// A domain name: labels of 1 to 63 bytes, which are written in at most 255 bytes with their length
/// bytes and the zero at the end (RFC 1035, sections 2.3.4 and 3.1). The letters of ASCII are kept as
/// they came, and compare without case.
///
/// It lies in memory as it is written, in one allocation.
#[derive(Clone, Debug, Drop)]
pub struct Name {
    wire: Vec<u8>,
}

impl Model for Name {
    ghost use Rattle.std.specs.Prelude.{ℕ, List};
    ghost use Rattle.dns_name.specs.Wire.{labels_in, IsWire};

    ghost Value = { List (List ℕ) };

    ghost view = { λ n. labels_in n.wire.items };

    ghost invariant = { λ n. IsWire n.wire.items };
}

impl Name {
    /// The name that is written so.
    pub(crate) fn from_wire(wire: Vec<u8>) -> Self
        requires { IsWire wire.items }
        ensures { result ≡ labels_in wire.items }
    {
        Name { wire }
    }

    /// The root, which has no label.
    pub fn root(alloc: Global) -> Result<Self, AllocError>
        ensures { IfOk result (λ name. name ≡ []) }
    {
        Ok(Name {
            wire: Vec::from_slice(alloc, &[0])?,
        })
    }

    /// The labels, from the first on.
    pub fn labels(&self) -> Labels<'_>
        ensures labels { result ≡ self.now }
        ensures name { IsName self.now }
    {
        Labels::new(&self.wire)
    }

    /// The name as it is written in a message, in full.
    pub fn octets(&self) -> &[u8]
        ensures octets { result.now ≡ name_octets self.now }
        ensures name { IsName self.now }
    {
        &self.wire
    }

    /// How many labels there are, the root's none not counted.
    pub fn label_count(&self) -> usize
        ensures count { result ≡ length self.now }
        ensures name { IsName self.now }
    {
        let mut labels = self.labels();
        let mut count = 0;
        while let Some(_label) = labels.next_label() {
            count += 1;
        }
        count
    }

    /// Writes the name in full at the end. An `Err` leaves what was written before.
    pub fn write(&self, out: &mut Octets) -> Result<(), AllocError>
        ensures ok { OnOk result (out.new ≡ out.old ++ name_octets self.now) }
        ensures err { OnErr result (out.new ≡ out.old) }
        ensures name { IsName self.now }
    {
        out.append(&self.wire)
    }

    /// The name in lower case: the capitals of ASCII alone are changed (RFC 4343, section 3).
    pub fn lower(&self, alloc: Global) -> Result<Name, AllocError>
        ensures lowered { IfOk result (λ name. name ≡ lowered self.now) }
        ensures name { IfOk result IsName }
    {
        let mut wire = Vec::from_slice(alloc, &self.wire)?;
        wire.make_ascii_lowercase();
        Ok(Name { wire })
    }

    /// Whether the names are alike. The case of ASCII letters doesn't count.
    pub fn is_same(&self, other: &Name) -> bool
        ensures letters { IsTrue result ↔ (lowered self.now ≡ lowered other.now) }
        ensures test { result ≡ same_name self.now other.now }
    {
        are_alike(self.octets(), other.octets())
    }

    /// Whether the name is the other or lies below it: its last labels are the other's. The case of
    /// ASCII letters doesn't count.
    pub fn ends_with(&self, other: &Name) -> bool
        ensures ends { IsTrue result ↔ EndsWith self.now other.now }
        ensures test { result ≡ ends_with self.now other.now }
    {
        let zone = other.octets();
        let mut labels = self.labels();
        while labels.octets().len() > zone.len() {
            let _label = labels.next_label();
        }
        are_alike(labels.octets(), zone)
    }
}
