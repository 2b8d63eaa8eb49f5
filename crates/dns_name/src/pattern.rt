//! Patterns, which match one name, or all names below one (draft-vixie-dnsop-dns-rpz, section 4.2).

ghost use Rattle.std.specs.Prelude.{◌≡◌, IfOk};
ghost use Rattle.dns_name.specs.Labels.{IsName, lowered};
ghost use Rattle.dns_name.specs.Alike.{PlainPattern, matches};

use crate::name::Name;
use std::alloc::{AllocError, Global};
use std::marker::Model;

/// A base, in lower case: the pattern matches this name alone, or, where it is wild, all names
/// below it and not the base itself.
#[derive(Debug, Drop)]
pub struct Pattern {
    base: Name,
    wild: bool,
}

impl Model for Pattern {
    ghost use Rattle.std.specs.Prelude.{◌≡◌};
    ghost use Rattle.dns_name.specs.Labels.{IsName, lowered};
    ghost use Rattle.dns_name.specs.Alike.{PlainPattern};

    ghost Value = { PlainPattern };

    ghost view = { λ p. record { base = p.base; wild = p.wild } };

    ghost invariant = { λ p. IsName p.base × (lowered p.base ≡ p.base) };
}

impl Pattern {
    /// The pattern about the base, or, if it is `wild`, about what lies below it. The base is copied, in
    /// lower case.
    pub fn new(alloc: Global, base: &Name, wild: bool) -> Result<Pattern, AllocError>
        ensures exact { IfOk result (λ pattern. pattern
            ≡ record { base = lowered base.now; wild = wild }) }
        ensures lower { IfOk result (λ pattern. lowered pattern.base ≡ pattern.base) }
    {
        Ok(Pattern {
            base: base.lower(alloc)?,
            wild,
        })
    }

    /// The base, in lower case.
    pub fn base(&self) -> &Name
        ensures base { result.now ≡ self.now.base }
        ensures name { IsName result.now }
        ensures lower { lowered result.now ≡ result.now }
    {
        &self.base
    }

    /// Whether it is about the names below the base, and not about the base.
    pub fn is_wild(&self) -> bool
        ensures { result ≡ self.now.wild }
    {
        self.wild
    }

    /// Whether the pattern is about this name. The case of ASCII letters doesn't count. It takes no
    /// memory.
    pub fn matches(&self, name: &Name) -> bool
        ensures { result ≡ matches self.now name.now }
    {
        if self.wild {
            name.ends_with(&self.base) && !name.is_same(&self.base)
        } else {
            name.is_same(&self.base)
        }
    }
}
