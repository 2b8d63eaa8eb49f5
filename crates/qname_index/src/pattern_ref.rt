//! A pattern that lies in octets of others.

ghost use Rattle.std.specs.Prelude.{◌≡◌, length, IfOk};
ghost use Rattle.dns_name.specs.Labels.{name_octets};
ghost use Rattle.dns_name.specs.Order.{canonical_order};
ghost use Rattle.octet_trie.specs.ListKeys.{entry_key};
ghost use Rattle.qname_index.specs.Best.{pattern_order};
ghost use Rattle.qname_index.specs.Patterns.{pattern_in};
ghost use Rattle.qname_index.specs.Ranked.{IsPatternKey};

use crate::key::Key;
use crate::order::compare_keys;
use dns_name::laws::a_name_is_read_where_it_stands;
use dns_name::{Name, NameError, Pattern};
use std::alloc::{AllocError, Global};
use std::cmp::Ordering;
use std::marker::Model;

/// A pattern in a trie, whose octets are lent. Contracts see the pattern; its base is a name in lower case.
#[derive(Drop)]
pub struct PatternRef<'a> {
    // the key of the base
    key: &'a [u8],
    wild: bool,
}

impl<'a> Model for PatternRef<'a> {
    ghost use Rattle.dns_name.specs.Alike.{PlainPattern};
    ghost use Rattle.octet_trie.specs.ListKeys.{entry_key};
    ghost use Rattle.qname_index.specs.Patterns.{pattern_in};
    ghost use Rattle.qname_index.specs.Ranked.{IsPatternKey};

    ghost Value = { PlainPattern };

    ghost view = { λ p. pattern_in (entry_key p.key.now p.wild) };

    ghost invariant = { λ p. IsPatternKey (entry_key p.key.now p.wild) };
}

impl<'a> PatternRef<'a> {
    // The pattern of an entry.
    pub(crate) fn new(key: &'a [u8], wild: bool) -> Self
        requires { IsPatternKey (entry_key key.now wild) }
        ensures { result ≡ pattern_in (entry_key key.now wild) }
    {
        PatternRef { key, wild }
    }

    /// Whether it is about the names below the base, and not about the base.
    pub fn is_wild(&self) -> bool
        ensures { result ≡ self.now.wild }
    {
        self.wild
    }

    /// How many labels the base has.
    pub fn label_count(&self) -> usize
        ensures { result ≡ length self.now.base }
    {
        let mut rest = self.key;
        let mut count = 0;
        while let Some((len, others)) = rest.split_first() {
            let (_label, behind) = others.split_at(usize::from(*len));
            rest = behind;
            count += 1;
        }
        count
    }

    /// The order of precedence of patterns that are about one name: the exact one, then that of the longer base
    /// (draft-vixie-dnsop-dns-rpz, section 5). It takes no memory, and its time is linear in the octets of the bases.
    pub fn rank_cmp(&self, other: &PatternRef<'_>) -> Ordering
        ensures { result ≡ pattern_order self.now other.now }
    {
        match self.is_wild().cmp(&other.is_wild()) {
            Ordering::Equal => match other.label_count().cmp(&self.label_count()) {
                Ordering::Equal => {
                    let mine = self.written_base();
                    let theirs = other.written_base();
                    mine.as_slice().cmp(theirs.as_slice())
                }
                order => order,
            },
            order => order,
        }
    }

    /// The canonical order of the bases (RFC 4034, section 6.1). It takes no memory.
    pub fn canonical_cmp(&self, other: &PatternRef<'_>) -> Ordering
        ensures { result ≡ canonical_order self.now.base other.now.base }
    {
        compare_keys(self.key, other.key)
    }

    /// A pattern of its own.
    pub fn to_pattern(&self, alloc: Global) -> Result<Pattern, AllocError>
        ensures { IfOk result (λ pattern. pattern ≡ self.now) }
    {
        a_name_is_read_where_it_stands();
        let written = Key::written(self.key);
        match Name::read(alloc, written.as_slice(), 0) {
            Ok((base, _)) => Pattern::new(alloc, &base, self.wild),
            Err(NameError::OutOfMemory) => Err(AllocError),
            Err(NameError::Fault(_)) => unreachable!(),
        }
    }

    // The base as it is written.
    fn written_base(&self) -> Key
        ensures { result ≡ name_octets self.now.base }
    {
        Key::written(self.key)
    }
}
