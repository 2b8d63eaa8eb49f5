//! The rules of a zone, lent.

ghost use Rattle.std.specs.Prelude.{◌≡◌, map, IfOk};
ghost use Rattle.std.specs.List.Sorted.{IsStrictlySortedBy};
ghost use Rattle.std.specs.Map.{keys_of};
ghost use Rattle.std.specs.Option.{option_map};
ghost use Rattle.action_codec.specs.Seen.{action_seen};
ghost use Rattle.ip_prefix.specs.Prefix.{prefix_order};
ghost use Rattle.octet_trie.specs.Trie.{found_entry};
ghost use Rattle.prefix_index.specs.Longest.{longest};
ghost use Rattle.qname_index.specs.Best.{best};
ghost use Rattle.qname_index.specs.Trie.{IsNameTrie};
ghost use Rattle.zone_index.specs.ActingEntries.{StandsAt, StandsByKey, at_pattern, at_prefix, marked_if_rule, pattern_rules, prefix_rules};
ghost use Rattle.zone_index.specs.Addresses.{first_about as first_of};
ghost use Rattle.zone_index.specs.Kinds.{has_kind};
ghost use Rattle.zone_index.specs.Placed.{rules_in};

use crate::addresses::first_about;
use crate::indexed::IndexedRows;
use action_codec::ActionRef;
use dns_message::RecordRefs;
use dns_name::Name;
use ip_prefix::{Addr, Prefix};
use octet_trie::OctetFound;
use qname_index::{LookupName, PatternRef};
use std::alloc::{AllocError, Global};
use std::marker::Model;
use trie_keys::Marked;
use trigger_codec::Kind;

/// The rules of a zone (draft-vixie-dnsop-dns-rpz, sections 3 to 5), lent by the zone: what is done at each trigger. Contracts see
/// the rules of each kind of trigger, in order of precedence.
#[derive(Drop)]
pub struct Rules<'a> {
    rows: &'a IndexedRows,
}

impl<'a> Model for Rules<'a> {
    ghost use Rattle.zone_index.specs.Kinds.{PlainRules};
    ghost use Rattle.zone_index.specs.Placed.{rules_in};

    ghost Value = { PlainRules };

    ghost view = { λ r. rules_in r.rows.now };
}

impl<'a> Rules<'a> {
    // The rules of a zone of these rows.
    pub(crate) fn over(rows: &'a IndexedRows) -> Self
        ensures { result ≡ rules_in rows.now }
    {
        Rules { rows }
    }

    /// Whether there is a rule of this kind. It takes constant time.
    pub fn has(&self, kind: Kind) -> bool
        ensures { result ≡ has_kind self.now kind }
    {
        self.rows.has(kind)
    }

    /// The rule that comes first of those about a client of this address. This look-up, and the others, take no memory. Few zones have
    /// such rules, so it is first asked whether there are any.
    #[inline(always)]
    pub fn client_ip(&self, addr: Addr) -> Option<(Prefix, ActionRef<'a>)>
        ensures { option_map (λ e. (e.0, action_seen e.1)) result ≡ longest addr self.now.client_ip }
    {
        if !self.has(Kind::ClientIp) {
            return None;
        }
        self.rows.client_ip(addr)
    }

    /// The rule that comes first of those about a query for the name.
    pub fn qname(&self, name: &LookupName) -> Option<(PatternRef<'a>, ActionRef<'a>)>
        ensures { option_map (λ e. (e.0, action_seen e.1)) result ≡ best name.now self.now.qname }
    {
        self.rows.qname(name)
    }

    /// The rule that comes first of those about an answer: its prefix contains some address that the records hold
    /// for the name. Its time is linear in the number of records.
    #[inline(always)]
    pub fn response_ip(
        &self,
        owner: &Name,
        records: &RecordRefs<'_>,
    ) -> Option<(Prefix, ActionRef<'a>)>
        ensures { option_map (λ e. (e.0, action_seen e.1)) result
            ≡ first_of owner.now records.now self.now.response_ip }
    {
        if !self.has(Kind::ResponseIp) {
            return None;
        }
        first_about(self.rows, owner, records)
    }

    /// The rule that comes first of those about a name server of this name.
    pub fn nsdname(&self, name: &LookupName) -> Option<(PatternRef<'a>, ActionRef<'a>)>
        ensures { option_map (λ e. (e.0, action_seen e.1)) result ≡ best name.now self.now.nsdname }
    {
        self.rows.nsdname(name)
    }

    /// The rule that comes first of those about a name server of this address.
    pub fn nsip(&self, addr: Addr) -> Option<(Prefix, ActionRef<'a>)>
        ensures { option_map (λ e. (e.0, action_seen e.1)) result ≡ longest addr self.now.nsip }
    {
        self.rows.nsip(addr)
    }

    /// The keys of the patterns that have a rule of this kind ([`Kind::Qname`] or [`Kind::NsDname`]; no pattern has one of another), in
    /// the order of their octets, each with this value: entries of which a trie of several zones is made. The octets lie in the zone.
    /// Its time is linear in the number of entries of the kind.
    pub fn patterns_by_key<N: Copy + Drop>(
        &self,
        alloc: Global,
        kind: Kind,
        value: N,
    ) -> Result<Vec<OctetFound<'a, N, bool>>, AllocError>
        ensures keys { IfOk result (λ entries. IsNameTrie (map found_entry entries.items)) }
        ensures rules { IfOk result (λ entries. StandsByKey
            (λ p. marked_if_rule value (at_pattern (pattern_rules self.now kind) p)) (map found_entry entries.items)) }
    {
        self.rows.patterns_by_key(alloc, kind, value)
    }

    /// The prefixes that have a rule of this kind ([`Kind::ClientIp`], [`Kind::ResponseIp`] or [`Kind::NsIp`]; no prefix has one of
    /// another), in order of precedence, each with this value. Its time is that of sorting them.
    pub fn prefixes<N: Copy + Drop>(
        &self,
        alloc: Global,
        kind: Kind,
        value: N,
    ) -> Result<Vec<(Prefix, Marked<N, bool>)>, AllocError>
        ensures sorted { IfOk result (λ entries. IsStrictlySortedBy prefix_order (keys_of entries.items)) }
        ensures rules { IfOk result (λ entries. StandsAt
            (λ p. marked_if_rule value (at_prefix (prefix_rules self.now kind) p)) entries.items) }
    {
        self.rows.prefixes(alloc, kind, value)
    }
}
