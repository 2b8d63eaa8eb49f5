//! Look-ups among the rules of a zone.

ghost use Rattle.std.specs.Prelude.{◌≡◌, map, IfOk};
ghost use Rattle.std.specs.List.Sorted.{IsStrictlySortedBy};
ghost use Rattle.std.specs.Map.{keys_of};
ghost use Rattle.std.specs.Option.{option_map};
ghost use Rattle.action_codec.specs.Seen.{action_seen};
ghost use Rattle.ip_prefix.specs.Prefix.{prefix_order};
ghost use Rattle.prefix_index.specs.Longest.{longest};
ghost use Rattle.qname_index.specs.Best.{best};
ghost use Rattle.octet_trie.specs.Trie.{found_entry};
ghost use Rattle.qname_index.specs.Trie.{IsNameTrie};
ghost use Rattle.zone_index.specs.ActingEntries.{StandsAt, StandsByKey, at_pattern, at_prefix, marked_if_rule, pattern_rules, prefix_rules};
ghost use Rattle.zone_index.specs.Kinds.{has_kind};
ghost use Rattle.zone_index.specs.Laws.{rule_at};
ghost use Rattle.zone_index.specs.Placed.{rules_in};

use crate::indexed::IndexedRows;
use crate::lending::{lend, lend_found};
use action_codec::ActionRef;
use dns_name::laws::{case_does_not_matter, names_of_equal_octets_are_equal};
use ip_prefix::{Addr, Prefix};
use octet_trie::OctetFound;
use qname_index::{LookupName, PatternRef};
use std::alloc::{AllocError, Global};
use trie_keys::Marked;
use trigger_codec::{Kind, Trigger};

// No look-up takes memory. Some calls stand in these for their clauses alone.
impl IndexedRows {
    /// Whether there is a rule of this kind. It takes constant time.
    pub(crate) fn has(&self, kind: Kind) -> bool
        ensures { result ≡ has_kind (rules_in self.now) kind }
    {
        names_of_equal_octets_are_equal();
        case_does_not_matter();
        let _count = self.rows.len();
        self.index.in_order();
        self.index.has(kind)
    }

    /// What the rule of exactly this trigger does, if there is one.
    pub(crate) fn rule(&self, trigger: &Trigger) -> Option<ActionRef<'_>>
        ensures { option_map action_seen result ≡ rule_at (rules_in self.now) trigger.now }
    {
        names_of_equal_octets_are_equal();
        case_does_not_matter();
        let _count = self.rows.len();
        self.index.in_order();
        match self.index.rule(trigger) {
            None => None,
            Some(entry) => lend(&self.rows, entry),
        }
    }

    /// The rule that comes first of those about a client of this address.
    pub(crate) fn client_ip(&self, addr: Addr) -> Option<(Prefix, ActionRef<'_>)>
        ensures { option_map (λ e. (e.0, action_seen e.1)) result
            ≡ longest addr (rules_in self.now).client_ip }
    {
        names_of_equal_octets_are_equal();
        case_does_not_matter();
        let _count = self.rows.len();
        self.index.in_order();
        lend_found(&self.rows, self.index.client_ip(addr))
    }

    /// The rule that comes first of those about a query for the name.
    pub(crate) fn qname(&self, name: &LookupName) -> Option<(PatternRef<'_>, ActionRef<'_>)>
        ensures { option_map (λ e. (e.0, action_seen e.1)) result
            ≡ best name.now (rules_in self.now).qname }
    {
        names_of_equal_octets_are_equal();
        case_does_not_matter();
        let _count = self.rows.len();
        self.index.in_order();
        lend_found(&self.rows, self.index.qname(name))
    }

    /// The rule that comes first of those about this address in an answer.
    pub(crate) fn response_ip(&self, addr: Addr) -> Option<(Prefix, ActionRef<'_>)>
        ensures { option_map (λ e. (e.0, action_seen e.1)) result
            ≡ longest addr (rules_in self.now).response_ip }
    {
        names_of_equal_octets_are_equal();
        case_does_not_matter();
        let _count = self.rows.len();
        self.index.in_order();
        lend_found(&self.rows, self.index.response_ip(addr))
    }

    /// The rule that comes first of those about a name server of this name.
    pub(crate) fn nsdname(&self, name: &LookupName) -> Option<(PatternRef<'_>, ActionRef<'_>)>
        ensures { option_map (λ e. (e.0, action_seen e.1)) result
            ≡ best name.now (rules_in self.now).nsdname }
    {
        names_of_equal_octets_are_equal();
        case_does_not_matter();
        let _count = self.rows.len();
        self.index.in_order();
        lend_found(&self.rows, self.index.nsdname(name))
    }

    /// The rule that comes first of those about a name server of this address.
    pub(crate) fn nsip(&self, addr: Addr) -> Option<(Prefix, ActionRef<'_>)>
        ensures { option_map (λ e. (e.0, action_seen e.1)) result
            ≡ longest addr (rules_in self.now).nsip }
    {
        names_of_equal_octets_are_equal();
        case_does_not_matter();
        let _count = self.rows.len();
        self.index.in_order();
        lend_found(&self.rows, self.index.nsip(addr))
    }

    /// The keys of the patterns that have a rule of the kind, in the order of their octets, each with this value.
    pub(crate) fn patterns_by_key<N: Copy + Drop>(
        &self,
        alloc: Global,
        kind: Kind,
        value: N,
    ) -> Result<Vec<OctetFound<'_, N, bool>>, AllocError>
        ensures keys { IfOk result (λ entries. IsNameTrie (map found_entry entries.items)) }
        ensures rules { IfOk result (λ entries. StandsByKey
            (λ p. marked_if_rule value (at_pattern (pattern_rules (rules_in self.now) kind) p)) (map found_entry entries.items)) }
    {
        names_of_equal_octets_are_equal();
        case_does_not_matter();
        let _count = self.rows.len();
        self.index.in_order();
        self.index.patterns_by_key(alloc, kind, value)
    }

    /// The prefixes that have a rule of the kind, in order of precedence, each with this value.
    pub(crate) fn prefixes<N: Copy + Drop>(
        &self,
        alloc: Global,
        kind: Kind,
        value: N,
    ) -> Result<Vec<(Prefix, Marked<N, bool>)>, AllocError>
        ensures sorted { IfOk result (λ entries. IsStrictlySortedBy prefix_order (keys_of entries.items)) }
        ensures rules { IfOk result (λ entries. StandsAt
            (λ p. marked_if_rule value (at_prefix (prefix_rules (rules_in self.now) kind) p)) entries.items) }
    {
        names_of_equal_octets_are_equal();
        case_does_not_matter();
        let _count = self.rows.len();
        self.index.in_order();
        self.index.prefixes(alloc, kind, value)
    }
}
