//! Which rule decides at a position of the chain of aliases, and what must be asked before it is known.

ghost use Rattle.std.specs.Prelude.{◌≡◌, ℕ, List, ◌||◌, All, ◌∷◌, [], None, false, map, option_map, IfOk, IsTrue};
ghost use Rattle.dns_name.specs.Labels.{lowered};
ghost use Rattle.rpz_precedence.specs.Best.{best};
ghost use Rattle.rpz_precedence.specs.Seen.{hit_seen};
ghost use Rattle.trigger_codec.specs.declared.trigger.Kind.TheVariants as kinds;
ghost use Rattle.upstream_link.specs.Known.{AreInOrder, AreListsOf, HaveSameMembers};
ghost use Rattle.upstream_link.specs.Servers as names;
ghost use Rattle.upstream_link.specs.Question as questions;
ghost use Rattle.policy_snapshot.specs.Hits.{hits};
ghost use Rattle.policy_snapshot.specs.Lookup as form;
ghost use Rattle.policy_snapshot.specs.Next as next;
ghost use Rattle.policy_snapshot.specs.Next.{pending};
ghost use Rattle.policy_snapshot.specs.Rules.{rules};
ghost use Rattle.policy_snapshot.specs.Settled.{IsSettled};
ghost use Rattle.policy_snapshot.specs.Sight.{sight_seen};
ghost use Rattle.policy_snapshot.specs.Stands.{policy_in};

use crate::candidates::{a_zone_that_is_no_candidate_has_no_hit, candidates};
use crate::laws::nothing_unasked_could_matter;
use crate::overriding::{hit_under_override, ruled_hit};
use crate::questions::{is_known, unknown_address, unknown_owner};
use crate::sight::Sight;
use crate::snapshot::Snapshot;
use crate::summaries::having;
use dns_message::{Query, Question};
use dns_name::Name;
use dns_name::laws::case_does_not_matter;
use ip_prefix::Addr;
use qname_index::LookupName;
use rpz_precedence::Hit;
use rpz_precedence::laws::{
    an_index_is_in_order_of_precedence, the_best_hit_is_the_one_that_nothing_precedes,
    the_order_of_ranks_is_total,
};
use std::alloc::{AllocError, Global};
use trigger_codec::Kind;
use upstream_link::{Facts, ServerLists, known_servers, main_question, server_addresses};
use zone_index::laws::{a_rule_does_what_its_rows_do, an_index_has_the_rules_of_its_zone};

impl Snapshot {
    /// The hit that no other hit precedes at a position of the chain of aliases, where this name stands, by what is known. Its
    /// time is that of some look-ups in what is known of all zones together, and in each zone up to that of the hit that may have
    /// one; where some zone has rules about name servers, also that of looking at the known NS records of the name and those above
    /// it, and at the addresses of their targets.
    #[inline(always)]
    pub fn best(
        &self,
        alloc: Global,
        query: &Query,
        facts: &Facts,
        position: u32,
        name: &Name,
    ) -> Result<Option<Hit<'_>>, AllocError>
        ensures { IfOk result (λ hit. option_map hit_seen hit
            ≡ best (hits (rules (policy_in self.now)) query.now facts.now position name.now)) }
    {
        a_rule_does_what_its_rows_do();
        an_index_has_the_rules_of_its_zone();
        the_best_hit_is_the_one_that_nothing_precedes();
        the_order_of_ranks_is_total();
        an_index_is_in_order_of_precedence();
        case_does_not_matter();
        // called for its clause: the rows of the zones are rows
        let _zones = self.zones();
        let servers = self.servers_for_rules(alloc, facts, name)?;
        let addresses = self.addresses_for_rules(alloc, facts, &servers)?;
        let mut lower = LookupName::root();
        lower.set_lower(name);
        let sight = Sight {
            position,
            client: query.client,
            name,
            lower: &lower,
            records: facts.records(&query.question.name, query.question.qtype),
            servers: servers.as_slice(),
            addresses: addresses.as_slice(),
        };
        Ok(self.first_hit(&sight))
    }

    /// The question that must be asked at a position of the chain of aliases, where this name stands, before it is known which
    /// rule decides there; `hit` is the best hit there by what is known. `None` where nothing that isn't known could matter.
    #[inline(always)]
    pub fn pending(
        &self,
        alloc: Global,
        query: &Query,
        facts: &Facts,
        name: &Name,
        hit: &Option<Hit<'_>>,
    ) -> Result<Option<Question>, AllocError>
        ensures question { IfOk result (λ question. question
            ≡ pending (rules (policy_in self.now)) query.now facts.now name.now
            (option_map hit_seen hit.now)) }
        ensures settled { IfOk result (λ question. (position : ℕ) → question ≡ None →
            option_map hit_seen hit.now
            ≡ best (hits (rules (policy_in self.now)) query.now facts.now position name.now) →
            IsSettled (rules (policy_in self.now)) query.now facts.now position name.now) }
    {
        nothing_unasked_could_matter();
        // called for its clause: the rows of the zones are rows
        let _zones = self.zones();
        self.next_question(alloc, query, facts, name, hit)
    }

    // The question of `pending`.
    #[inline(always)]
    fn next_question(
        &self,
        alloc: Global,
        query: &Query,
        facts: &Facts,
        name: &Name,
        hit: &Option<Hit<'_>>,
    ) -> Result<Option<Question>, AllocError>
        ensures { IfOk result (λ question. question
            ≡ pending (rules (policy_in self.now)) query.now facts.now name.now
            (option_map hit_seen hit.now)) }
    {
        an_index_has_the_rules_of_its_zone();
        // called for its clause: the rows of the zones are rows
        let _zones = self.zones();
        let main = self.pending_answer(query, facts, hit)?;
        if main.is_some() {
            return Ok(main);
        }
        let owner = self.pending_servers(alloc, facts, name, hit)?;
        if owner.is_some() {
            return Ok(owner);
        }
        self.pending_addresses(alloc, facts, name, hit)
    }

    // The question of the query, if a rule that could decide needs its answer, which isn't known.
    fn pending_answer(
        &self,
        query: &Query,
        facts: &Facts,
        hit: &Option<Hit<'_>>,
    ) -> Result<Option<Question>, AllocError>
        ensures { IfOk result (λ question. question
            ≡ next.if_needed
            (form.zones_need self.now.overrides kinds.ResponseIp 1 (option_map hit_seen hit.now) self.now.zones)
            (next.first_unknown facts.now (questions.main_question query.now ∷ []))) }
    {
        if !self.needs(Kind::ResponseIp, hit)
            || is_known(facts, &query.question.name, query.question.qtype)
        {
            return Ok(None);
        }
        Ok(Some(main_question(query)?))
    }

    // The first NS question whose answer isn't known, if a rule that could decide needs the servers.
    fn pending_servers(
        &self,
        alloc: Global,
        facts: &Facts,
        name: &Name,
        hit: &Option<Hit<'_>>,
    ) -> Result<Option<Question>, AllocError>
        ensures { IfOk result (λ question. question ≡ next.if_needed
            (form.zones_need self.now.overrides kinds.NsDname 1 (option_map hit_seen hit.now) self.now.zones
            || form.zones_need self.now.overrides kinds.NsIp 1 (option_map hit_seen hit.now) self.now.zones)
            (next.first_unknown facts.now (next.server_questions name.now))) }
    {
        if self.needs(Kind::NsDname, hit) || self.needs(Kind::NsIp, hit) {
            unknown_owner(alloc, facts, name)
        } else {
            Ok(None)
        }
    }

    // The first question about an address of a server, if a rule that could decide needs these.
    fn pending_addresses(
        &self,
        alloc: Global,
        facts: &Facts,
        name: &Name,
        hit: &Option<Hit<'_>>,
    ) -> Result<Option<Question>, AllocError>
        ensures { IfOk result (λ question. question
            ≡ next.if_needed
            (form.zones_need self.now.overrides kinds.NsIp 1 (option_map hit_seen hit.now) self.now.zones)
            (next.unknown_address facts.now name.now)) }
    {
        if self.needs(Kind::NsIp, hit) {
            unknown_address(alloc, facts, name)
        } else {
            Ok(None)
        }
    }

    // The servers of the name, if some rule is about these or their addresses; none otherwise.
    fn servers_for_rules<'f>(
        &self,
        alloc: Global,
        facts: &'f Facts,
        name: &Name,
    ) -> Result<ServerLists<'f>, AllocError>
        ensures { IfOk result
            (λ lists. form.AreListsIf (form.zones_need self.now.overrides kinds.NsDname 1 None self.now.zones
            || form.zones_need self.now.overrides kinds.NsIp 1 None self.now.zones) lists
            (names.servers facts.now name.now)) }
    {
        if self.needs(Kind::NsDname, &None) || self.needs(Kind::NsIp, &None) {
            known_servers(alloc, facts, name)
        } else {
            Ok(ServerLists::new(alloc))
        }
    }

    // The addresses of these servers, if some rule is about these; none otherwise.
    fn addresses_for_rules(
        &self,
        alloc: Global,
        facts: &Facts,
        lists: &ServerLists<'_>,
    ) -> Result<Vec<Addr>, AllocError>
        ensures some { IfOk result
            (λ all. IsTrue (form.zones_need self.now.overrides kinds.NsIp 1 None self.now.zones) →
            (servers : List (List (List ℕ))) → AreListsOf lists.now servers →
            HaveSameMembers all.items (names.addresses_of facts.now servers)) }
        ensures none { IfOk result
            (λ all. form.zones_need self.now.overrides kinds.NsIp 1 None self.now.zones ≡ false → all.items ≡ []) }
    {
        if self.needs(Kind::NsIp, &None) {
            server_addresses(alloc, facts, lists)
        } else {
            Ok(Vec::new(alloc))
        }
    }

    // The best hit of the first zone that has one. Of one zone alone the summaries would tell no more than it does.
    #[inline(always)]
    fn first_hit(&self, sight: &Sight<'_>) -> Option<Hit<'_>>
        requires name { sight.now.lower.now ≡ lowered sight.now.name.now }
        requires servers { All AreInOrder (map (λ list. list.now) sight.now.servers.now) }
        ensures { option_map hit_seen result
            ≡ form.zones_hit self.now.overrides 1 (sight_seen sight.now) self.now.zones }
    {
        match self.zones() {
            [zone] => hit_under_override(self.overrides(), 1, zone, sight),
            _ => self.first_candidate_hit(sight),
        }
    }

    // The same by the summaries: zones that are no candidates aren't looked at.
    fn first_candidate_hit(&self, sight: &Sight<'_>) -> Option<Hit<'_>>
        requires name { sight.now.lower.now ≡ lowered sight.now.name.now }
        requires servers { All AreInOrder (map (λ list. list.now) sight.now.servers.now) }
        ensures { option_map hit_seen result
            ≡ form.zones_hit self.now.overrides 1 (sight_seen sight.now) self.now.zones }
    {
        a_zone_that_is_no_candidate_has_no_hit();
        let summaries = self.summaries();
        summaries.qname.in_order();
        summaries.nsdname.in_order();
        let all = self.zones();
        let overrides = self.overrides();
        let zones = candidates(summaries, sight);
        if zones.is_empty() {
            return None;
        }
        let mut number = 0;
        for zone in all {
            number += 1;
            let hit = ruled_hit(zones, overrides, number, zone, sight);
            if hit.is_some() {
                return hit;
            }
        }
        None
    }

    // Whether some zone that isn't disabled has rules of this kind that could decide in place of the hit.
    fn needs(&self, kind: Kind, hit: &Option<Hit<'_>>) -> bool
        ensures { result ≡ form.zones_need self.now.overrides kind 1 (option_map hit_seen hit.now) self.now.zones }
    {
        let all = self.zones();
        let zones = having(self.summaries(), kind);
        if zones.is_empty() {
            return false;
        }
        let mut number = 0;
        for _zone in all {
            number += 1;
            if zones.has(number) && self.could_rule(kind, number, hit) {
                return true;
            }
        }
        false
    }

    // Whether the zone of this number isn't disabled, and a rule of this kind in it could decide in place of the hit.
    fn could_rule(&self, kind: Kind, number: u32, hit: &Option<Hit<'_>>) -> bool
        ensures { result
            ≡ form.kind_could_rule self.now.overrides kind number (option_map hit_seen hit.now) }
    {
        self.overrides().at(number).is_ruling() && could_decide(kind, number, hit)
    }
}

// Whether a rule of this kind in the zone of this number could decide in place of the hit.
fn could_decide(kind: Kind, number: u32, hit: &Option<Hit<'_>>) -> bool
    ensures { result ≡ form.kind_could_decide kind number (option_map hit_seen hit.now) }
{
    match hit {
        None => true,
        Some(hit) => {
            number < hit.zone || number == hit.zone && kind.place() <= hit.trigger.kind().place()
        }
    }
}
