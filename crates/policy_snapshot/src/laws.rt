//! Laws of policies and the transfers that they take. Each function is its clauses, and does nothing.

ghost use Rattle.std.specs.Prelude.{◌≡◌, ◌↔◌, ℕ, ◌+◌, ◌-◌, ◌∷◌, [], ◌++◌, Contains, List, length, map, None, Option, Some, Ok, IsTrue, slice_set};
ghost use Rattle.dns_name.specs.Labels.{Name};
ghost use Rattle.zone_rows.specs.declared.transfer.Transfer.{Transfer};
ghost use Rattle.zone_rows.specs.declared.zone.PlainZone.{PlainZone};
ghost use Rattle.zone_rows.specs.Content.{unloaded};
ghost use Rattle.zone_rows.specs.Zone.{apply_outcome};
ghost use Rattle.dns_message.specs.declared.request.Query.{Query};
ghost use Rattle.rpz_precedence.specs.Best.{AreHits, IsBest, PlainHit, best};
ghost use Rattle.upstream_link.specs.Facts.{Extends, PlainFacts};
ghost use Rattle.policy_snapshot.specs.Hits.{hits};
ghost use Rattle.policy_snapshot.specs.Next.{next, pending};
ghost use Rattle.policy_snapshot.specs.declared.entry.Entry.{Entry};
ghost use Rattle.policy_snapshot.specs.Policy.{AreAccepted, PlainPolicy, zone_at, zones_behind};
ghost use Rattle.policy_snapshot.specs.Rules.{IsRuleOf, PlainRule, rules};
ghost use Rattle.policy_snapshot.specs.Settled.{is_settled};
ghost use Rattle.policy_snapshot.specs.Stands.{HaveRows, count_of, next_count};

use rpz_precedence::laws::{
    the_best_hit_is_the_one_that_nothing_precedes, the_order_of_ranks_is_total,
};
use upstream_link::laws::what_is_known_stays_known;
use zone_index::laws::an_index_has_the_rules_of_its_zone;

/// The zones of a policy after no transfer have nothing loaded; one more transfer that its zone takes changes this zone alone, and is
/// accepted behind accepted ones. The number of zones stays.
pub fn a_policy_takes_transfers_one_by_one()
    ensures first { (origins : List Name) →
        zones_behind origins [] ≡ map unloaded origins }
    ensures next { (origins : List Name) (entries : List Entry) (number : ℕ)
        (transfer : Transfer)
        (zone next : PlainZone) → zone_at (zones_behind origins entries) number ≡ Some zone →
        apply_outcome zone transfer ≡ Ok next →
        zones_behind origins (entries ++ record { zone = number; transfer = transfer } ∷ [])
        ≡ slice_set (zones_behind origins entries) (number - 1) next }
    ensures accepted { (origins : List Name) (entries : List Entry) (number : ℕ)
        (transfer : Transfer) (zone next : PlainZone) → AreAccepted origins entries →
        zone_at (zones_behind origins entries) number ≡ Some zone →
        apply_outcome zone transfer ≡ Ok next →
        AreAccepted origins (entries ++ record { zone = number; transfer = transfer } ∷ []) }
    ensures zones { (origins : List Name) (entries : List Entry) →
        length (zones_behind origins entries) ≡ length origins }
    ensures count { (n : ℕ) → next_count (count_of n) ≡ count_of (n + 1) }
{}

/// The rules of a policy are those of its zones that aren't disabled, each with its trigger and with the SOA record of its zone, and with
/// the action of the zone's override where that has one. So what is no rule of its zone, as inert rows aren't, is none under any override.
pub fn a_rule_is_one_of_its_zone_under_the_override()
    ensures { (policy : PlainPolicy) (rule : PlainRule) →
        Contains (rules policy) rule ↔ IsRuleOf policy rule }
{}

/// No two rules of a policy that are hit at a position of the chain of aliases are at one rank. So the rule that decides there is
/// the only one that is hit and that no other hit precedes; there is none only where nothing is hit.
pub fn no_two_hits_are_at_one_rank()
    ensures apart { (policy : PlainPolicy) (query : Query) (facts : PlainFacts) (position : ℕ)
        (name : Name) → HaveRows policy.zones →
        AreHits (hits (rules policy) query facts position name) }
    ensures decides { (policy : PlainPolicy) (query : Query) (facts : PlainFacts) (position : ℕ)
        (name : Name) (found : Option PlainHit) → HaveRows policy.zones →
        (found ≡ best (hits (rules policy) query facts position name))
        ↔ IsBest (hits (rules policy) query facts position name) found }
{
    an_index_has_the_rules_of_its_zone();
    the_best_hit_is_the_one_that_nothing_precedes();
}

/// Nothing that isn't known could matter. Where no question is pending at a position of the chain of aliases, the best hit there
/// is the same whatever facts come behind, and nothing is pending then either. Where what comes next for a query is no question,
/// it is the same whatever facts come behind.
pub fn nothing_unasked_could_matter()
    ensures best { (policy : PlainPolicy) (query : Query) (facts more : PlainFacts) (position : ℕ)
        (name : Name) → HaveRows policy.zones → Extends facts more →
        pending (rules policy) query facts name (best (hits (rules policy) query facts position name))
        ≡ None →
        best (hits (rules policy) query more position name)
        ≡ best (hits (rules policy) query facts position name) }
    ensures pending { (policy : PlainPolicy) (query : Query) (facts more : PlainFacts)
        (position : ℕ)
        (name : Name) → HaveRows policy.zones → Extends facts more →
        pending (rules policy) query facts name (best (hits (rules policy) query facts position name))
        ≡ None →
        pending (rules policy) query more name (best (hits (rules policy) query more position name))
        ≡ None }
    ensures next { (policy : PlainPolicy) (query : Query) (facts more : PlainFacts) →
        HaveRows policy.zones →
        Extends facts more → IsTrue (is_settled (next policy query facts)) →
        next policy query more ≡ next policy query facts }
{
    an_index_has_the_rules_of_its_zone();
    the_best_hit_is_the_one_that_nothing_precedes();
    the_order_of_ranks_is_total();
    what_is_known_stays_known();
}
