//! Laws of the rules of a zone. Each function is its clauses, and does nothing.

ghost use Rattle.std.specs.Prelude.{◌≡◌, ◌↔◌, ℕ, All, Contains, List, Some, IsTrue};
ghost use Rattle.action_codec.specs.Action.{action_by};
ghost use Rattle.action_codec.specs.declared.action.Action.{Action};
ghost use Rattle.action_codec.specs.Laws.{HaveOneTtl, HaveSameRows};
ghost use Rattle.dns_name.specs.Labels.{IsName, Name};
ghost use Rattle.trigger_codec.specs.Bases.{IsTrigger};
ghost use Rattle.trigger_codec.specs.declared.trigger.Trigger.{Trigger};
ghost use Rattle.zone_index.specs.Kinds.{PlainRules};
ghost use Rattle.zone_index.specs.Laws.{AreNamed, IsInOrder, rule_at};
ghost use Rattle.zone_index.specs.Listed.{is_of, is_same, rules_by_kind, rows_of, zone_rules};
ghost use Rattle.zone_index.specs.Rules.{live_trigger, rules_of};
ghost use Rattle.dns_record.specs.Row.{IsRow, PlainRow};

use action_codec::laws::the_order_of_rows_does_not_matter;
use dns_name::laws::{case_does_not_matter, names_of_equal_octets_are_equal};

/// What the rules of a zone do at a trigger is what the live rows of this trigger do, in the order of the zone,
/// and they have none for it where these do nothing. The rules stand in order of precedence, each trigger once.
/// There are no other rules of which this is true.
pub fn a_rule_does_what_its_rows_do()
    ensures at { (origin : Name) (rows : List PlainRow) (t : Trigger) →
        rule_at (rules_of origin rows) t ≡ action_by t (rows_of origin rows t) }
    ensures ordered { (origin : Name) (rows : List PlainRow) →
        IsInOrder (rules_of origin rows) }
    ensures named { (origin : Name) (rows : List PlainRow) → All IsRow rows →
        AreNamed (rules_of origin rows) }
    ensures only { (origin : Name) (rows : List PlainRow) (rules : PlainRules) →
        All IsRow rows → AreNamed rules → IsInOrder rules → ((t : Trigger) → IsTrigger t →
        rule_at rules t ≡ action_by t (rows_of origin rows t)) → rules ≡ rules_of origin rows }
{
    names_of_equal_octets_are_equal();
    case_does_not_matter();
}

/// Triggers of one kind of which neither comes before the other are the same, where the bases of their patterns
/// are names in lower case. So the rows of a trigger are those that are live with just this trigger.
pub fn triggers_of_one_place_are_equal()
    ensures same { (t u : Trigger) → IsTrigger t → IsTrigger u → IsTrue (is_same t u) ↔ (t ≡ u) }
    ensures row { (origin : Name) (row : PlainRow) (t : Trigger) → IsName row.owner →
        IsTrigger t → IsTrue (is_of t (live_trigger origin row)) ↔ (live_trigger origin row
        ≡ Some t) }
{
    names_of_equal_octets_are_equal();
    case_does_not_matter();
}

/// The rules of a zone are the same in whatever order it has its rows, where no two differ in the TTL alone.
pub fn the_order_of_a_zone_does_not_matter()
    ensures { (origin : Name) (rows other : List PlainRow) → All IsRow rows →
        HaveOneTtl rows → HaveSameRows rows other → rules_of origin rows ≡ rules_of origin other }
{
    names_of_equal_octets_are_equal();
    case_does_not_matter();
    the_order_of_rows_does_not_matter();
}

/// The entries of the index of a zone are the rules of the zone: those of its live rows that do something.
/// Rules of one trigger do the same, and the pattern of a trigger, if it has one, is of a name in lower case.
pub fn an_index_has_the_rules_of_its_zone()
    ensures listed { (origin : Name) (rows : List PlainRow) → All IsRow rows →
        (rule : Trigger × Action) →
        Contains (zone_rules origin rows) rule
        ↔ Contains (rules_by_kind (rules_of origin rows)) rule }
    ensures by_trigger { (origin : Name) (rows : List PlainRow) → All IsRow rows →
        (t : Trigger) (a b : Action) → Contains (zone_rules origin rows) (t, a) →
        Contains (zone_rules origin rows) (t, b) → a ≡ b }
    ensures named { (origin : Name) (rows : List PlainRow) → All IsRow rows →
        (rule : Trigger × Action) → Contains (zone_rules origin rows) rule → IsTrigger rule.0 }
{
    names_of_equal_octets_are_equal();
    case_does_not_matter();
}
