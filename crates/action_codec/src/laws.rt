//! Laws of the rows of a rule. Each function is its clauses, and does nothing.

ghost use Rattle.std.specs.List.Sorted.{IsStrictlySortedBy};
ghost use Rattle.std.specs.Prelude.{◌≡◌, All, Contains, List};
ghost use Rattle.action_codec.specs.Action.{action_by};
ghost use Rattle.action_codec.specs.Laws.{HasOneFor, HaveOneTtl, HaveSameRows, data_order};
ghost use Rattle.action_codec.specs.Local.{rule_rows};
ghost use Rattle.trigger_codec.specs.declared.trigger.Trigger.{Trigger};
ghost use Rattle.dns_record.specs.Row.{IsRow, PlainRow};

use dns_record::laws::rows_of_one_identity_differ_in_the_ttl_alone;

/// The rows of a rule stand in order of type, then data, each of these once. They are some of its rows, and for
/// each row one is kept, of the same type and data, whose owner comes no later.
pub fn a_rule_keeps_one_row_of_each_data()
    ensures ordered { (rows : List PlainRow) → IsStrictlySortedBy data_order (rule_rows rows) }
    ensures contained { (rows : List PlainRow) (row : PlainRow) → Contains (rule_rows rows) row →
        Contains rows row }
    ensures each { (rows : List PlainRow) (row : PlainRow) → Contains rows row →
        HasOneFor (rule_rows rows) row }
{}

/// The rows of a rule and what they do are the same for lists that have the same rows, in whatever order, where
/// no two rows differ in the TTL alone.
pub fn the_order_of_rows_does_not_matter()
    ensures rows { (rows other : List PlainRow) → All IsRow rows → HaveOneTtl rows →
        HaveSameRows rows other → rule_rows rows ≡ rule_rows other }
    ensures action { (t : Trigger) (rows other : List PlainRow) → All IsRow rows →
        HaveOneTtl rows → HaveSameRows rows other → action_by t rows ≡ action_by t other }
{
    rows_of_one_identity_differ_in_the_ttl_alone();
}
