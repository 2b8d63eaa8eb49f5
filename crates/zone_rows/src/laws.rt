//! Laws of rows. Each function is its clauses, and does nothing.

ghost use Rattle.std.specs.Prelude.{◌≡◌, ◌↔◌, ℕ, List, ◌++◌, not, filter, Contains, IsTrue, Ok};
ghost use Rattle.dns_record.specs.Row.{PlainRow, AreAlike};
ghost use Rattle.zone_rows.specs.declared.transfer.Transfer.{Transfer};
ghost use Rattle.zone_rows.specs.declared.transfer.Transfer.TheVariants.{Steps};
ghost use Rattle.zone_rows.specs.declared.zone.PlainZone.{PlainZone};
ghost use Rattle.zone_rows.specs.Distinct.{AreDistinct, BeginsDistinct, HasDistinctRows, IsFirst, Precedes};
ghost use Rattle.zone_rows.specs.Repeats.{has_row, without_repeats};
ghost use Rattle.zone_rows.specs.Steps.{PlainStep, rows_after_step};
ghost use Rattle.zone_rows.specs.Zone.{apply_outcome};

/// Rows without repeats are the first row of each identity, in the order of the list.
pub fn without_repeats_stand_the_first_rows()
    ensures distinct { (rows : List PlainRow) → AreDistinct (without_repeats rows) }
    ensures firsts { (rows : List PlainRow) (row : PlainRow) →
        Contains (without_repeats rows) row ↔ IsFirst rows row }
    ensures ordered { (rows : List PlainRow) (row other : PlainRow) →
        Precedes (without_repeats rows) row other → Precedes rows row other }
{}

/// Of rows of which no two have one identity, no two differ in the TTL alone.
pub fn distinct_rows_do_not_differ_in_the_ttl_alone()
    ensures { (rows : List PlainRow) (row other : PlainRow) → AreDistinct rows →
        Contains rows row → Contains rows other → AreAlike row other → row ≡ other }
{}

/// No two rows of a zone that took a transfer have one identity; after steps, if none had before.
pub fn a_zone_has_distinct_rows()
    ensures { (zone after : PlainZone) (transfer : Transfer) → BeginsDistinct zone transfer →
        apply_outcome zone transfer ≡ Ok after → HasDistinctRows after }
{}

/// After a step stand the rows of which it takes out none of the same owner, type and data, in their order, and behind them
/// the rows that it puts in. Each row that it takes out was there.
pub fn a_step_takes_rows_out_and_puts_rows_in()
    ensures rows { (bound number : ℕ) (rows after : List PlainRow) (step : PlainStep) →
        rows_after_step bound number rows step ≡ Ok after →
        after ≡ filter (λ row. not (has_row step.deleted row)) rows ++ step.added }
    ensures deleted { (bound number : ℕ) (rows after : List PlainRow) (step : PlainStep)
        (row : PlainRow) →
        rows_after_step bound number rows step ≡ Ok after →
        Contains step.deleted row → IsTrue (has_row rows row) }
{}

/// A zone that took steps, and then others, is the zone that took all of them at once.
pub fn steps_are_taken_one_after_another()
    ensures { (zone between after : PlainZone) (first second : List PlainStep) →
        apply_outcome zone (Steps first) ≡ Ok between →
        apply_outcome between (Steps second) ≡ Ok after →
        apply_outcome zone (Steps (first ++ second)) ≡ Ok after }
{}
