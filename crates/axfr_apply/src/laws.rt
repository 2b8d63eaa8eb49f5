//! Laws of the records of a transfer. Each function is its clauses, and does nothing.

ghost use Rattle.std.specs.Prelude.{◌≡◌, List, [], ◌∷◌, ◌++◌};
ghost use Rattle.dns_record.specs.Record.{PlainRecord};
ghost use Rattle.axfr_apply.specs.Block.{blocks};
ghost use Rattle.axfr_apply.specs.Gathered.{with_record};

/// One record more is a block more where it holds a SOA, and else a row of the last block, if there is one.
pub fn a_record_is_a_block_or_a_row()
    ensures { (rs : List PlainRecord) (r : PlainRecord) →
        blocks (rs ++ r ∷ []) ≡ with_record (blocks rs) r }
{}
