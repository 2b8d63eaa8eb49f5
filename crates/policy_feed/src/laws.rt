//! A law of transfers that are read. The function is its clause, and does nothing.

ghost use Rattle.std.specs.Prelude.{◌≡◌, ℕ, Bool, List};
ghost use Rattle.zone_rows.specs.declared.fault.ApplyFault.{ApplyFault};
ghost use Rattle.zone_rows.specs.declared.zone.PlainZone.{PlainZone};
ghost use Rattle.ixfr_apply.specs.declared.refusal.Refusal.TheVariants as refusal;
ghost use Rattle.ixfr_apply.specs.Offer.{offer, refuses};
ghost use Rattle.policy_feed.specs.Laws.{IsAboutRows};

/// A zone that is asked for by its serial refuses a transfer that was read for its rows alone: the reader was told the
/// serial, so a whole transfer that it gives is newer, and steps begin at it.
pub fn a_transfer_that_is_read_fits_the_serial()
    ensures { (id : ℕ) (marked : Bool) (zone : PlainZone) (stream : List ℕ) (fault : ApplyFault) →
        offer id marked zone stream ≡ refuses (refusal.Apply fault) → IsAboutRows fault }
{}
