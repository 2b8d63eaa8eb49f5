//! What is asked for of a zone.

ghost use Rattle.std.specs.Prelude.{◌≡◌};
ghost use Rattle.ixfr_apply.specs.Offer.{wanted_by};
ghost use Rattle.ixfr_apply.specs.Offer as form;

use axfr_apply::Wanted;

/// What is asked for of a zone of this serial, if anything is loaded: what is newer than what is loaded; all of it where nothing
/// is, or where the zone is marked.
pub fn wanted(marked: bool, serial: Option<u32>) -> Wanted
    ensures { result ≡ wanted_by marked serial }
{
    match serial {
        None => Wanted::Whole { have: None },
        Some(serial) if marked => Wanted::Whole { have: Some(serial) },
        Some(serial) => Wanted::Newer { have: serial },
    }
}

/// Whether what is newer is wanted.
pub fn asks_newer(wanted: Wanted) -> bool
    ensures { result ≡ form.asks_newer wanted }
{
    match wanted {
        Wanted::Whole { .. } => false,
        Wanted::Newer { .. } => true,
    }
}
