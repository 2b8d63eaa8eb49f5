//! One value for each kind of place.

use trigger_codec::ByKind;

/// What there is at all places: for the rules of each kind of trigger, and for the other rows by owner.
#[derive(Drop)]
pub struct Places<P, N> {
    /// For the rows that make rules.
    pub rules: ByKind<P, N>,
    /// For the rows that make none.
    pub other: N,
}
