//! A zone that a policy had.

use std::alloc::Global;
use std::sync::Arc;
use summary_index::{NameSummary, PrefixSummary};
use trigger_codec::ByKind;
use zone_index::Zone;

/// A handle on a zone of a policy, and on what was known of all its zones together, for whoever puts another zone in its place: a zone
/// of many rules takes long to give up, and by this handle that is done by who has the time, and not by the thread that happens to hold
/// the zone last. Contracts see nothing of it.
#[derive(Drop)]
pub struct OldZone {
    zone: Arc<Zone, Global>,
    summaries: Arc<ByKind<PrefixSummary, NameSummary>, Global>,
}

impl OldZone {
    /// The handle.
    pub(crate) fn of(
        zone: Arc<Zone, Global>,
        summaries: Arc<ByKind<PrefixSummary, NameSummary>, Global>,
    ) -> OldZone {
        OldZone { zone, summaries }
    }

    /// Whether others hold the zone, too, or what was known of all zones.
    pub fn is_held(&self) -> bool {
        Arc::strong_count(&self.zone) > 1 || Arc::strong_count(&self.summaries) > 1
    }
}
