//! Which zones of a policy have rules of a kind of trigger, and which have a rule of a trigger, so that a query looks only into zones
//! that can match.
//!
//! `Zones` is a set of the numbers 1 to 64 in eight octets. There is a summary for each kind, a `NameSummary` or a `PrefixSummary`. It
//! has the zones with rules of the kind, and, once two zones have such rules, a trie with the zones of each trigger: the kind is
//! *listed*. With one zone no memory is spent. That a kind is listed is a flag, so that no proof counts bits.
//!
//! What a summary knows of a zone (specs/Knowing): the zone is among those of the kind if and only if it has a rule of the kind, and, in a
//! listed kind, among those of a trigger if and only if it has a rule of exactly this trigger. A query needs one half of that: a zone
//! that isn't given has no rule that fits. The other half takes rules out again.
//!
//! - Summaries know no overrides: a disabled zone stays in them, and a query passes over it. So an override needs no rebuild.
//! - A transfer changes one zone. It edits the summary, or, if it names more rows than a thirty-second of all zones' rows, lists it
//!   anew: a merge of two lists in order, with no sort. That bound was estimated.
//! - One pool of keys for 64 zones has the bounds that each zone has: 4 GiB of octets, 2^32 nodes. A transfer by which a kind would not
//!   fit is refused as out of memory.
//! - policy_snapshot never shares a summary between two versions that may be given up: each transfer makes a new `Arc`, and the old
//!   summary is kept beside the old zone (`OldZone`) until nobody else holds either.
//! - zone_index and this crate don't see each other: what crosses is a list of keys or prefixes with a value that is handed in.
#![tactic(auto)]

mod entries;
mod merging;
mod names;
mod prefix_entries;
mod prefixes;
mod zones;

pub use merging::{merged, merged_prefixes};
pub use names::NameSummary;
pub use prefixes::PrefixSummary;
pub use zones::Zones;
