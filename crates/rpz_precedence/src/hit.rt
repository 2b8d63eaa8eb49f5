//! A rule that is hit.

use crate::trigger_ref::TriggerRef;
use action_codec::ActionRef;
use dns_record::Record;

/// A rule that is hit: its rank, what it does, and the SOA record of its zone.
#[derive(Drop)]
pub struct Hit<'a> {
    /// The position in the chain of aliases at which it is hit: 0 is the name of the query.
    pub position: u32,
    /// The number of its policy zone, from 1 on.
    pub zone: u32,
    /// Its trigger.
    pub trigger: TriggerRef<'a>,
    /// What it does.
    pub action: ActionRef<'a>,
    /// The SOA record of its zone, whose owner is the zone's origin.
    pub soa: &'a Record,
}
