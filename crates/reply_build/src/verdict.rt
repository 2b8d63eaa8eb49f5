//! Verdicts of the policy.

use action_codec::ActionRef;
use dns_name::Name;
use dns_record::Record;

/// What is decided of a query.
#[derive(Clone, Copy, Debug)]
pub enum Verdict<'a> {
    /// No rule is about it.
    Pass,
    /// There is no answer, whatever the upstream has.
    Fail,
    /// A rule is about it.
    Hit {
        /// What the rule does.
        action: &'a ActionRef<'a>,
        /// The SOA record of the rule's zone, with the zone's origin as its owner.
        soa: &'a Record,
        /// The names of the chain of aliases before the one at which the rule is hit.
        before: &'a [Name],
        /// The name at which the rule is hit: that of the query, or the target of an alias, as it is spelled there.
        name: &'a Name,
    },
}
