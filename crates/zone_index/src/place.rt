//! Places of rows.

use dns_name::Pattern;
use trigger_codec::Trigger;

/// Where a row stands.
#[derive(Debug, Drop)]
pub enum Place {
    /// With the rows that make the rule of this trigger.
    Rule(Trigger),
    /// With the rows of this owner that make no rule. The pattern is exact.
    Other(Pattern),
}
