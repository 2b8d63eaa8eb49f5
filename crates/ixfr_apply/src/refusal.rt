//! Why a transfer is refused.

use axfr_apply::TransferFault;
use zone_rows::ApplyFault;

/// Why a transfer is refused.
#[derive(Clone, Copy, Debug, PartialEq, Eq)]
pub enum Refusal {
    /// The stream has this fault.
    Transfer(TransferFault),
    /// The zone can't take what the stream has.
    Apply(ApplyFault),
}
