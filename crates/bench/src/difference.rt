//! What differs between a zone and the plain list.

use zone_rows::ApplyError;

/// What differs between a zone and the plain list, which have taken the same transfers.
#[derive(Debug, Drop)]
pub enum Difference {
    /// Why they refuse the last one; `None` where it is taken.
    Outcome {
        zone: Option<ApplyError>,
        plain: Option<ApplyError>,
    },
    /// The serial; `None` where nothing is loaded.
    Serial {
        zone: Option<u32>,
        plain: Option<u32>,
    },
    /// The number of rows; `None` where nothing is loaded.
    Rows {
        zone: Option<usize>,
        plain: Option<usize>,
    },
    /// What the rule of this trigger does, or whether there is one.
    Rule {
        trigger: String,
    },
}
