//! What the replies to all queries come to, and its line.

ghost use Rattle.std.specs.Prelude.{◌≡◌, IfOk};
ghost use Rattle.load_gen.specs.Summed.{summary_line};

use dns_name::Octets;
use std::alloc::{AllocError, Global};

/// What the replies to all queries of a load come to.
#[derive(Clone, Copy, Debug, PartialEq, Eq)]
pub struct Summary {
    /// How many rows the policy zone has.
    pub rows: u64,
    /// How many replies have the rcode 3.
    pub nxdomain: u64,
    /// How many replies have the rcode 0 and no answer.
    pub nodata: u64,
    /// How many other replies there are.
    pub other: u64,
    /// What the bytes of all replies come to, modulo 2^64.
    pub mark: u64,
}

/// The line of a summary, with its line feed.
pub fn write_summary(alloc: Global, summary: &Summary) -> Result<Octets, AllocError>
    ensures { IfOk result (λ line. line ≡ summary_line summary.now) }
{
    let Summary {
        rows,
        nxdomain,
        nodata,
        other,
        mark,
    } = *summary;
    let line = format!(in alloc;
        "rows {rows} nxdomain {nxdomain} nodata {nodata} other {other} mark {mark}\n"
    )?;
    Ok(Octets::from_vec(line.into_bytes()))
}
