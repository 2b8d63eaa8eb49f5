//! What is answered in a load run.

ghost use Rattle.std.specs.Prelude.{◌≡◌, All, ◌≤◌, length};
ghost use Rattle.load_gen.specs.Loads.{IsIn};

use dns_name::Octets;
use dns_record::Record;
use edge_io::{LOAD_QUERY_LIMIT, LOAD_RULE_LIMIT};
use ip_prefix::Addr;
use std::marker::Model;

/// The most rules of a load.
pub const MOST_RULES: u32 = LOAD_RULE_LIMIT;

/// The most queries of a load.
pub const MOST_QUERIES: u32 = LOAD_QUERY_LIMIT;

/// A query of a load, which comes over UDP.
#[derive(Debug, Drop)]
pub struct LoadQuery {
    /// The client that it comes from.
    pub client: Addr,
    /// The message.
    pub message: Octets,
}

/// The rows of one policy zone, all of class IN, and queries; at most [`MOST_RULES`] and [`MOST_QUERIES`] of them.
#[derive(Debug, Drop)]
pub struct Load {
    rows: Vec<Record>,
    queries: Vec<LoadQuery>,
}

impl Model for Load {
    ghost use Rattle.load_gen.specs.Loads.{IsLoad, PlainLoad};

    ghost Value = { PlainLoad };

    ghost view = { λ l. record { rows = l.rows.items; queries = l.queries.items } };

    ghost invariant = { λ l. IsLoad l.rows.items l.queries.items };
}

impl Load {
    ghost use Rattle.load_gen.specs.Loads.{IsLoad};

    /// A load of these parts.
    pub(crate) fn new(rows: Vec<Record>, queries: Vec<LoadQuery>) -> Self
        requires { IsLoad rows.items queries.items }
        ensures { result ≡ record { rows = rows.items; queries = queries.items } }
    {
        Load { rows, queries }
    }

    /// The rows of the policy zone.
    pub fn rows(&self) -> &[Record]
        ensures rows { result.now ≡ self.now.rows }
        ensures in_class { All IsIn self.now.rows }
        ensures few { length self.now.rows ≤ MOST_RULES }
    {
        self.rows.as_slice()
    }

    /// The queries, in order.
    pub fn queries(&self) -> &[LoadQuery]
        ensures queries { result.now ≡ self.now.queries }
        ensures few { length self.now.queries ≤ MOST_QUERIES }
    {
        self.queries.as_slice()
    }
}
