//! The load that a seed makes.

ghost use Rattle.std.specs.Prelude.{◌≡◌, ◌≤◌, IfOk};
ghost use Rattle.load_gen.specs.Made.{load_of};

use crate::draws::Draws;
use crate::load::{Load, MOST_QUERIES, MOST_RULES};
use crate::queries::first_queries;
use crate::rules::first_rules;
use std::alloc::{AllocError, Global};

/// So many rules of the zone `rpz.example`, and so many queries, from a seed.
pub fn make(alloc: Global, seed: u32, rules: u32, queries: u32) -> Result<Load, AllocError>
    requires few_rules { rules ≤ MOST_RULES }
    requires few_queries { queries ≤ MOST_QUERIES }
    ensures { IfOk result (λ load. load ≡ load_of seed rules queries) }
{
    let mut draws = Draws {
        state: u64::from(seed),
    };
    let rows = first_rules(alloc, &mut draws, rules)?;
    let all = first_queries(alloc, &mut draws, queries)?;
    Ok(Load::new(rows, all))
}
