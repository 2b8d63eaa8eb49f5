//! The line that ends a server's run.

ghost use Rattle.std.specs.Prelude.{◌≡◌, IfOk, string_bytes};
ghost use Rattle.rpz_program.specs.ServedLine.{served_line};

use std::alloc::{AllocError, Global};

/// The line that ends a run.
#[tactic(auto, unfolding(crate::specs::ServedLine::served_line))]
pub(crate) fn served_text(
    alloc: Global,
    turns: Option<u32>,
    replies: u64,
    silent: u64,
    memory: u64,
    failed: u64,
) -> Result<String, AllocError>
    ensures { IfOk result
        (λ text. string_bytes text ≡ served_line turns replies silent memory failed) }
{
    match turns {
        Some(turns) => format!(in alloc;
            "served {turns} reply {replies} silent {silent} memory {memory} failed {failed}\n"
        ),
        None => format!(in alloc;
            "served forever reply {replies} silent {silent} memory {memory} failed {failed}\n"
        ),
    }
}
