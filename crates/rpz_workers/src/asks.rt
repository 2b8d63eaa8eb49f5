//! What a worker asks by where its cache has no answer.

ghost use Rattle.std.specs.Prelude.{◌≤◌, ℕ, Bool, List, Option, IfOk};
ghost use Rattle.rpz_workers.specs.Asked.{AskedFor, ask_state};

use dns_message::Question;
use edge_io::Link;
use std::alloc::{AllocError, Global};
use upstream_link::Learned;

/// What asking for a question came to.
#[derive(Drop)]
pub enum Asked<L: Link> {
    /// The link gave this.
    Learned(Learned<L>),
    /// The link failed: its count of faults has risen in this call.
    Failed,
    /// Nobody was asked: the query is to be passed on.
    PassedOn,
}

/// What a worker asks by where no live entry of its cache answers a question: a link of the kind `L`, or nothing, so that the
/// worker passes on each query that needs the upstream.
pub trait Asks<L: Link> {
    /// It asks nobody.
    ghost passes_on: { Bool };

    /// The IDs of the messages that are still to be sent, in order, where they are known.
    ghost ids: { Self → Option (List ℕ) };

    /// How often its link has failed. It never falls, and stands still at 2^64 - 1.
    ghost faults: { Self → ℕ };

    /// Asks for the question at this second, in seconds, if it asks anybody.
    fn ask(&mut self, alloc: Global, question: &Question, now: u32) -> Result<Asked<L>, AllocError>
        ensures asked { IfOk result (λ asked. AskedFor passes_on now question.now asked
            (ask_state (ids self.old) (faults self.old))
            (ask_state (ids self.new) (faults self.new))) }
        ensures count { faults self.old ≤ faults self.new };
}
