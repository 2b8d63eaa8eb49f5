//! Where a worker passes on the messages that need the upstream.

ghost use Rattle.std.specs.Prelude.{◌≡◌, List, Option};
ghost use Rattle.edge_io.specs.Told.{more_if_ok};
ghost use Rattle.rpz_workers.specs.Passed.{PlainPassed};

use crate::item::Job;
use dns_message::Question;
use policy_publish::{PolicyReader, StoreName};
use std::alloc::AllocError;

/// Where a worker passes on the messages that need the upstream, so that who asks it answers them.
///
/// Of a list in memory contracts know what was passed on, and not of one that threads share.
pub trait Onward<N: StoreName> {
    /// What was passed on, in order, where it is known. A message for which there was no room is not among it.
    ghost passed: { Self → Option (List PlainPassed) };

    /// Passes on a message that came at this second, in seconds, with the question that is to be asked first, and the list of
    /// transfers that the reader has seen, which whoever answers it learns first. It answers an error where there is no room.
    fn pass_on(
        &mut self,
        job: &Job,
        question: Question,
        now: u32,
        reader: &PolicyReader<N>,
    ) -> Result<(), AllocError>
        ensures { passed self.new ≡ more_if_ok (passed self.old) result
            (record { job = job.now; question = question; now = now; seen = reader.now.seen }) };
}
