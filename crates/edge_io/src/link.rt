// What a question is asked over, and a link in memory.
ghost use Rattle.std.specs.Prelude.{◌≡◌, ◌≤◌, ℕ, List, ⊤, Err, IfOk};
ghost use Rattle.edge_io.specs.Edge.{Rose};

use crate::{Deadline, Schedule};
use dns_name::Octets;
use std::alloc::Global;

/// Why nothing came back.
#[derive(Clone, Copy, Debug, PartialEq, Eq)]
pub enum LinkError {
    /// There was no room for what came. That is no fault: the link's count of faults stands still.
    OutOfMemory,
    /// A fault of the link, whose count of faults has risen in this call.
    Failed,
}

/// What a question is asked over: one message goes out, and one comes back.
pub trait Link {
    /// The link gave the second bytes for the first ones, at this second. It is a relation of the kind of link: code that
    /// doesn't know the kind has it from an exchange alone.
    ghost gave: { List ℕ → List ℕ → ℕ → Type 0 };

    /// How often an exchange has failed. It never falls, and stands still at 2^64 - 1.
    ghost faults: { Self → ℕ };

    /// From now on an exchange ends at the moment that this deadline gives at its start, at the latest: it fails then; and each one is
    /// counted there. Without this call, and where no moment is set, only the limits of the kind of link hold.
    fn keep_to(&mut self, deadline: Deadline)
        ensures count { faults self.new ≡ faults self.old };

    /// Sends the bytes, and gives what comes back. `now` is in seconds.
    fn exchange(&mut self, alloc: Global, sent: &[u8], now: u32) -> Result<Octets, LinkError>
        ensures given { IfOk result (λ received. gave sent.now received now) }
        ensures count { faults self.old ≤ faults self.new }
        ensures failed { result ≡ Err LinkError.Failed → Rose (faults self.old) (faults self.new) }
        ensures no_room { result ≡ Err LinkError.OutOfMemory → faults self.new ≡ faults self.old };
}

/// A link in memory: it gives a list of messages one after another, whatever is sent, and says nothing of what it gave.
/// It fails where it is told to, and where no message is left.
#[derive(Drop)]
pub struct ListLink {
    messages: Vec<Octets>,
    given: usize,
    schedule: Schedule,
}

impl ListLink {
    /// Gives these messages. The calls of the numbers in `failing` fail and take no message, and the first call is call 0.
    pub fn new(messages: Vec<Octets>, failing: Vec<u64>) -> Self
        ensures no_fault { ⟦<ListLink as Link>⟧.faults result ≡ 0 }
    {
        ListLink {
            messages,
            given: 0,
            schedule: Schedule::new(failing),
        }
    }
}

impl Link for ListLink {
    ghost gave = { λ sent received now. ⊤ };

    ghost faults = { λ link. link.schedule.faults };

    // it answers at once, and counts nothing
    fn keep_to(&mut self, _deadline: Deadline) {}

    fn exchange(&mut self, alloc: Global, _sent: &[u8], _now: u32) -> Result<Octets, LinkError> {
        if self.schedule.fails_now() {
            return Err(LinkError::Failed);
        }
        if self.given >= self.messages.len() {
            self.schedule.count_fault();
            return Err(LinkError::Failed);
        }
        match Octets::from_slice(alloc, self.messages[self.given].as_slice()) {
            Ok(message) => {
                self.given += 1;
                Ok(message)
            }
            Err(_) => Err(LinkError::OutOfMemory),
        }
    }
}
