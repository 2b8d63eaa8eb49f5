//! Questions to the upstream over TCP.

ghost use Rattle.std.specs.Prelude.{◌≡◌};

use crate::limits::UPSTREAM_ANSWER_SECONDS;
use crate::upstream_asker::{AskError, UpstreamAsker};
use dns_name::Octets;
use edge_io::{Deadline, FRAME_MAX, Link, LinkError};
use std::alloc::Global;
use std::net::{Net, TcpListener, TcpStream};
use std::sync::Wait;
use std::time;
use std::time::{Duration, Instant};

/// A link to the upstream. All links to one upstream share its connections, on each of which several questions may wait for their
/// answers, which come in any order (RFC 7766, sections 6.2.1.1 and 7). A question goes out as one frame (section 8), with an ID that
/// is random and free on its connection.
///
/// An exchange fails, and counts one fault, where no answer came within `UPSTREAM_ANSWER_SECONDS`, or at its deadline, if that is
/// earlier; where the upstream takes no connection, or closes it before the answer, and another one, too; where the same question was
/// not answered in time in the last `UPSTREAM_FAILURE_SECONDS`, nor since; once the wires have stopped; and for a question of fewer than two bytes
/// or more than `FRAME_MAX`.
#[derive(Drop)]
pub struct TcpLink<
    R: Net<Listener = TcpListener, Stream = TcpStream> + time::Clock + Wait + Copy + Drop,
> {
    asker: UpstreamAsker<R>,
    deadline: Option<Deadline>,
    faults: u64,
}

impl<R: Net<Listener = TcpListener, Stream = TcpStream> + time::Clock + Wait + Copy + Drop> TcpLink<
    R,
> {
    // A link that asks so. No exchange has failed yet.
    pub(crate) fn new(asker: UpstreamAsker<R>) -> Self
        ensures no_fault { ⟦<TcpLink<R> as Link>⟧.faults result ≡ 0 }
    {
        TcpLink {
            asker,
            deadline: None,
            faults: 0,
        }
    }

    // When an exchange has to end that begins now.
    fn end(&self, now: Instant) -> Option<Instant> {
        let latest = now.checked_add(Duration::from_secs(UPSTREAM_ANSWER_SECONDS))?;
        match &self.deadline {
            Some(deadline) => match deadline.end() {
                Some(end) if end < latest => Some(end),
                _ => Some(latest),
            },
            None => Some(latest),
        }
    }

    // One exchange.
    fn ask(&self, alloc: Global, sent: &[u8]) -> Result<Octets, LinkError> {
        let asker = &self.asker;
        let Ok(now) = Instant::now(&asker.rt) else {
            return Err(LinkError::Failed);
        };
        let Some(end) = self.end(now) else {
            return Err(LinkError::Failed);
        };
        let fits = 2 <= sent.len() && sent.len() <= FRAME_MAX;
        if !fits || asker.pool.has_failed(&asker.rt, sent, now) {
            return Err(LinkError::Failed);
        }
        match asker.ask(alloc, sent, now, end) {
            Ok(received) => Ok(received),
            Err(AskError::OutOfMemory) => Err(LinkError::OutOfMemory),
            Err(AskError::Failed | AskError::Late) => Err(LinkError::Failed),
        }
    }
}

impl<R: Net<Listener = TcpListener, Stream = TcpStream> + time::Clock + Wait + Copy + Drop> Link
    for TcpLink<R> {
    ghost gave = { λ _ _ _. Unit {0} };

    ghost faults = { λ l. l.faults };

    fn keep_to(&mut self, deadline: Deadline) {
        self.deadline = Some(deadline);
    }

    fn exchange(&mut self, alloc: Global, sent: &[u8], _now: u32) -> Result<Octets, LinkError> {
        if let Some(deadline) = &self.deadline {
            deadline.count_question();
        }
        match self.ask(alloc, sent) {
            Ok(received) => Ok(received),
            Err(LinkError::OutOfMemory) => Err(LinkError::OutOfMemory),
            Err(LinkError::Failed) => {
                self.faults = self.faults.saturating_add(1);
                Err(LinkError::Failed)
            }
        }
    }
}
