//! Connections.

ghost use Rattle.std.specs.Prelude.{◌≡◌, ◌≤◌, Err, OnOk, OnErr};
ghost use Rattle.edge_io.specs.Edge.{Rose, WritesPrefix, appended};
ghost use Rattle.rpz_workers.specs.Connections.{CutsReply, ServesConnection, WritesReply, connection_state, fault_counts, reply_frame};
ghost use Rattle.rpz_workers.specs.Passing.{IsShortOutcome};
ghost use Rattle.rpz_workers.specs.Replying.{to_send};

use crate::asks::Asks;
use crate::bare_reply::bare_reply;
use crate::item::Job;
use crate::onward::Onward;
use crate::outcome::Outcome;
use crate::worker::Worker;
use answer_cache::Keeps;
use dns_name::Octets;
use edge_io::{
    CONNECTION_MESSAGES, Clock, FrameError, FrameFault, Link, Sink, SinkError, Source, read_frame,
    write_frame,
};
use ip_prefix::Transport;
use policy_publish::StoreName;
use reply_build::Said;
use server_io::{Peer, StreamEnd};

/// How many messages of a connection are answered. Behind them it ends.
pub const FRAME_LIMIT: u32 = CONNECTION_MESSAGES;

// Writes the reply to a message as a frame, where there is one.
fn write_reply<K: Sink>(sink: &mut K, message: &[u8], what: &Outcome) -> Result<(), SinkError>
    requires { IsShortOutcome what.now }
    ensures ok { OnOk result (K.held sink.new
        ≡ appended (K.held sink.old) (reply_frame (to_send message.now what.now))) }
    ensures err { OnErr result
        (WritesPrefix (reply_frame (to_send message.now what.now)) (K.held sink.old)
        (K.held sink.new)) }
    ensures count { K.faults sink.old ≤ K.faults sink.new }
    ensures failed { result ≡ Err SinkError.WriteFault →
        Rose (K.faults sink.old) (K.faults sink.new) }
{
    match what {
        Outcome::Said(Said::Reply(bytes)) => write_frame(sink, bytes.as_slice()),
        Outcome::Said(Said::Silent) | Outcome::PassedOn => Ok(()),
        Outcome::NoMemory => match bare_reply(message) {
            Some(bytes) => write_frame(sink, &bytes),
            None => Ok(()),
        },
    }
}

impl<N: StoreName, L: Link + Drop, A: Keeps<L> + Drop, B: Asks<L> + Drop> Worker<N, L, A, B> {
    // Answers a message of a connection, or passes it on.
    fn answer_message<K: Sink, C: Clock, O: Onward<N>>(
        &mut self,
        message: Octets,
        client: Peer,
        sink: &mut K,
        clock: &mut C,
        onward: &mut O,
    ) -> Result<(), SinkError>
        ensures ok { OnOk result
            (WritesReply N.store L.gave B.passes_on client message self.old self.new
            (C.moments clock.old) (C.moments clock.new) (O.passed onward.old)
            (O.passed onward.new) (K.held sink.old) (K.held sink.new)) }
        ensures err { OnErr result
            (CutsReply N.store L.gave B.passes_on client message self.old self.new
            (C.moments clock.old) (C.moments clock.new) (O.passed onward.old)
            (O.passed onward.new) (K.held sink.old) (K.held sink.new)) }
        ensures count { K.faults sink.old ≤ K.faults sink.new }
        ensures failed { result ≡ Err SinkError.WriteFault →
            Rose (K.faults sink.old) (K.faults sink.new) }
    {
        let job = Job {
            peer: client,
            transport: Transport::Tcp,
            message,
        };
        let now = clock.now();
        let what = self.settle(&job, now, onward);
        write_reply(sink, job.message.as_slice(), &what)
    }

    /// Serves a connection of a client: each message is answered over TCP, or passed on, at the second that the clock gives for it.
    /// Where there is no reply here, nothing is written, and the next message follows. `OutOfMemory` comes only where reading a
    /// message or writing a reply found no memory.
    pub fn serve_stream<S: Source, K: Sink, C: Clock, O: Onward<N>>(
        &mut self,
        source: &mut S,
        sink: &mut K,
        client: Peer,
        clock: &mut C,
        onward: &mut O,
    ) -> StreamEnd
        ensures { ServesConnection N.store L.gave B.passes_on client
            (fault_counts (S.faults source.old) (S.faults source.new)
            (K.faults sink.old) (K.faults sink.new))
            (connection_state self.old (C.moments clock.old) (O.passed onward.old)
            (S.left source.old) (K.held sink.old))
            result
            (connection_state self.new (C.moments clock.new) (O.passed onward.new)
            (S.left source.new) (K.held sink.new)) }
    {
        let alloc = self.alloc();
        for _ in 0..FRAME_LIMIT {
            match read_frame(alloc, source) {
                Ok(Some(message)) => {
                    match self.answer_message(message, client, sink, clock, onward) {
                        Ok(()) => {}
                        Err(SinkError::WriteFault) => return StreamEnd::WriteFault,
                        Err(SinkError::OutOfMemory) => return StreamEnd::OutOfMemory,
                    }
                }
                Ok(None) => return StreamEnd::End,
                Err(FrameError::OutOfMemory) => return StreamEnd::OutOfMemory,
                Err(FrameError::Fault(FrameFault::Cut)) => return StreamEnd::Cut,
                Err(FrameError::Fault(FrameFault::ReadFault)) => return StreamEnd::ReadFault,
            }
        }
        StreamEnd::Limit
    }
}
