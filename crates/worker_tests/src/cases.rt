//! Runs of a worker as data: what comes to it, and what it does. The messages are those of [`messages`](crate::messages).

use crate::messages::{
    ASKED, CUT_IN_LENGTH, CUT_IN_MESSAGE, DENIAL, DENIED, DROPPED, FAILURE, ONE_REPLY, REFUSAL,
    SHORT, THREE, TWO, TWO_REPLIES, UNSERVED,
};
use server_io::StreamEnd;

/// No call has this number in any run.
pub const NEVER: u64 = u64::MAX;

/// A connection of a client.
#[derive(Clone, Copy)]
pub struct Stream {
    pub bytes: &'static [u8],
    /// How often these bytes stand one behind another.
    pub times: usize,
    /// How many bytes a read gives and a write takes at most, but for one.
    pub most: usize,
    /// The number of the read that fails, and of the write.
    pub failing_read: u64,
    pub failing_write: u64,
}

/// What a worker takes.
#[derive(Clone, Copy)]
pub enum Input {
    /// A message over UDP, from this port of the client.
    Job(u16, &'static [u8]),
    Connection(Stream),
    /// The list of transfers that were published.
    Told,
    Stop,
}

/// A run of a worker.
#[derive(Clone, Copy)]
pub struct Case<'a> {
    pub name: &'static str,
    pub items: &'a [Input],
    /// The number of the send that fails.
    pub failing_send: u64,
    /// How many jobs the run had, and of these how many replies, how many without one, how many for which memory ran out, and how
    /// many sends that failed.
    pub report: [u64; 5],
    /// The replies that were sent, each to a port of the client.
    pub sent: &'a [(u16, &'static [u8])],
    /// How many connections were closed.
    pub closed: u64,
    /// Of the last of them: how it ended, what was written to it, and how many of its bytes were left.
    pub end: Option<StreamEnd>,
    pub written: &'static [u8],
    pub left: usize,
}

/// A connection without a byte, which gives and takes all at once and never fails.
pub const STREAM: Stream = Stream {
    bytes: b"",
    times: 1,
    most: 65_536,
    failing_read: NEVER,
    failing_write: NEVER,
};

/// Nothing comes.
pub const QUIET: Case<'static> = Case {
    name: "no items",
    items: &[],
    failing_send: NEVER,
    report: [0, 0, 0, 0, 0],
    sent: &[],
    closed: 0,
    end: None,
    written: b"",
    left: 0,
};

/// Every kind of item, with a send that fails.
pub const MIXED: Case<'static> = Case {
    name: "all kinds of items",
    items: &[
        Input::Job(1, DENIED),
        Input::Job(2, DROPPED),
        Input::Told,
        Input::Connection(Stream {
            bytes: TWO,
            ..STREAM
        }),
        Input::Job(3, UNSERVED),
    ],
    failing_send: 0,
    report: [3, 1, 1, 0, 1],
    sent: &[(3, REFUSAL)],
    closed: 1,
    end: Some(StreamEnd::End),
    written: TWO_REPLIES,
    left: 0,
};

/// The runs.
pub fn all_cases() -> &'static [Case<'static>] {
    &CASES
}

static CASES: [Case<'static>; 19] = [
    QUIET,
    Case {
        name: "a name that is denied",
        items: &[Input::Job(1, DENIED)],
        report: [1, 1, 0, 0, 0],
        sent: &[(1, DENIAL)],
        ..QUIET
    },
    Case {
        name: "a message that is too short",
        items: &[Input::Job(1, SHORT)],
        report: [1, 0, 1, 0, 0],
        ..QUIET
    },
    Case {
        name: "a name without a reply",
        items: &[Input::Job(1, DROPPED)],
        report: [1, 0, 1, 0, 0],
        ..QUIET
    },
    Case {
        name: "a link that fails",
        items: &[Input::Job(1, ASKED)],
        report: [1, 1, 0, 0, 0],
        sent: &[(1, FAILURE)],
        ..QUIET
    },
    Case {
        name: "a send that fails",
        items: &[Input::Job(1, DENIED)],
        failing_send: 0,
        report: [1, 0, 0, 0, 1],
        ..QUIET
    },
    Case {
        name: "a send behind one that fails",
        items: &[Input::Job(1, DENIED), Input::Job(2, UNSERVED)],
        failing_send: 0,
        report: [2, 1, 0, 0, 1],
        sent: &[(2, REFUSAL)],
        ..QUIET
    },
    Case {
        name: "jobs behind Stop",
        items: &[Input::Job(1, DENIED), Input::Stop, Input::Job(2, UNSERVED)],
        report: [1, 1, 0, 0, 0],
        sent: &[(1, DENIAL)],
        ..QUIET
    },
    Case {
        name: "a list between two jobs",
        items: &[Input::Job(1, DENIED), Input::Told, Input::Job(2, UNSERVED)],
        report: [2, 2, 0, 0, 0],
        sent: &[(1, DENIAL), (2, REFUSAL)],
        ..QUIET
    },
    Case {
        name: "a connection with one reply",
        items: &[Input::Connection(Stream {
            bytes: THREE,
            ..STREAM
        })],
        closed: 1,
        end: Some(StreamEnd::End),
        written: ONE_REPLY,
        ..QUIET
    },
    Case {
        name: "a connection, a byte a call",
        items: &[Input::Connection(Stream {
            bytes: THREE,
            most: 1,
            ..STREAM
        })],
        closed: 1,
        end: Some(StreamEnd::End),
        written: ONE_REPLY,
        ..QUIET
    },
    Case {
        name: "a connection without a byte",
        items: &[Input::Connection(STREAM)],
        closed: 1,
        end: Some(StreamEnd::End),
        ..QUIET
    },
    Case {
        name: "a connection that is cut in a length",
        items: &[Input::Connection(Stream {
            bytes: CUT_IN_LENGTH,
            ..STREAM
        })],
        closed: 1,
        end: Some(StreamEnd::Cut),
        written: ONE_REPLY,
        ..QUIET
    },
    Case {
        name: "a connection that is cut in a message",
        items: &[Input::Connection(Stream {
            bytes: CUT_IN_MESSAGE,
            ..STREAM
        })],
        closed: 1,
        end: Some(StreamEnd::Cut),
        written: ONE_REPLY,
        ..QUIET
    },
    Case {
        name: "4095 messages without a byte",
        items: &[Input::Connection(Stream {
            bytes: b"\0\0",
            times: 4_095,
            ..STREAM
        })],
        closed: 1,
        end: Some(StreamEnd::End),
        ..QUIET
    },
    Case {
        name: "4096 messages without a byte",
        items: &[Input::Connection(Stream {
            bytes: b"\0\0",
            times: 4_096,
            ..STREAM
        })],
        closed: 1,
        end: Some(StreamEnd::Limit),
        ..QUIET
    },
    Case {
        name: "4097 messages without a byte",
        items: &[Input::Connection(Stream {
            bytes: b"\0\0",
            times: 4_097,
            ..STREAM
        })],
        closed: 1,
        end: Some(StreamEnd::Limit),
        left: 2,
        ..QUIET
    },
    Case {
        name: "two connections",
        items: &[
            Input::Connection(Stream {
                bytes: THREE,
                ..STREAM
            }),
            Input::Connection(Stream {
                bytes: CUT_IN_LENGTH,
                ..STREAM
            }),
        ],
        closed: 2,
        end: Some(StreamEnd::Cut),
        written: ONE_REPLY,
        ..QUIET
    },
    MIXED,
];
