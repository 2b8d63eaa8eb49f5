//! Runs of a server as data: what comes, what fails, and what is expected (RFC 1035, section 4.1; RFC 5936; RFC 1995).

use rpz_program::status::Status;
use server_io::OrderEnd;

/// No call of this number comes.
pub const NEVER: u64 = u64::MAX;

/// What a wait gives: that a second has passed; a message of an order, behind its length; the end of an order; a NOTIFY of 127.0.0.N;
/// or that the wait fails.
pub enum Woken {
    Due,
    Frame(u64, &'static [u8]),
    Over(u64, OrderEnd),
    Notify(u8, &'static [u8]),
    Fails,
}

/// What comes at a wait: these datagrams, each so many times, and then this wake.
pub struct Moment {
    pub datagrams: &'static [&'static [u8]],
    pub times: usize,
    pub wake: Woken,
}

/// A run: its words, what comes at each wait, and what the upstream gives; the numbers of the bind, of the order and of the start that
/// fail; then how the run ends, what it writes, the replies, the transfers that were ordered, and what NOTIFYs were answered.
pub struct Case {
    pub name: &'static str,
    pub words: &'static str,
    pub moments: &'static [Moment],
    pub upstream: &'static [&'static [u8]],
    pub failing_bind: u64,
    pub failing_order: u64,
    pub failing_start: u64,
    pub status: Status,
    pub written: &'static [u8],
    pub replies: &'static [&'static [u8]],
    pub ordered: &'static [Asked],
    pub answered: &'static [&'static [u8]],
}

/// The port of a primary of which a transfer was ordered, and the request.
pub type Asked = (u16, &'static [u8]);

// Requests of the ID 0: for all of `rpz.example` and of `two.example` (RFC 5936, section 2.1), and for what is newer than the serial 1, with
// our SOA as authority (RFC 1995, section 3).
const ALL: Asked = (
    5301,
    b"\0\0\0\0\0\x01\0\0\0\0\0\0\x03rpz\x07example\0\0\xfc\0\x01",
);

const ALL_OF_TWO: Asked = (
    5302,
    b"\0\0\0\0\0\x01\0\0\0\0\0\0\x03two\x07example\0\0\xfc\0\x01",
);

const NEWER: Asked = (
    5301,
    b"\0\0\0\0\0\x01\0\0\0\x01\0\0\x03rpz\x07example\0\0\xfb\0\x01\x03rpz\x07example\0\0\x06\0\x01\0\0\0<\0\x16\0\0\0\0\0\x01\0\0\x0e\x10\0\0\x02X\0\x01Q\x80\0\0\0<",
);

const ONE_WORKER: &str =
    "serve --askers 2 127.0.0.1:5300 127.0.0.1:53 2 1 rpz.example@127.0.0.1:5301";

const HELD_BACK: &str =
    "serve --hold 0 --askers 2 127.0.0.1:5300 127.0.0.1:53 2 1 rpz.example@127.0.0.1:5301";

// The transfer of `rpz.example` in one message of the ID 0 behind its length: the serial 1, and the row `bad.example` CNAME `.`.
const TRANSFER: &[u8] = b"\0\x9b\0\0\x84\0\0\x01\0\x03\0\0\0\0\x03rpz\x07example\0\0\xfc\0\x01\
    \x03rpz\x07example\0\0\x06\0\x01\0\0\0<\0\x16\0\0\0\0\0\x01\0\0\x0e\x10\0\0\x02X\0\x01Q\x80\0\0\0<\
    \x03bad\x07example\x03rpz\x07example\0\0\x05\0\x01\0\0\0<\0\x01\0\
    \x03rpz\x07example\0\0\x06\0\x01\0\0\0<\0\x16\0\0\0\0\0\x01\0\0\x0e\x10\0\0\x02X\0\x01Q\x80\0\0\0<";

// The answer of the ID 0 that the serial 1 is the newest.
const CURRENT: &[u8] = b"\0\x4a\0\0\x84\0\0\x01\0\x01\0\0\0\0\x03rpz\x07example\0\0\xfb\0\x01\
    \x03rpz\x07example\0\0\x06\0\x01\0\0\0<\0\x16\0\0\0\0\0\x01\0\0\x0e\x10\0\0\x02X\0\x01Q\x80\0\0\0<";

// Eleven bytes, one fewer than a header has.
const SHORT: &[u8] = b"\x12\x34\x01\0\0\x01\0\0\0\0\0";

// The query of the ID 4660 for the address of `BAD.example`.
const DENIED: &[u8] = b"\x12\x34\x01\0\0\x01\0\0\0\0\0\0\x03BAD\x07example\0\0\x01\0\x01";

// Its reply: rcode 3, and the SOA of the policy zone in the additional section, whose owner is `rpz` and a pointer to the byte 16.
const DENIAL: &[u8] = b"\x12\x34\x81\x83\0\x01\0\0\0\0\0\x01\x03BAD\x07example\0\0\x01\0\x01\
    \x03rpz\xc0\x10\0\x06\0\x01\0\0\0<\0\x16\0\0\0\0\0\x01\0\0\x0e\x10\0\0\x02X\0\x01Q\x80\0\0\0<";

// What the upstream gives for it, in a message of the ID 0, and the reply that is: 192.0.2.9. There the owner is `bad`, since case counts,
// and a pointer to the byte 16.
const GIVEN: &[u8] = b"\0\0\x81\x80\0\x01\0\x01\0\0\0\0\x03bad\x07example\0\0\x01\0\x01\
    \x03bad\x07example\0\0\x01\0\x01\0\0\0<\0\x04\xc0\0\x02\x09";

const PASSED: &[u8] = b"\x12\x34\x81\x80\0\x01\0\x01\0\0\0\0\x03BAD\x07example\0\0\x01\0\x01\
    \x03bad\xc0\x10\0\x01\0\x01\0\0\0<\0\x04\xc0\0\x02\x09";

// A transfer of the serial 2, in place of the newer steps: the row `ok.example` CNAME `.`.
const SECOND: &[u8] = b"\0\x9a\0\0\x84\0\0\x01\0\x03\0\0\0\0\x03rpz\x07example\0\0\xfb\0\x01\
    \x03rpz\x07example\0\0\x06\0\x01\0\0\0<\0\x16\0\0\0\0\0\x02\0\0\x0e\x10\0\0\x02X\0\x01Q\x80\0\0\0<\
    \x02ok\x07example\x03rpz\x07example\0\0\x05\0\x01\0\0\0<\0\x01\0\
    \x03rpz\x07example\0\0\x06\0\x01\0\0\0<\0\x16\0\0\0\0\0\x02\0\0\x0e\x10\0\0\x02X\0\x01Q\x80\0\0\0<";

// A NOTIFY of the ID 7 for the SOA of `rpz.example` (RFC 1996, section 3.7); its reply, and that to a stranger.
const NOTIFY: &[u8] = b"\0\x07\x24\0\0\x01\0\0\0\0\0\0\x03rpz\x07example\0\0\x06\0\x01";

const NOTIFIED: &[u8] = b"\0\x07\xa0\x80\0\x01\0\0\0\0\0\0\x03rpz\x07example\0\0\x06\0\x01";

const REFUSED: &[u8] = b"\0\x07\xa0\x85\0\x01\0\0\0\0\0\0\x03rpz\x07example\0\0\x06\0\x01";

/// The whole output of the first of the cases.
pub const SERVED: &[u8] = b"taken 1 1 1\nserved 2 reply 1 silent 1 memory 0 failed 0\n";

pub static CASES: [Case; 18] = [
    Case {
        name: "a zone that is taken",
        words: ONE_WORKER,
        moments: &[
            Moment {
                datagrams: &[],
                times: 0,
                wake: Woken::Frame(0, TRANSFER),
            },
            Moment {
                datagrams: &[SHORT, DENIED],
                times: 1,
                wake: Woken::Due,
            },
        ],
        upstream: &[GIVEN],
        failing_bind: NEVER,
        failing_order: NEVER,
        failing_start: NEVER,
        status: Status::Done,
        written: SERVED,
        replies: &[DENIAL],
        ordered: &[ALL],
        answered: &[],
    },
    Case {
        name: "a primary of which nothing can be ordered",
        words: ONE_WORKER,
        moments: &[Moment {
            datagrams: &[SHORT, DENIED],
            times: 1,
            wake: Woken::Due,
        }],
        upstream: &[GIVEN],
        failing_bind: NEVER,
        failing_order: 0,
        failing_start: NEVER,
        status: Status::Done,
        written: b"refused 1 FetchFault\nserved 2 reply 1 silent 1 memory 0 failed 0\n",
        replies: &[PASSED],
        ordered: &[ALL],
        answered: &[],
    },
    Case {
        name: "a primary that can't be reached",
        words: ONE_WORKER,
        moments: &[
            Moment {
                datagrams: &[],
                times: 0,
                wake: Woken::Over(0, OrderEnd::FetchFault),
            },
            Moment {
                datagrams: &[SHORT, DENIED],
                times: 1,
                wake: Woken::Due,
            },
        ],
        upstream: &[GIVEN],
        failing_bind: NEVER,
        failing_order: NEVER,
        failing_start: NEVER,
        status: Status::Done,
        written: b"refused 1 FetchFault\nserved 2 reply 1 silent 1 memory 0 failed 0\n",
        replies: &[PASSED],
        ordered: &[ALL],
        answered: &[],
    },
    Case {
        name: "a request that can't be written",
        words: ONE_WORKER,
        moments: &[
            Moment {
                datagrams: &[],
                times: 0,
                wake: Woken::Over(0, OrderEnd::WriteFault),
            },
            Moment {
                datagrams: &[SHORT, DENIED],
                times: 1,
                wake: Woken::Due,
            },
        ],
        upstream: &[GIVEN],
        failing_bind: NEVER,
        failing_order: NEVER,
        failing_start: NEVER,
        status: Status::Done,
        written: b"refused 1 WriteFault\nserved 2 reply 1 silent 1 memory 0 failed 0\n",
        replies: &[PASSED],
        ordered: &[ALL],
        answered: &[],
    },
    Case {
        name: "a read that fails",
        words: ONE_WORKER,
        moments: &[
            Moment {
                datagrams: &[],
                times: 0,
                wake: Woken::Over(0, OrderEnd::ReadFault),
            },
            Moment {
                datagrams: &[SHORT, DENIED],
                times: 1,
                wake: Woken::Due,
            },
        ],
        upstream: &[GIVEN],
        failing_bind: NEVER,
        failing_order: NEVER,
        failing_start: NEVER,
        status: Status::Done,
        written: b"refused 1 ReadFault\nserved 2 reply 1 silent 1 memory 0 failed 0\n",
        replies: &[PASSED],
        ordered: &[ALL],
        answered: &[],
    },
    Case {
        name: "a stream that is cut",
        words: ONE_WORKER,
        moments: &[
            Moment {
                datagrams: &[],
                times: 0,
                wake: Woken::Over(0, OrderEnd::Cut),
            },
            Moment {
                datagrams: &[SHORT, DENIED],
                times: 1,
                wake: Woken::Due,
            },
        ],
        upstream: &[GIVEN],
        failing_bind: NEVER,
        failing_order: NEVER,
        failing_start: NEVER,
        status: Status::Done,
        written: b"refused 1 Cut\nserved 2 reply 1 silent 1 memory 0 failed 0\n",
        replies: &[PASSED],
        ordered: &[ALL],
        answered: &[],
    },
    Case {
        name: "a stream without a message",
        words: ONE_WORKER,
        moments: &[
            Moment {
                datagrams: &[],
                times: 0,
                wake: Woken::Over(0, OrderEnd::End),
            },
            Moment {
                datagrams: &[SHORT, DENIED],
                times: 1,
                wake: Woken::Due,
            },
        ],
        upstream: &[GIVEN],
        failing_bind: NEVER,
        failing_order: NEVER,
        failing_start: NEVER,
        status: Status::Done,
        written: b"refused 1 EndedEarly\nserved 2 reply 1 silent 1 memory 0 failed 0\n",
        replies: &[PASSED],
        ordered: &[ALL],
        answered: &[],
    },
    Case {
        name: "an order that isn't known",
        words: ONE_WORKER,
        moments: &[
            Moment {
                datagrams: &[],
                times: 0,
                wake: Woken::Frame(0, TRANSFER),
            },
            Moment {
                datagrams: &[],
                times: 0,
                wake: Woken::Frame(0, CURRENT),
            },
            Moment {
                datagrams: &[],
                times: 0,
                wake: Woken::Over(0, OrderEnd::End),
            },
            Moment {
                datagrams: &[SHORT, DENIED],
                times: 1,
                wake: Woken::Due,
            },
        ],
        upstream: &[GIVEN],
        failing_bind: NEVER,
        failing_order: NEVER,
        failing_start: NEVER,
        status: Status::Done,
        written: SERVED,
        replies: &[DENIAL],
        ordered: &[ALL],
        answered: &[],
    },
    Case {
        name: "a NOTIFY of the primary, which has nothing newer",
        words: ONE_WORKER,
        moments: &[
            Moment {
                datagrams: &[],
                times: 0,
                wake: Woken::Frame(0, TRANSFER),
            },
            Moment {
                datagrams: &[],
                times: 0,
                wake: Woken::Notify(1, NOTIFY),
            },
            Moment {
                datagrams: &[],
                times: 0,
                wake: Woken::Frame(1, CURRENT),
            },
            Moment {
                datagrams: &[SHORT],
                times: 2,
                wake: Woken::Due,
            },
        ],
        upstream: &[],
        failing_bind: NEVER,
        failing_order: NEVER,
        failing_start: NEVER,
        status: Status::Done,
        written: b"taken 1 1 1\ncurrent 1 1\nserved 2 reply 1 silent 2 memory 0 failed 0\n",
        replies: &[],
        ordered: &[ALL, NEWER],
        answered: &[NOTIFIED],
    },
    Case {
        name: "a NOTIFY of a stranger",
        words: ONE_WORKER,
        moments: &[
            Moment {
                datagrams: &[],
                times: 0,
                wake: Woken::Frame(0, TRANSFER),
            },
            Moment {
                datagrams: &[],
                times: 0,
                wake: Woken::Notify(2, NOTIFY),
            },
            Moment {
                datagrams: &[SHORT, DENIED],
                times: 1,
                wake: Woken::Due,
            },
        ],
        upstream: &[GIVEN],
        failing_bind: NEVER,
        failing_order: NEVER,
        failing_start: NEVER,
        status: Status::Done,
        written: b"taken 1 1 1\nserved 2 reply 2 silent 1 memory 0 failed 0\n",
        replies: &[DENIAL],
        ordered: &[ALL],
        answered: &[REFUSED],
    },
    Case {
        name: "a rule that goes, behind a NOTIFY",
        words: ONE_WORKER,
        moments: &[
            Moment {
                datagrams: &[],
                times: 0,
                wake: Woken::Frame(0, TRANSFER),
            },
            Moment {
                datagrams: &[SHORT],
                times: 1,
                wake: Woken::Notify(1, NOTIFY),
            },
            Moment {
                datagrams: &[],
                times: 0,
                wake: Woken::Frame(1, SECOND),
            },
            Moment {
                datagrams: &[DENIED],
                times: 1,
                wake: Woken::Due,
            },
        ],
        upstream: &[GIVEN],
        failing_bind: NEVER,
        failing_order: NEVER,
        failing_start: NEVER,
        status: Status::Done,
        written: b"taken 1 1 1\ntaken 1 2 1\nserved 2 reply 2 silent 1 memory 0 failed 0\n",
        replies: &[PASSED],
        ordered: &[ALL, NEWER],
        answered: &[NOTIFIED],
    },
    Case {
        name: "64 arrivals and 16 workers",
        words: "serve --askers 2 127.0.0.1:5300 127.0.0.1:53 64 16 rpz.example@127.0.0.1:5301",
        moments: &[
            Moment {
                datagrams: &[],
                times: 0,
                wake: Woken::Frame(0, TRANSFER),
            },
            Moment {
                datagrams: &[SHORT],
                times: 64,
                wake: Woken::Due,
            },
        ],
        upstream: &[],
        failing_bind: NEVER,
        failing_order: NEVER,
        failing_start: NEVER,
        status: Status::Done,
        written: b"taken 1 1 1\nserved 64 reply 0 silent 64 memory 0 failed 0\n",
        replies: &[],
        ordered: &[ALL],
        answered: &[],
    },
    Case {
        name: "as many arrivals as come",
        words: "serve --askers 2 127.0.0.1:5300 127.0.0.1:53 forever 1 rpz.example@127.0.0.1:5301",
        moments: &[
            Moment {
                datagrams: &[],
                times: 0,
                wake: Woken::Frame(0, TRANSFER),
            },
            Moment {
                datagrams: &[SHORT],
                times: 3,
                wake: Woken::Due,
            },
        ],
        upstream: &[],
        failing_bind: NEVER,
        failing_order: NEVER,
        failing_start: NEVER,
        status: Status::Done,
        written: b"taken 1 1 1\nserved forever reply 0 silent 3 memory 0 failed 0\n",
        replies: &[],
        ordered: &[ALL],
        answered: &[],
    },
    Case {
        name: "two zones, of which the second one's primary answers another question",
        words: "serve --askers 2 127.0.0.1:5300 127.0.0.1:53 1 1 rpz.example@127.0.0.1:5301 two.example@127.0.0.1:5302",
        moments: &[
            Moment {
                datagrams: &[],
                times: 0,
                wake: Woken::Frame(1, CURRENT),
            },
            Moment {
                datagrams: &[],
                times: 0,
                wake: Woken::Frame(0, TRANSFER),
            },
            Moment {
                datagrams: &[SHORT],
                times: 1,
                wake: Woken::Due,
            },
        ],
        upstream: &[],
        failing_bind: NEVER,
        failing_order: NEVER,
        failing_start: NEVER,
        status: Status::Done,
        written: b"refused 2 WrongQuestion\ntaken 1 1 1\nserved 1 reply 0 silent 1 memory 0 failed 0\n",
        replies: &[],
        ordered: &[ALL, ALL_OF_TWO],
        answered: &[],
    },
    Case {
        name: "an endpoint that can't be bound",
        words: ONE_WORKER,
        moments: &[Moment {
            datagrams: &[],
            times: 0,
            wake: Woken::Frame(0, TRANSFER),
        }],
        upstream: &[],
        failing_bind: 0,
        failing_order: NEVER,
        failing_start: NEVER,
        status: Status::SocketFault,
        written: b"",
        replies: &[],
        ordered: &[],
        answered: &[],
    },
    Case {
        name: "a wait that fails",
        words: ONE_WORKER,
        moments: &[
            Moment {
                datagrams: &[],
                times: 0,
                wake: Woken::Frame(0, TRANSFER),
            },
            Moment {
                datagrams: &[DENIED],
                times: 1,
                wake: Woken::Fails,
            },
        ],
        upstream: &[],
        failing_bind: NEVER,
        failing_order: NEVER,
        failing_start: NEVER,
        status: Status::SocketFault,
        written: b"taken 1 1 1\n",
        replies: &[DENIAL],
        ordered: &[ALL],
        answered: &[],
    },
    Case {
        name: "a second worker that doesn't start",
        words: "serve --askers 2 127.0.0.1:5300 127.0.0.1:53 2 2 rpz.example@127.0.0.1:5301",
        moments: &[
            Moment {
                datagrams: &[],
                times: 0,
                wake: Woken::Frame(0, TRANSFER),
            },
            Moment {
                datagrams: &[SHORT],
                times: 2,
                wake: Woken::Due,
            },
        ],
        upstream: &[],
        failing_bind: NEVER,
        failing_order: NEVER,
        failing_start: 1,
        status: Status::StartFault,
        written: b"taken 1 1 1\n",
        replies: &[],
        ordered: &[ALL],
        answered: &[],
    },
    Case {
        name: "an endpoint that is held back until the zone is there",
        words: HELD_BACK,
        moments: &[
            Moment {
                datagrams: &[],
                times: 0,
                wake: Woken::Due,
            },
            Moment {
                datagrams: &[],
                times: 0,
                wake: Woken::Frame(0, TRANSFER),
            },
            Moment {
                datagrams: &[SHORT, DENIED],
                times: 1,
                wake: Woken::Due,
            },
        ],
        upstream: &[GIVEN],
        failing_bind: NEVER,
        failing_order: NEVER,
        failing_start: NEVER,
        status: Status::Done,
        written: SERVED,
        replies: &[DENIAL],
        ordered: &[ALL],
        answered: &[],
    },
];
