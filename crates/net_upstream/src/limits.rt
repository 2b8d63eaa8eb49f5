//! The limits of this crate.

/// Milliseconds within which the upstream must take a connection at each try. Less than a second, since nothing else ends a try, and
/// `stop` may take a second. A try that was lost on the way is sent again after a second (RFC 6298, section 2), so that a second try
/// costs nothing.
pub const UPSTREAM_CONNECT_MILLISECONDS: u64 = 900;

/// How often the upstream is tried for one connection, so that it may take 2 seconds.
pub const UPSTREAM_CONNECT_TRIES: u32 = 2;

/// Seconds in which no other connection is opened beside those that take questions, after one could not be had.
pub const UPSTREAM_REST_SECONDS: u64 = 1;

/// Seconds that one question to the upstream may take, waits for a connection included.
pub const UPSTREAM_ANSWER_SECONDS: u64 = 5;

/// How many connections to an upstream take questions at a time. Servers have few slots for TCP, 10 by default in Unbound, and others
/// want some (RFC 7766, section 6.2.2, asks for as few as will do).
pub const UPSTREAM_CONNECTIONS: u64 = 8;

/// How many connections to an upstream are open at a time: those that take questions, those that only wait for answers, and those with
/// one question each, where it takes no more.
pub const UPSTREAM_ALL_CONNECTIONS: u64 = 64;

/// How many questions stand on each connection before another one is opened. Servers work on so many of one connection at a time, as
/// PowerDNS Recursor by default.
pub const UPSTREAM_FEW_QUESTIONS: usize = 10;

/// How many questions that somebody waits for stand on one connection at most.
pub const UPSTREAM_QUESTIONS: usize = 100;

/// How many questions may at least wait in turn on a connection, where the upstream answers one after another and falls behind.
pub const UPSTREAM_LEAST_QUESTIONS: usize = 16;

/// How many questions of one connection may be given up and not answered. One that has so many takes no more questions.
pub const UPSTREAM_ABANDONED: usize = 1_000;

/// How often a question is sent: once more, where its connection was closed before the answer came (RFC 7766, section 6.2.4).
pub const UPSTREAM_TRIES: u32 = 2;

/// Seconds after which a connection to the upstream is closed on which nobody waits for an answer (RFC 7766, section 6.2.3).
pub const UPSTREAM_IDLE_SECONDS: u64 = 2;

/// Seconds after which a connection takes no more questions on which an answer is to come and none has come. Its path may be dead.
pub const UPSTREAM_SILENCE_SECONDS: u64 = 3;

/// Milliseconds after which the thread of a connection looks whether it is still wanted, where nothing comes.
pub const UPSTREAM_LOOK_MILLISECONDS: u64 = 500;

/// Milliseconds after which whoever waits for room for its question looks again, so that no wake is needed for it.
pub const UPSTREAM_CHANGE_MILLISECONDS: u64 = 100;

/// How many connections the upstream must close in a row behind few answers, while others are to come, to get one question on each.
pub const UPSTREAM_CUTS: u32 = 2;

/// Milliseconds behind an answer in which such a connection is closed. One that had nothing to do is closed later (RFC 7766, section
/// 6.2.3), and a question may meet that.
pub const UPSTREAM_CUT_MILLISECONDS: u64 = 100;

/// Seconds for which it gets one question on each connection then.
pub const UPSTREAM_SINGLE_SECONDS: u64 = 60;

/// A connection to the upstream on which an answer is to come, and none has come for so long, takes a question only where no other has
/// room: what is asked there may stand behind a question that the upstream is busy with.
pub const UPSTREAM_LATE_MILLISECONDS: u64 = 500;

/// Milliseconds that a question has then, where half of `UPSTREAM_ALL_CONNECTIONS` are taken, so that names which are never answered
/// leave connections to others. It is what a query has while half of the askers are busy.
pub const UPSTREAM_CROWDED_MILLISECONDS: u64 = 500;

/// Seconds for which a question that was not answered in time is remembered, and fails at once (RFC 9520, section 3.2: at least one,
/// and at most 300).
pub const UPSTREAM_FAILURE_SECONDS: u64 = 5;

/// How many of these are remembered.
pub const UPSTREAM_FAILURES: usize = 4_096;

/// The bytes of the longest question that is remembered. One without options has at most 271: a header, a name, type and class.
pub const UPSTREAM_FAILURE_BYTES: usize = 300;

/// Milliseconds that a question must have had to be remembered: that the rest of a query's time was over says nothing of the upstream.
pub const UPSTREAM_FAILURE_MILLISECONDS: u64 = 400;

/// The bytes that are read ahead of a connection to the upstream. There is more room once a longer answer comes.
pub const UPSTREAM_BUFFER: usize = 4_096;

/// The bytes of questions that the system is asked to keep until they have gone out (SO_SNDBUF). It is room for `UPSTREAM_QUESTIONS`,
/// each of which may have a packet of its own; an upstream that lets it run full reads nothing.
pub const UPSTREAM_SEND_BUFFER: i32 = 256 << 10;
