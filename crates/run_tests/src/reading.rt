//! Each line is answered before more is read: a source and a sink that share a count of what was written.

ghost use Rattle.std.specs.Prelude.{◌≡◌, None};

use crate::alone::{replay_words, run_alone};
use crate::asserts::assert_same;
use edge_io::{Failed, Sink, SinkError, Source};
use rpz_program::status::Status;
use std::cell::Cell;

// A query that is met with silence, and how many bytes its output `silent 0` has.
const QUERY: &[u8] = b"query 0 udp 192.0.2.7 -\n";

const OUTPUT: usize = 9;

// Gives the query three times, one a read, and notes a read at which the output of a query before wasn't written.
#[derive(Drop)]
struct QuerySource<'a> {
    given: usize,
    written: &'a Cell<usize>,
    is_ahead: &'a Cell<bool>,
}

impl Source for QuerySource<'_> {
    ghost left = { λ _. None };

    ghost faults = { λ _. 0 };

    ghost steady = { λ _. Unit {0} };

    fn read(&mut self, into: &mut [u8]) -> Result<usize, Failed> {
        if self.written.get() != self.given.saturating_mul(OUTPUT) {
            self.is_ahead.set(true);
        }
        if self.given == 3 || into.len() < QUERY.len() {
            return Ok(0);
        }
        into[..QUERY.len()].copy_from_slice(QUERY);
        self.given = self.given.saturating_add(1);
        Ok(QUERY.len())
    }
}

// Counts what is written.
#[derive(Drop)]
struct CountingSink<'a> {
    written: &'a Cell<usize>,
}

impl Sink for CountingSink<'_> {
    ghost held = { λ _. None };

    ghost faults = { λ _. 0 };

    ghost steady = { λ _. Unit {0} };

    fn write(&mut self, piece: &[u8]) -> Result<usize, SinkError> {
        self.written
            .set(self.written.get().saturating_add(piece.len()));
        Ok(piece.len())
    }
}

#[test]
fn each_line_is_answered_before_more_is_read(rt: HostRuntime) {
    let written = Cell::new(0usize);
    let is_ahead = Cell::new(false);
    let mut source = QuerySource {
        given: 0,
        written: &written,
        is_ahead: &is_ahead,
    };
    let mut sink = CountingSink { written: &written };
    let words = replay_words(rt.alloc()).expect(&rt, "no error");
    let status = run_alone(rt, rt.alloc(), &words, &mut source, &mut sink).expect(&rt, "no error");
    assert_same(&rt, status, Status::Done);
    assert_same(&rt, written.get(), OUTPUT * 3);
    assert!(rt; !is_ahead.get());
}
