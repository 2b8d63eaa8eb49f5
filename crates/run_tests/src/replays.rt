//! Runs whose reads and writes fail, and the texts of statuses. What runs answer stands in scenarios/.

use crate::alone::{replay_words, run_alone};
use crate::asserts::assert_same;
use edge_io::{ListSink, ListSource};
use rpz_program::laws::a_line_of_the_grammar_is_done;
use rpz_program::replayed;
use rpz_program::status::Status;
use std::alloc::Global;
use std::process::Abort;
use std::random::RandomSource;
use std::sync::Wait;
use std::thread::Threads;
use std::time::Clock;

// A query without a byte, and one whose opcode isn't served: lines of 24 and 47 bytes.
const SCRIPT: &[u8] = b"query 0 udp 192.0.2.7 -\nquery 1 udp 192.0.2.7 abcd11000000000000000000\n";

// Their outputs: lines of 9 and 33 bytes.
const OUTPUT: &[u8] = b"silent 0\nreply 1 abcd91840000000000000000\n";

// A zone with one rule, and a query for the name that it denies, in 420 bytes.
const RULE_SCRIPT: &[u8] =
    b"zone rpz.example\nxfer 1 009b0000840000010003000000000372707a076578616d706c650000fc00010372707a076578616d706c6500000600010000003c001600000000000100000e1000000258000151800000003c03626164076578616d706c650372707a076578616d706c6500000500010000003c0001000372707a076578616d706c6500000600010000003c001600000000000100000e1000000258000151800000003c\nquery 0 udp 192.0.2.7 12340100000100000000000003424144076578616d706c650000010001\n";

// Their outputs, in 155 bytes: the owner of the SOA is `rpz` and a pointer to the byte 16.
const RULE_OUTPUT: &[u8] =
    b"taken 1 1 1\nreply 0 12348183000100000000000103424144076578616d706c6500000100010372707ac010000600010000003c001600000000000100000e1000000258000151800000003c\n";

// The status and the output of a script, read 10 bytes and written 5 bytes at a time, where these reads and writes fail.
fn run_script<
    R: Abort + Threads + Wait + Clock + RandomSource + Copy + Drop + Send + Sync + 'static,
>(rt: R, alloc: Global, script: &[u8], reads: Vec<u64>, writes: Vec<u64>) -> (Status, Vec<u8>) {
    let mut source = ListSource::new(script.to_vec(alloc).expect(&rt, "no error"), 10, reads);
    let mut sink = ListSink::new(Vec::new(alloc), 5, writes);
    let status = run_alone(
        rt,
        alloc,
        &replay_words(alloc).expect(&rt, "no error"),
        &mut source,
        &mut sink,
    )
    .expect(&rt, "no error");
    (status, sink.bytes)
}

// The same of the script without a zone.
fn run_failing<
    R: Abort + Threads + Wait + Clock + RandomSource + Copy + Drop + Send + Sync + 'static,
>(rt: R, alloc: Global, reads: Vec<u64>, writes: Vec<u64>) -> (Status, Vec<u8>) {
    run_script(rt, alloc, SCRIPT, reads, writes)
}

// Each read fails in turn, that at the end too: the lines whose line feed was read are answered.
#[test]
fn each_read_fails(rt: HostRuntime) {
    let alloc = rt.alloc();
    for (call, written) in [0usize, 0, 0, 9, 9, 9, 9, 9, 42].iter().enumerate() {
        let failing = vec![in alloc; call as u64].expect(&rt, "no error");
        let (status, out) = run_failing(rt, alloc, failing, Vec::new(alloc));
        assert!(rt; status == Status::ReadFault, "at {call}");
        assert!(rt; out.as_slice() == &OUTPUT[..*written], "at {call}");
    }
}

// Each write fails in turn: what was written before it stays.
#[test]
fn each_write_fails(rt: HostRuntime) {
    let alloc = rt.alloc();
    for (call, written) in [0usize, 5, 9, 14, 19, 24, 29, 34, 39].iter().enumerate() {
        let failing = vec![in alloc; call as u64].expect(&rt, "no error");
        let (status, out) = run_failing(rt, alloc, Vec::new(alloc), failing);
        assert!(rt; status == Status::WriteFault, "at {call}");
        assert!(rt; out.as_slice() == &OUTPUT[..*written], "at {call}");
    }
}

// Whether what was written of the script with a zone begins its outputs.
fn begins_the_outputs(out: &[u8]) -> bool {
    RULE_OUTPUT.get(..out.len()) == Some(out)
}

// Each of the 43 reads of the script with a zone fails in turn.
#[test]
fn each_read_over_a_zone_fails(rt: HostRuntime) {
    let alloc = rt.alloc();
    for call in 0..43u64 {
        let failing = vec![in alloc; call].expect(&rt, "no error");
        let (status, out) = run_script(rt, alloc, RULE_SCRIPT, failing, Vec::new(alloc));
        assert!(rt;
            status == Status::ReadFault && begins_the_outputs(&out),
            "at {call}"
        );
    }
}

// Each of its 32 writes.
#[test]
fn each_write_over_a_zone_fails(rt: HostRuntime) {
    let alloc = rt.alloc();
    for call in 0..32u64 {
        let failing = vec![in alloc; call].expect(&rt, "no error");
        let (status, out) = run_script(rt, alloc, RULE_SCRIPT, Vec::new(alloc), failing);
        assert!(rt;
            status == Status::WriteFault && begins_the_outputs(&out),
            "at {call}"
        );
    }
}

#[test]
fn a_script_in_memory_is_replayed(rt: HostRuntime) {
    // a law of its lines, which does nothing
    a_line_of_the_grammar_is_done();
    let alloc = rt.alloc();
    let (status, out) = run_failing(rt, alloc, Vec::new(alloc), Vec::new(alloc));
    assert_same(&rt, status, Status::Done);
    assert_same(&rt, out.as_slice(), OUTPUT);
    let (status, out) = run_script(rt, alloc, RULE_SCRIPT, Vec::new(alloc), Vec::new(alloc));
    assert_same(&rt, status, Status::Done);
    assert_same(&rt, out.as_slice(), RULE_OUTPUT);
    let got = replayed(alloc, SCRIPT.to_vec(alloc).expect(&rt, "no error"))
        .ok()
        .expect(&rt, "a transcript");
    assert_same(&rt, got.as_slice(), OUTPUT);
}

// The texts that no scenario shows.
#[test]
fn statuses_have_their_texts(rt: HostRuntime) {
    for (status, code, text) in [
        (Status::ReadFault, 4, "rpz: read fault"),
        (Status::WriteFault, 5, "rpz: write fault"),
        (Status::SocketFault, 6, "rpz: socket fault"),
        (Status::StartFault, 7, "rpz: start fault"),
        (Status::OutOfMemory, 9, "rpz: out of memory"),
    ] {
        assert_same(&rt, status.code(), code);
        let got = status
            .text(rt.alloc())
            .expect(&rt, "no error")
            .expect(&rt, "a text");
        assert_same(&rt, got.as_str(), text);
    }
}
