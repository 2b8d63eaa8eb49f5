//! Sources and sinks: reads and writes that come in pieces, and that fail.

use crate::asserts::assert_same;
use edge_io::{
    Bytes, Discard, Failed, LineSink, ListSink, ListSource, ReaderSource, Schedule, Sink,
    SinkError, Source, WAITING_LINE_BYTES, WriterSink, write_all,
};

// Writing "abcd" behind "-", with at most so many bytes a call, where the call of this number fails.
#[test]
fn writes(rt: HostRuntime) {
    let alloc = rt.alloc();
    for (most, call, result, bytes) in [
        (9, 9, Ok(()), b"-abcd".as_slice()),
        (1, 9, Ok(()), b"-abcd"),
        (1, 2, Err(SinkError::WriteFault), b"-ab"),
        (3, 1, Err(SinkError::WriteFault), b"-abc"),
        (1, 4, Ok(()), b"-abcd"),
    ] {
        let failing = vec![in alloc; call].expect(&rt, "no error");
        let mut sink = ListSink::new(b"-".to_vec(alloc).expect(&rt, "no error"), most, failing);
        assert_same(&rt, write_all(&mut sink, b"abcd"), result);
        assert_same(&rt, sink.bytes.as_slice(), bytes);
    }
}

// A byte a call, and the second call fails.
#[test]
fn reads(rt: HostRuntime) {
    let alloc = rt.alloc();
    let mut source = ListSource::new(
        b"ab".to_vec(alloc).expect(&rt, "no error"),
        1,
        vec![in alloc; 1].expect(&rt, "no error"),
    );
    let mut into = [b'-'; 2];
    for (result, byte) in [
        (Ok(1), b'a'),
        (Err(Failed), b'a'),
        (Ok(1), b'b'),
        (Ok(0), b'b'),
    ] {
        assert_same(&rt, source.read(&mut into), result);
        assert_same(&rt, into, [byte, b'-']);
    }
}

#[test]
fn bytes_are_read(rt: HostRuntime) {
    let mut into = [b'-'; 4];
    let mut bytes = Bytes::new(b"ab".to_vec(rt.alloc()).expect(&rt, "no error"));
    assert_same(&rt, bytes.read(&mut into), Ok(2));
    assert_same(&rt, into, *b"ab--");
}

#[test]
fn a_reader_is_read(rt: HostRuntime) {
    let mut into = [b'-'; 4];
    let mut reader = ReaderSource::new(b"cd".as_slice());
    assert_same(&rt, reader.read(&mut into), Ok(2));
    assert_same(&rt, into, *b"cd--");
    assert_same(&rt, reader.read(&mut into), Ok(0));
}

#[test]
fn a_writer_is_written(rt: HostRuntime) {
    let mut held = Vec::new(rt.alloc());
    let mut writer = WriterSink::new(&mut held);
    assert_same(&rt, write_all(&mut writer, b"ef"), Ok(()));
    drop(writer);
    assert_same(&rt, held.as_slice(), b"ef".as_slice());
    assert_same(&rt, write_all(&mut Discard, b"gh"), Ok(()));
}

// Lines are taken while there is room for those that wait to be written, and at the end all that were taken are written.
#[test]
fn lines_are_written_by_a_thread(rt: HostRuntime) {
    let alloc = rt.alloc();
    let mut lines = LineSink::start(rt, alloc).expect(&rt, "no error");
    let long = vec![in alloc; b'-'; WAITING_LINE_BYTES + 1].expect(&rt, "no error");
    for (piece, result) in [
        (b"one\n".as_slice(), Ok(())),
        (long.as_slice(), Err(SinkError::WriteFault)),
        (b"another\n", Ok(())),
    ] {
        assert_same(&rt, write_all(&mut lines, piece), result);
    }
    assert!(rt; lines.end());
}

// Call 1 is to fail.
#[test]
fn calls_fail_by_their_schedule(rt: HostRuntime) {
    let mut schedule = Schedule::new(vec![in rt.alloc(); 1].expect(&rt, "no error"));
    for (fails, faults) in [(false, 0), (true, 1), (false, 1)] {
        assert_same(&rt, schedule.fails_now(), fails);
        assert_same(&rt, schedule.faults, faults);
    }
}
