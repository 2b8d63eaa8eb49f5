//! Messages behind their lengths, in pieces, cut, and in a source that fails.

use crate::asserts::assert_same;
use edge_io::{
    FrameError, FrameFault, ListSink, ListSource, SinkError, read_frame, read_full, write_frame,
};

// Two frames, of which the second is empty, with at most so many bytes a call.
#[test]
fn frames_are_read(rt: HostRuntime) {
    let alloc = rt.alloc();
    for most in [1, 2, 9] {
        let mut source = ListSource::new(
            b"\0\x02ab\0\0".to_vec(alloc).expect(&rt, "no error"),
            most,
            Vec::new(alloc),
        );
        for frame in [Some(b"ab".as_slice()), Some(b"".as_slice()), None] {
            let got = read_frame(alloc, &mut source).expect(&rt, "no error");
            assert_same(&rt, got.as_ref().map(|bytes| bytes.as_slice()), frame);
        }
    }
}

// The source ends inside a frame.
#[test]
fn a_frame_is_cut(rt: HostRuntime) {
    let alloc = rt.alloc();
    for bytes in [b"\0".as_slice(), b"\0\x02", b"\0\x02a", b"\x01\0ab"] {
        let mut source = ListSource::new(
            bytes.to_vec(alloc).expect(&rt, "no error"),
            1,
            Vec::new(alloc),
        );
        let expected = Some(FrameError::Fault(FrameFault::Cut));
        assert_same(&rt, read_frame(alloc, &mut source).err(), expected);
    }
}

// A byte a call, and one call fails.
#[test]
fn a_read_of_a_frame_fails(rt: HostRuntime) {
    let alloc = rt.alloc();
    for call in [0, 1, 2, 3] {
        let failing = vec![in alloc; call].expect(&rt, "no error");
        let mut source = ListSource::new(
            b"\0\x02ab".to_vec(alloc).expect(&rt, "no error"),
            1,
            failing,
        );
        let expected = Some(FrameError::Fault(FrameFault::ReadFault));
        assert_same(&rt, read_frame(alloc, &mut source).err(), expected);
    }
}

#[test]
fn a_buffer_is_filled(rt: HostRuntime) {
    let alloc = rt.alloc();
    let mut source = ListSource::new(
        b"abc".to_vec(alloc).expect(&rt, "no error"),
        1,
        Vec::new(alloc),
    );
    let mut into = [b'-'; 2];
    for (result, bytes) in [(Ok(2), *b"ab"), (Ok(1), *b"cb"), (Ok(0), *b"cb")] {
        assert_same(&rt, read_full(&mut source, &mut into), result);
        assert_same(&rt, into, bytes);
    }
}

// Three bytes a call; the call of this number fails.
#[test]
fn a_frame_is_written(rt: HostRuntime) {
    let alloc = rt.alloc();
    for (call, result, bytes) in [
        (9, Ok(()), b"\0\x04abcd".as_slice()),
        (0, Err(SinkError::WriteFault), b""),
        (2, Err(SinkError::WriteFault), b"\0\x04abc"),
    ] {
        let mut sink = ListSink::new(
            Vec::new(alloc),
            3,
            vec![in alloc; call].expect(&rt, "no error"),
        );
        assert_same(&rt, write_frame(&mut sink, b"abcd"), result);
        assert_same(&rt, sink.bytes.as_slice(), bytes);
    }
}
