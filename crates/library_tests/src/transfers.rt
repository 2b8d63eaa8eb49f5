//! Transfers out of a source that fails, what is left in one, and the bound on the records of a transfer.

use crate::asserts::assert_same;
use crate::row_samples::zone_name;
use axfr_apply::{TransferError, TransferFault, Wanted};
use edge_io::{Bytes, ListSource, read_frame};
use ixfr_apply::{TransferReader, read_transfer};
use std::alloc::Global;
use std::process::Abort;

// A transfer of the zone `rpz.example` in one message of 155 bytes behind its length: the serial 1, and the row
// `bad.example` CNAME `.`.
const STREAM: &[u8] =
    b"\0\x9b\0\0\x84\0\0\x01\0\x03\0\0\0\0\x03rpz\x07example\0\0\xfc\0\x01\x03rpz\x07example\0\0\x06\0\x01\0\0\0<\0\x16\0\0\0\0\0\x01\0\0\x0e\x10\0\0\x02X\0\x01Q\x80\0\0\0<\x03bad\x07example\x03rpz\x07example\0\0\x05\0\x01\0\0\0<\0\x01\0\x03rpz\x07example\0\0\x06\0\x01\0\0\0<\0\x16\0\0\0\0\0\x01\0\0\x0e\x10\0\0\x02X\0\x01Q\x80\0\0\0<";

// What the stream gives that comes a byte a call, where the call of this number fails.
fn read_singly<R: Abort>(rt: &R, alloc: Global, call: u64) -> Option<TransferError> {
    let origin = zone_name(rt, alloc);
    let mut source = ListSource::new(
        STREAM.to_vec(alloc).expect(rt, "no error"),
        1,
        vec![in alloc; call].expect(rt, "no error"),
    );
    read_transfer(alloc, &mut source, 0, &origin, Wanted::Whole { have: None }).err()
}

// The stream of 157 bytes takes 157 calls.
#[test]
fn a_read_that_fails_is_told(rt: HostRuntime) {
    let fault = Some(TransferError::Fault(TransferFault::ReadFault));
    for (call, error) in [
        (0, fault),
        (1, fault),
        (2, fault),
        (156, fault),
        (157, None),
    ] {
        assert!(rt;
            read_singly(&rt, rt.alloc(), call) == error,
            "the call {call}"
        );
    }
}

// What stands behind the transfer is left in the source.
#[test]
fn what_follows_is_left(rt: HostRuntime) {
    let origin = zone_name(&rt, rt.alloc());
    let mut bytes = STREAM.to_vec(rt.alloc()).expect(&rt, "no error");
    bytes.extend_from_slice(b"\0\x02ab").expect(&rt, "no error");
    let mut source = Bytes::new(bytes);
    assert!(rt;
        read_transfer(
            rt.alloc(),
            &mut source,
            0,
            &origin,
            Wanted::Whole { have: None }
        )
        .is_ok()
    );
    let next = read_frame(rt.alloc(), &mut source).expect(&rt, "no error");
    assert_same(
        &rt,
        next.as_ref().map(|bytes| bytes.as_slice()),
        Some(b"ab".as_slice()),
    );
}

// What a reader gives that takes fewer items than this. The stream has one message with three records.
fn read_fewer<R: Abort>(rt: &R, alloc: Global, most: u32) -> Option<TransferError> {
    let origin = zone_name(rt, alloc);
    let wanted = Wanted::Whole { have: None };
    let mut reader = TransferReader::start_within(alloc, 0, &origin, wanted, most).expect(
        rt, "no error",
    );
    reader.feed(&STREAM[2..]).err()
}

// A message and its records count together, and the item of the number of the bound is one too many.
#[test]
fn too_many_records_are_refused(rt: HostRuntime) {
    for most in [0, 1, 4] {
        let fault = TransferError::Fault(TransferFault::TooManyRecords { at: most });
        assert!(rt;
            read_fewer(&rt, rt.alloc(), most) == Some(fault),
            "the bound {most}"
        );
    }
    assert_same(&rt, read_fewer(&rt, rt.alloc(), 5), None);
}
