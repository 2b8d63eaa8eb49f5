//! Requests for a zone, which no script reaches.

use crate::asserts::assert_same;
use crate::row_samples::{first_soa, zone_name};
use ixfr_apply::{request, request_newer};

// RFC 5936, section 2.1: the question (rpz.example, AXFR, IN) alone.
#[test]
fn the_whole_zone_is_asked_for(rt: HostRuntime) {
    let sent = request(rt.alloc(), 0, &zone_name(&rt, rt.alloc())).expect(&rt, "no error");
    assert_same(
        &rt,
        sent.as_slice(),
        b"\0\0\0\0\0\x01\0\0\0\0\0\0\x03rpz\x07example\0\0\xfc\0\x01".as_slice(),
    );
}

// RFC 1995, section 3: the question (rpz.example, IXFR, IN), and our SOA record as authority.
#[test]
fn what_is_newer_is_asked_for(rt: HostRuntime) {
    let soa = first_soa(rt.alloc()).expect(&rt, "no error");
    let sent = request_newer(rt.alloc(), 4660, &zone_name(&rt, rt.alloc()), &soa).expect(
        &rt, "no error",
    );
    assert_same(
        &rt,
        sent.as_slice(),
        b"\x124\0\0\0\x01\0\0\0\x01\0\0\x03rpz\x07example\0\0\xfb\0\x01\x03rpz\x07example\0\0\x06\0\x01\0\0\0<\0\x16\0\0\0\0\0\x01\0\0\x0e\x10\0\0\x02X\0\x01Q\x80\0\0\0<".as_slice(),
    );
}
