//! Serials.

use dns_record::serial_newer;

// RFC 1982, section 3.2.
#[test]
fn serials_are_compared(rt: HostRuntime) {
    for (ours, theirs, newer) in [
        (0, 1, true),
        (1, 0, false),
        (7, 7, false),
        (4_294_967_295, 0, true),
        (0, 4_294_967_295, false),
        (0, 2_147_483_647, true),
        (0, 2_147_483_648, false),
        (2_147_483_648, 0, false),
        (2_147_483_649, 0, true),
    ] {
        assert!(rt; serial_newer(ours, theirs) == newer, "{ours} {theirs}");
    }
}
