//! Owners of rules in the zone of `rpz.example`, and their canonical spelling. Addresses are those for
//! documentation (RFC 5737, RFC 3849).

use crate::asserts::assert_same;
use crate::row_samples::zone_name;
use dns_name::Name;
use std::alloc::Global;
use std::process::Abort;
use trigger_codec::{owner_of, trigger_of};

// The canonical owner of the trigger that this owner has in the zone.
fn spelling<R: Abort>(rt: &R, alloc: Global, owner: &[u8], origin: &Name) -> Name {
    let owner = Name::from_text(alloc, owner).expect(rt, "no error");
    let trigger = trigger_of(alloc, &owner, origin).expect(rt, "no error");
    owner_of(alloc, &trigger, origin).expect(rt, "no error")
}

#[test]
fn a_trigger_has_one_canonical_owner(rt: HostRuntime) {
    let origin = zone_name(&rt, rt.alloc());
    for (owner, canonical) in [
        (
            b"048.0.ZZ.101.DB8.2001.RPZ-ip.RPZ.example".as_slice(),
            b"48.zz.101.db8.2001.rpz-ip.rpz.example".as_slice(),
        ),
        (
            b"24.0.002.0.192.rpz-client-ip.rpz.example",
            b"24.0.2.0.192.rpz-client-ip.rpz.example",
        ),
        (
            b"128.1.0.0.1.0.0.db8.2001.rpz-ip.rpz.example",
            b"128.1.0.0.1.zz.db8.2001.rpz-ip.rpz.example",
        ),
        (
            b"128.7.6.5.4.3.2.zz.1.rpz-nsip.rpz.example",
            b"128.7.6.5.4.3.2.0.1.rpz-nsip.rpz.example",
        ),
        (
            b"128.0.0.0.zz.rpz-ip.rpz.example",
            b"128.zz.rpz-ip.rpz.example",
        ),
        (b"*.Bad.rpz.example", b"*.bad.rpz.example"),
        (b"bAd.RPZ.example", b"bad.rpz.example"),
        (b"*.Rpz-Nsdname.rpz.example", b"*.rpz-nsdname.rpz.example"),
    ] {
        let expected = Name::from_text(rt.alloc(), canonical).expect(&rt, "no error");
        let got = spelling(&rt, rt.alloc(), owner, &origin);
        assert_same(&rt, got.octets(), expected.octets());
    }
}
