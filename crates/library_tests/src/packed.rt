//! Compressed names of one message: the example of RFC 1035, section 4.1.4, and the last place that a pointer leads to.

use crate::asserts::assert_same;
use dns_name::{Name, Octets};
use packed_names::Places;
use std::alloc::Global;
use std::process::Abort;

fn name_of<R: Abort>(rt: &R, alloc: Global, text: &[u8]) -> Name {
    Name::from_text(alloc, text).expect(rt, "no error")
}

// Writes each name at its offset, with zeros before it, and asserts that it is written as these octets.
fn assert_written<'n, R: Abort>(rt: &R, alloc: Global, names: &[(usize, &'n Name, &[u8])]) {
    let mut out = Octets::new(alloc);
    let mut places = Places::new(alloc, 1);
    for (offset, name, octets) in names {
        for _ in out.len()..*offset {
            out.push(0).expect(rt, "no error");
        }
        places.write_name(&mut out, name).expect(rt, "no error");
        assert_same(rt, out.len().saturating_sub(octets.len()), *offset);
        assert!(rt; out.as_slice().ends_with(octets), "the name at {offset}");
    }
}

// Another case is another name.
#[test]
fn a_suffix_is_a_pointer(rt: HostRuntime) {
    let isi = name_of(&rt, rt.alloc(), b"F.ISI.ARPA");
    let foo = name_of(&rt, rt.alloc(), b"FOO.F.ISI.ARPA");
    let arpa = name_of(&rt, rt.alloc(), b"ARPA");
    let root = Name::root(rt.alloc()).expect(&rt, "no error");
    let small = name_of(&rt, rt.alloc(), b"f.isi.arpa");
    let names = [
        (20, &isi, b"\x01F\x03ISI\x04ARPA\0".as_slice()),
        (40, &foo, b"\x03FOO\xC0\x14".as_slice()),
        (64, &arpa, b"\xC0\x1A".as_slice()),
        (92, &root, b"\0".as_slice()),
        (93, &small, b"\x01f\x03isi\x04arpa\0".as_slice()),
    ];
    assert_written(&rt, rt.alloc(), names.as_slice());
}

// A pointer has 14 bits: it leads to 16,383 at most.
#[test]
fn no_pointer_leads_beyond_14_bits(rt: HostRuntime) {
    let near = name_of(&rt, rt.alloc(), b"a.b");
    let far = name_of(&rt, rt.alloc(), b"c.d");
    let names = [
        (16_382, &near, b"\x01a\x01b\0".as_slice()),
        (16_400, &near, b"\xFF\xFE".as_slice()),
        (16_402, &far, b"\x01c\x01d\0".as_slice()),
        (16_407, &far, b"\x01c\x01d\0".as_slice()),
    ];
    assert_written(&rt, rt.alloc(), names.as_slice());
}
