//! Names that are made of others, the vectors of RFC 4034, section 6.1, and names in messages.

use crate::asserts::assert_same;
use dns_name::{Name, NameError, NameFault};
use std::alloc::Global;
use std::cmp::Ordering;
use std::process::Abort;

// What is made of the name F.ISI.ARPA.
#[derive(Clone, Copy)]
enum Made {
    Root,
    Copy,
    LowerCase,
    Parent,
    Section,
    Join,
}

fn make<R: Abort>(rt: &R, alloc: Global, name: &Name, what: Made) -> Name {
    match what {
        Made::Root => Name::root(alloc).expect(rt, "no error"),
        Made::Copy => name.clone().expect(rt, "no error"),
        Made::LowerCase => name.lower(alloc).expect(rt, "no error"),
        Made::Parent => name
            .parent(alloc)
            .expect(rt, "no error")
            .expect(rt, "a parent"),
        Made::Section => name.section(alloc, 1, 1).expect(rt, "no error"),
        Made::Join => Name::join(alloc, name, name).expect(rt, "no error"),
    }
}

#[test]
fn a_name_is_made_of_another(rt: HostRuntime) {
    let name = Name::from_text(rt.alloc(), b"F.ISI.ARPA").expect(&rt, "no error");
    for (what, octets) in [
        (Made::Root, b"\0".as_slice()),
        (Made::Copy, b"\x01F\x03ISI\x04ARPA\0"),
        (Made::LowerCase, b"\x01f\x03isi\x04arpa\0"),
        (Made::Parent, b"\x03ISI\x04ARPA\0"),
        (Made::Section, b"\x03ISI\0"),
        (Made::Join, b"\x01F\x03ISI\x04ARPA\x01F\x03ISI\x04ARPA\0"),
    ] {
        let made = make(&rt, rt.alloc(), &name, what);
        assert_same(&rt, made.octets(), octets);
    }
}

fn order_of<R: Abort>(rt: &R, alloc: Global, a: &[u8], b: &[u8]) -> Ordering {
    let a = Name::from_text(alloc, a).expect(rt, "no error");
    let b = Name::from_text(alloc, b).expect(rt, "no error");
    a.canonical_cmp(&b)
}

// The names of RFC 4034, section 6.1, but for those with escapes, each with the next.
#[test]
fn names_have_an_order(rt: HostRuntime) {
    for (a, b) in [
        (b"example".as_slice(), b"a.example".as_slice()),
        (b"a.example", b"yljkjljk.a.example"),
        (b"yljkjljk.a.example", b"Z.a.example"),
        (b"Z.a.example", b"zABC.a.EXAMPLE"),
        (b"zABC.a.EXAMPLE", b"z.example"),
        (b"z.example", b"*.z.example"),
    ] {
        assert_same(&rt, order_of(&rt, rt.alloc(), a, b), Ordering::Less);
        assert_same(&rt, order_of(&rt, rt.alloc(), b, a), Ordering::Greater);
        assert_same(&rt, order_of(&rt, rt.alloc(), a, a), Ordering::Equal);
    }
}

// Names in messages that can't be read (RFC 1035, sections 3.1 and 4.1.4).
#[test]
fn a_name_that_cant_be_read_has_its_fault(rt: HostRuntime) {
    for (message, fault) in [
        (b"\xc0\0".as_slice(), NameFault::Pointer),
        (b"\x01a\xc0\0", NameFault::Pointer),
        (b"\x80", NameFault::LabelType),
        (b"\x03a", NameFault::Short),
        (b"", NameFault::Short),
    ] {
        let found = Name::read(rt.alloc(), message, 0).err();
        assert_same(&rt, found, Some(NameError::Fault(fault)));
    }
}

// The name `a` stands at 0, and at 3 the label `b` with a pointer to it.
#[test]
fn a_pointer_leads_to_an_earlier_name(rt: HostRuntime) {
    let read = Name::read(rt.alloc(), b"\x01a\0\x01b\xc0\0", 3);
    let (name, next) = read.expect(&rt, "no error");
    assert_same(&rt, name.octets(), b"\x01b\x01a\0".as_slice());
    assert_same(&rt, next, 7);
}

// The place after a name of so many labels of one byte each.
fn read_labels<R: Abort>(rt: &R, alloc: Global, labels: usize) -> Result<usize, NameError> {
    let mut octets = Vec::new(alloc);
    for _label in 0..labels {
        octets.extend_from_slice(b"\x01a").expect(rt, "no error");
    }
    octets.push(0).expect(rt, "no error");
    let (_name, next) = Name::read(alloc, octets.as_slice(), 0)?;
    Ok(next)
}

// A name has 255 bytes at most (RFC 1035, section 2.3.4).
#[test]
fn a_name_of_128_labels_is_too_long(rt: HostRuntime) {
    assert_same(&rt, read_labels(&rt, rt.alloc(), 127), Ok(255));
    let fault = Err(NameError::Fault(NameFault::TooLong));
    assert_same(&rt, read_labels(&rt, rt.alloc(), 128), fault);
}
