//! Lines of a script with their number.

use crate::asserts::assert_same;
use dns_name::Name;
use networks::AllowList;
use policy_override::{Override, ZoneSet, ZoneSets};
use script_codec::{Line, ScriptState, read_line};

#[test]
fn a_line_is_read(rt: HostRuntime) {
    let mut zones = ZoneSets::new(rt.alloc());
    zones
        .push(ZoneSet {
            origin: Name::from_text(rt.alloc(), b"rpz.example").expect(&rt, "no error"),
            over: Override::Given,
        })
        .expect(&rt, "no error");
    let everyone = AllowList::everyone(rt.alloc());
    let state = ScriptState::Opening {
        zones: &zones,
        primaries: &[None],
        allowed: &everyone,
    };
    let line = read_line(rt.alloc(), b"xfer 001 00aB", 2, &state).expect(&rt, "no error");
    let Some(Line::Transfer { zone: 1, stream }) = line else {
        return panic!(rt; "a transfer");
    };
    assert_same(&rt, stream.as_slice(), b"\0\xab".as_slice());
}
