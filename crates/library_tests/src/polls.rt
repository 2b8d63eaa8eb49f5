//! What a NOTIFY is answered, and which zone is due.

use dns_name::Name;
use ip_prefix::Addr;
use notify_poll::{Notified, PollCore, Polling};
use std::alloc::Global;
use std::process::Abort;

const PRIMARY: Addr = Addr::V4(0x7f00_0001);

const STRANGER: Addr = Addr::V4(0x7f00_0002);

// A NOTIFY with the ID 7 for rpz.example (RFC 1996, section 3.7).
const NOTIFY: &[u8] = b"\0\x07\x24\0\0\x01\0\0\0\0\0\0\x03rpz\x07example\0\0\x06\0\x01";

// The same as a response.
const RESPONSE: &[u8] = b"\0\x07\xa4\0\0\x01\0\0\0\0\0\0\x03rpz\x07example\0\0\x06\0\x01";

const TAKEN: &[u8] = b"\0\x07\xa0\x80\0\x01\0\0\0\0\0\0\x03rpz\x07example\0\0\x06\0\x01";

const REFUSED: &[u8] = b"\0\x07\xa0\x85\0\x01\0\0\0\0\0\0\x03rpz\x07example\0\0\x06\0\x01";

const NOTHING: &[u8] = b"";

// The timers of rpz.example, which was polled at the second 0 and says that it is to be polled each hour.
fn polled<R: Abort>(rt: &R, alloc: Global) -> PollCore {
    let mut core = PollCore::start(alloc, &[Some(PRIMARY)], 0).expect(rt, "no error");
    let polling = Polling::Done {
        refresh: 3_600,
        retry: 60,
    };
    core.polled(1, polling, 0);
    core
}

// Whether a message of a client is answered so at the second 5, or not at all where the reply is empty, and the zone is then due or
// isn't.
fn is_answered<R: Abort>(
    rt: &R,
    alloc: Global,
    client: Addr,
    message: &[u8],
    reply: &[u8],
    due: Option<u32>,
) -> bool {
    let origin = Name::from_text(alloc, b"rpz.example").expect(rt, "no error");
    let mut core = polled(rt, alloc);
    let same = match core
        .notify(alloc, true, message, client, 5, &[origin])
        .expect(rt, "no error")
    {
        Notified::Reply(octets) => octets.as_slice() == reply,
        Notified::Silent => reply.is_empty(),
    };
    same && core.due(5) == due
}

#[test]
fn a_primary_brings_its_zone_forward(rt: HostRuntime) {
    for (client, message, reply, due) in [
        (PRIMARY, NOTIFY, TAKEN, Some(1)),
        (STRANGER, NOTIFY, REFUSED, None),
        (PRIMARY, RESPONSE, NOTHING, None),
    ] {
        assert!(rt; is_answered(&rt, rt.alloc(), client, message, reply, due));
    }
}
