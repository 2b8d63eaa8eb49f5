//! What a NOTIFY is answered, and which zone it is about.

ghost use Rattle.std.specs.Prelude.{◌≡◌, IfOk, position};
ghost use Rattle.dns_name.specs.Alike.{same_name};
ghost use Rattle.notify_poll.specs.Notifying.{answer_to, is_of_primary as of_some_primary, is_primary as of_primary, place_from as from_primary, version_answer, zone_answer, zone_noted as place_of};

use crate::timer::Timer;
use dns_message::{
    BAD_VERSION, Edns, FORMAT_ERROR, Header, Message, NO_ERROR, NOT_IMPLEMENTED, Question, REFUSED,
    has_later_version, read_header, read_query_parts, refusal, reply_edns, speaks, turned_away,
};
use dns_name::{Name, Octets};
use dns_record::{class, rtype};
use ip_prefix::Addr;
use std::alloc::{AllocError, Global};

/// The opcode of a NOTIFY (RFC 1996, section 3.1).
pub const NOTIFY: u8 = 4;

/// What the bytes of a NOTIFY are answered.
#[derive(Debug, Drop)]
pub enum Notified {
    /// This reply is sent.
    Reply(Octets),
    /// Nothing is sent.
    Silent,
}

/// The reply to these bytes of a client, and the place of the zone that they bring forward. In this order:
///
/// - none for under 12 bytes, and for a response;
/// - what [`turned_away`] says, for a client that may not ask and isn't the primary of a zone;
/// - the response code 4 (not implemented) and the header alone for an opcode other than NOTIFY;
/// - 1 (format error) and the header alone where the bytes are no message, or one without a question;
/// - 16 (bad version; RFC 6891, section 9) for an OPT record of a version over 0;
/// - 5 (refused) where the question isn't for the SOA record of class IN of a zone's origin, or the client isn't the zone's primary;
/// - else 0, and the zone is brought forward.
#[tactic(auto, unfolding(crate::specs::Notifying::answer_to))]
pub(crate) fn answer(
    alloc: Global,
    may_ask: bool,
    bytes: &[u8],
    client: Addr,
    origins: &[Name],
    timers: &[Timer],
) -> Result<(Option<Message>, Option<usize>), AllocError>
    ensures { IfOk result (λ a. a ≡ answer_to may_ask bytes.now client origins.now timers.now) }
{
    if !speaks(bytes) {
        return Ok((None, None));
    }
    if !may_ask && !is_of_primary(timers, client) {
        return Ok((Some(turned_away(alloc, bytes)?), None));
    }
    let header = read_header(bytes);
    if header.opcode != NOTIFY {
        return Ok((
            Some(refusal(alloc, NOT_IMPLEMENTED, &header, None, None)),
            None,
        ));
    }
    match read_query_parts(alloc, bytes)? {
        None => Ok((
            Some(refusal(alloc, FORMAT_ERROR, &header, None, None)),
            None,
        )),
        Some((question, edns)) => {
            let place = zone_noted(origins, timers, client, &question);
            Ok(by_version(alloc, &header, question, edns, place))
        }
    }
}

// The reply to a well formed NOTIFY whose question is about the zone of this place, or of none.
fn by_version(
    alloc: Global,
    header: &Header,
    question: Question,
    edns: Option<Edns>,
    place: Option<usize>,
) -> (Option<Message>, Option<usize>)
    ensures { result ≡ version_answer header.now question edns place }
{
    if has_later_version(edns) {
        let edns = reply_edns(BAD_VERSION, edns.as_ref());
        return (
            Some(refusal(alloc, NO_ERROR, header, Some(question), edns)),
            None,
        );
    }
    by_zone(alloc, header, question, edns, place)
}

fn by_zone(
    alloc: Global,
    header: &Header,
    question: Question,
    edns: Option<Edns>,
    place: Option<usize>,
) -> (Option<Message>, Option<usize>)
    ensures { result ≡ zone_answer header.now question edns place }
{
    let edns = reply_edns(0, edns.as_ref());
    match place {
        None => (
            Some(refusal(alloc, REFUSED, header, Some(question), edns)),
            None,
        ),
        Some(place) => {
            let reply = refusal(alloc, NO_ERROR, header, Some(question), edns);
            (Some(reply), Some(place))
        }
    }
}

// The place of the zone that the question of a NOTIFY from this client is about.
fn zone_noted(
    origins: &[Name],
    timers: &[Timer],
    client: Addr,
    question: &Question,
) -> Option<usize>
    ensures { result ≡ place_of origins.now timers.now client question.now }
{
    if question.qtype != rtype::SOA || question.qclass != class::IN {
        return None;
    }
    place_from(timers, client, place_of_origin(origins, &question.name))
}

// The place of the first origin that is this name.
fn place_of_origin(origins: &[Name], name: &Name) -> Option<usize>
    ensures { result ≡ position (same_name name.now) origins.now }
{
    origins.iter().position(|origin| name.is_same(origin))
}

// This place, where the client is the primary of its zone.
fn place_from(timers: &[Timer], client: Addr, place: Option<usize>) -> Option<usize>
    ensures { result ≡ from_primary timers.now client place }
{
    match timers.get(place?) {
        Some(timer) if is_primary(timer.primary, client) => place,
        _ => None,
    }
}

// Whether the client is the primary of some zone.
fn is_of_primary(timers: &[Timer], client: Addr) -> bool
    ensures { result ≡ of_some_primary timers.now client }
{
    timers.iter().any(|timer| is_primary(timer.primary, client))
}

// Whether the client is the primary.
fn is_primary(primary: Option<Addr>, client: Addr) -> bool
    ensures { result ≡ of_primary primary client }
{
    match (primary, client) {
        (Some(Addr::V4(a)), Addr::V4(b)) => a == b,
        (Some(Addr::V6(a)), Addr::V6(b)) => a == b,
        _ => false,
    }
}
