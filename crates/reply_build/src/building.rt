//! The reply to a verdict, or the question that the reply needs.

ghost use Rattle.std.specs.Prelude.{◌≡◌, ◌≤◌, IfOk};
ghost use Rattle.action_codec.specs.Seen.{action_seen};
ghost use Rattle.reply_build.specs.Parts.{decision_seen};
ghost use Rattle.reply_build.specs.Reply as form;
ghost use Rattle.reply_build.specs.Reply.{outcome_turn, reply};
ghost use Rattle.reply_build.specs.Seen.{place_seen};
ghost use Rattle.reply_build.specs.Short.{SaysShort};
ghost use Rattle.reply_build.specs.Verdict.{verdict_of};
ghost use Rattle.upstream_link.specs.Chain.{chain_aliases};
ghost use Rattle.upstream_link.specs.Facts.{main_records};

use crate::local::local_outcome;
use crate::parts::{Decision, ReplyParts};
use crate::place::HitPlaceRef;
use crate::reply::{main_outcome, server_failure, truncation};
use crate::said::Said;
use crate::turn::Turn;
use crate::verdict::Verdict;
use crate::writing::{ReplyFrame, write_reply};
use action_codec::ActionRef;
use dns_message::{GREATEST_LIMIT, LEAST_LIMIT, Query, RecordRefs};
use dns_name::Name;
use dns_record::Record;
use ip_prefix::Transport;
use std::alloc::{AllocError, Global};
use upstream_link::Facts;

/// The question whose answer the reply needs and that isn't known, or else the reply, or silence. The names of a reply are
/// compressed. One that is longer than the limit of 512 to 65,535 bytes is truncated: the same rcode, TC 1, the question and the
/// OPT record alone.
///
/// The key seeds a hash of the names in the reply, and is to be unknown to those who send the names: see
/// [`dns_message::MessageWriter::start`].
pub fn build(
    alloc: Global,
    key: u64,
    query: &Query,
    verdict: Verdict<'_>,
    facts: &Facts,
    limit: usize,
) -> Result<Turn, AllocError>
    requires low { LEAST_LIMIT ≤ limit }
    requires high { limit ≤ GREATEST_LIMIT }
    ensures turn { IfOk result
        (λ turn. turn ≡ reply limit query.now (verdict_of verdict.entry) facts.now) }
    ensures short { IfOk result SaysShort }
{
    let frame = ReplyFrame {
        alloc,
        key,
        query,
        limit,
    };
    match verdict {
        Verdict::Pass => turn_of(frame, main_outcome(query, facts)?),
        Verdict::Fail => turn_of(frame, server_failure()),
        Verdict::Hit {
            action,
            soa,
            before,
            name,
        } => {
            let records = records_behind(query, facts, before);
            let place = HitPlaceRef {
                records: &records,
                age: facts.age(&query.question.name, query.question.qtype),
                before,
                name,
                soa,
            };
            turn_of(frame, by_action(alloc, query, facts, &place, action)?)
        }
    }
}

// The turn of what is decided.
fn turn_of<'n>(frame: ReplyFrame<'n>, decision: Decision<'n>) -> Result<Turn, AllocError>
    requires low { LEAST_LIMIT ≤ frame.limit }
    requires high { frame.limit ≤ GREATEST_LIMIT }
    ensures turn { IfOk result (λ turn. turn
        ≡ outcome_turn frame.entry.limit frame.entry.query.now
        (decision_seen frame.entry.query.now decision.entry)) }
    ensures short { IfOk result SaysShort }
{
    match decision {
        Decision::Needs(question) => Ok(Turn::Ask(question)),
        Decision::Gives(parts) => Ok(Turn::Said(Said::Reply(write_reply(frame, parts)?))),
        Decision::Silent => Ok(Turn::Said(Said::Silent)),
    }
}

// The records in which the aliases of these names stand: those of the answer to the query. Where there are no names, it
// isn't looked for.
fn records_behind<'f>(query: &Query, facts: &'f Facts, before: &[Name]) -> RecordRefs<'f>
    ensures { chain_aliases result before.now
        ≡ chain_aliases (main_records query.now facts.now) before.now }
{
    if before.is_empty() {
        return RecordRefs::none();
    }
    facts.records(&query.question.name, query.question.qtype)
}

// What a rule's action comes to.
fn by_action<'a>(
    alloc: Global,
    query: &Query,
    facts: &'a Facts,
    place: &'a HitPlaceRef<'a>,
    action: &'a ActionRef<'a>,
) -> Result<Decision<'a>, AllocError>
    ensures { IfOk result (λ decision. decision_seen query.now decision
        ≡ form.by_action query.now facts.now (place_seen place.now)
        (action_seen action.now)) }
{
    match action {
        ActionRef::NxDomain => Ok(denial(3, place)),
        ActionRef::NoData => Ok(denial(0, place)),
        ActionRef::PassThru => main_outcome(query, facts),
        ActionRef::Drop => Ok(Decision::Silent),
        ActionRef::TcpOnly => tcp_only_outcome(query, facts),
        ActionRef::Local(rows) => local_outcome(alloc, query, rows, place, facts),
    }
}

// There is no answer by the policy: the name doesn't exist (rcode 3), or has no records of the type (rcode 0).
fn denial<'a>(rcode: u8, place: &'a HitPlaceRef<'a>) -> Decision<'a>
    ensures { (query : Query) → decision_seen query result
        ≡ form.gives (form.denial rcode (place_seen place.now)) }
{
    Decision::Gives(ReplyParts::ByRule {
        rcode,
        place,
        rows: None,
    })
}

// What TCP-Only comes to.
fn tcp_only_outcome<'a>(query: &Query, facts: &'a Facts) -> Result<Decision<'a>, AllocError>
    ensures { IfOk result (λ decision. decision_seen query.now decision
        ≡ form.tcp_only_outcome query.now facts.now) }
{
    if over_tcp(query.transport) {
        main_outcome(query, facts)
    } else {
        Ok(truncation())
    }
}

// Whether a message came over TCP.
fn over_tcp(transport: Transport) -> bool
    ensures { result ≡ form.over_tcp transport }
{
    match transport {
        Transport::Udp => false,
        Transport::Tcp => true,
    }
}
