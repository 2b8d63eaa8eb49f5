//! Replies with local data (draft-vixie-dnsop-dns-rpz, section 3.6).

ghost use Rattle.std.specs.Prelude.{◌≡◌, option_copied, IfOk};
ghost use Rattle.reply_build.specs.Parts.{decision_seen};
ghost use Rattle.reply_build.specs.Reply as form;
ghost use Rattle.reply_build.specs.Seen.{place_seen};
ghost use Rattle.upstream_link.specs.Question.{question_of as question_about};

use crate::parts::{Decision, ReplyParts};
use crate::place::HitPlaceRef;
use crate::reply::server_failure;
use crate::target::{alias_in, target_of};
use action_codec::LocalRef;
use dns_message::{Query, Question};
use dns_name::Name;
use dns_record::class;
use std::alloc::{AllocError, Global};
use upstream_link::{Fact, Facts, asks_alias};

// The question about the target of an alias.
fn question_of(target: Name, qtype: u16) -> Question
    ensures { result ≡ question_about target qtype }
{
    Question {
        name: target,
        qtype,
        qclass: class::IN,
    }
}

// An alias, by what is known of its target.
fn alias_outcome<'a>(
    query: &Query,
    ttl: u32,
    target: Name,
    place: &'a HitPlaceRef<'a>,
    fact: Option<&'a Fact>,
) -> Decision<'a>
    ensures { decision_seen query.now result
        ≡ form.alias_outcome query.now ttl target (place_seen place.now)
        (option_copied fact.entry) }
{
    match fact {
        None => Decision::Needs(question_of(target, query.question.qtype)),
        Some(Fact::Broken(_)) => server_failure(),
        Some(Fact::Answer(answer)) => Decision::Gives(ReplyParts::ByAlias {
            place,
            ttl,
            target,
            answer: Some(answer),
        }),
    }
}

// An alias to this target.
fn target_outcome<'a>(
    query: &Query,
    ttl: u32,
    place: &'a HitPlaceRef<'a>,
    facts: &'a Facts,
    target: Option<Name>,
) -> Decision<'a>
    ensures { decision_seen query.now result
        ≡ form.target_outcome query.now ttl (place_seen place.now) facts.now target }
{
    let Some(target) = target else {
        return server_failure();
    };
    if asks_alias(query.question.qtype) {
        return Decision::Gives(ReplyParts::ByAlias {
            place,
            ttl,
            target,
            answer: None,
        });
    }
    let fact = facts.get(&target, query.question.qtype);
    alias_outcome(query, ttl, target, place, fact)
}

/// Local data, or the alias that it is.
pub fn local_outcome<'a>(
    alloc: Global,
    query: &Query,
    rows: &'a LocalRef<'a>,
    place: &'a HitPlaceRef<'a>,
    facts: &'a Facts,
) -> Result<Decision<'a>, AllocError>
    ensures { IfOk result (λ decision. decision_seen query.now decision
        ≡ form.local_outcome query.now rows.now (place_seen place.now) facts.now) }
{
    match alias_in(rows) {
        None => Ok(Decision::Gives(ReplyParts::ByRule {
            rcode: 0,
            place,
            rows: Some(rows),
        })),
        Some(row) => {
            let target = target_of(alloc, place.name, row.rdata)?;
            Ok(target_outcome(query, row.ttl, place, facts, target))
        }
    }
}
