//! Replies without a rule's records.

ghost use Rattle.std.specs.Prelude.{◌≡◌, option_copied, IfOk};
ghost use Rattle.reply_build.specs.Parts.{decision_seen};
ghost use Rattle.reply_build.specs.Reply as form;
ghost use Rattle.upstream_link.specs.Question.{main_question as question_about};

use crate::parts::{Decision, ReplyParts};
use dns_message::Query;
use std::alloc::AllocError;
use upstream_link::{Fact, Facts, main_question};

/// The client is to ask again over TCP.
pub fn truncation<'a>() -> Decision<'a>
    ensures { (query : Query) → decision_seen query result ≡ form.gives form.truncation }
{
    Decision::Gives(ReplyParts::Bare { tc: true, rcode: 0 })
}

/// There is no answer.
pub fn server_failure<'a>() -> Decision<'a>
    ensures { (query : Query) → decision_seen query result ≡ form.gives form.server_failure }
{
    Decision::Gives(ReplyParts::Bare {
        tc: false,
        rcode: 2,
    })
}

// What is known of the query's own question passes.
fn pass_outcome<'a>(query: &Query, fact: Option<&'a Fact>) -> Result<Decision<'a>, AllocError>
    ensures { IfOk result (λ decision. decision_seen query.now decision
        ≡ form.pass_outcome (question_about query.now) (option_copied fact.entry)) }
{
    match fact {
        None => Ok(Decision::Needs(main_question(query)?)),
        Some(Fact::Broken(_)) => Ok(server_failure()),
        Some(Fact::Answer(answer)) => Ok(Decision::Gives(ReplyParts::Passed(answer))),
    }
}

/// The answer of the upstream to the query's own question passes.
pub fn main_outcome<'a>(query: &Query, facts: &'a Facts) -> Result<Decision<'a>, AllocError>
    ensures { IfOk result (λ decision. decision_seen query.now decision
        ≡ form.main_outcome query.now facts.now) }
{
    let fact = facts.get(&query.question.name, query.question.qtype);
    pass_outcome(query, fact)
}
