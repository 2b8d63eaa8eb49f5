//! The next turn of a query, by what is known.

ghost use Rattle.std.specs.Prelude.{◌≡◌, ◌≤◌, [], ◌∷◌, length, take, drop, true, Some, option_map, IfOk, IfSome};
ghost use Rattle.dns_message.specs.declared.question.Question.{Question};
ghost use Rattle.policy_snapshot.specs.Next.{next, next_along, next_at, next_behind, next_in_chain};
ghost use Rattle.policy_snapshot.specs.Rules.{rules};
ghost use Rattle.policy_snapshot.specs.Stands.{policy_in};
ghost use Rattle.query_session.specs.Session.{PassesName, turn_by_next, within_fact_limit};
ghost use Rattle.reply_build.specs.Short.{SaysShort};
ghost use Rattle.upstream_link.specs.Chain as chains;
ghost use Rattle.upstream_link.specs.Facts.{fact_about};
ghost use Rattle.upstream_link.specs.Question as questions;
ghost use Rattle.upstream_link.specs.declared.aliases.TheConstants as limits;

use dns_message::{Query, reply_limit};
use dns_name::Name;
use policy_snapshot::Snapshot;
use reply_build::{Turn, Verdict, build};
use std::alloc::{AllocError, Global};
use upstream_link::laws::an_answer_without_aliases_shows_no_chain;
use upstream_link::{FACT_LIMIT, Fact, Facts, chain, main_question};

/// What is done about a query, and whether it passes its own name: nothing is hit there, and nothing is pending. Where it is known
/// to, the rules aren't looked at for that name.
#[inline(always)]
pub(crate) fn turn_about(
    alloc: Global,
    key: u64,
    policy: &Snapshot,
    query: &Query,
    facts: &Facts,
    passed: bool,
) -> Result<(Turn, bool), AllocError>
    requires { passed ≡ true → PassesName (policy_in policy.now) query.now facts.now }
    ensures turn { IfOk result (λ turn. turn.0
        ≡ within_fact_limit query.now facts.now
        (turn_by_next query.now facts.now (next (policy_in policy.now) query.now facts.now))) }
    ensures passes { IfOk result
        (λ turn. turn.1 ≡ true → PassesName (policy_in policy.now) query.now facts.now) }
    ensures short { IfOk result (λ turn. SaysShort turn.0) }
{
    let (turn, passes) = unlimited_turn(alloc, key, policy, query, facts, passed)?;
    Ok((limited(alloc, key, query, facts, turn)?, passes))
}

// A question is asked while there is room for one fact more.
#[inline(always)]
fn limited(
    alloc: Global,
    key: u64,
    query: &Query,
    facts: &Facts,
    turn: Turn,
) -> Result<Turn, AllocError>
    requires { SaysShort turn }
    ensures turn { IfOk result (λ limited. limited ≡ within_fact_limit query.now facts.now turn) }
    ensures short { IfOk result SaysShort }
{
    match turn {
        Turn::Said(said) => Ok(Turn::Said(said)),
        Turn::Ask(question) => {
            if facts.len() < FACT_LIMIT {
                Ok(Turn::Ask(question))
            } else {
                build(alloc, key, query, Verdict::Fail, facts, reply_limit(query))
            }
        }
    }
}

// What is done about a query, however many facts are known, and whether it passes its own name.
#[inline(always)]
fn unlimited_turn(
    alloc: Global,
    key: u64,
    policy: &Snapshot,
    query: &Query,
    facts: &Facts,
    passed: bool,
) -> Result<(Turn, bool), AllocError>
    requires { passed ≡ true → PassesName (policy_in policy.now) query.now facts.now }
    ensures turn { IfOk result (λ turn. turn.0
        ≡ turn_by_next query.now facts.now (next (policy_in policy.now) query.now facts.now)) }
    ensures passes { IfOk result
        (λ turn. turn.1 ≡ true → PassesName (policy_in policy.now) query.now facts.now) }
    ensures short { IfOk result (λ turn. SaysShort turn.0) }
{
    if passed {
        return Ok((turn_behind(alloc, key, policy, query, facts)?, true));
    }
    match turn_at(alloc, key, policy, query, facts, &[], &query.question.name)? {
        Some(turn) => Ok((turn, false)),
        None => Ok((turn_behind(alloc, key, policy, query, facts)?, true)),
    }
}

// What is done at a name of the chain of aliases, behind these names; `None` where nothing is pending there and no rule
// is hit.
fn turn_at(
    alloc: Global,
    key: u64,
    policy: &Snapshot,
    query: &Query,
    facts: &Facts,
    before: &[Name],
    name: &Name,
) -> Result<Option<Turn>, AllocError>
    requires { length before.now ≤ limits.CHAIN_LIMIT }
    ensures turn { IfOk result (λ turn. turn ≡ option_map (turn_by_next query.now facts.now)
        (next_at (rules (policy_in policy.now)) query.now facts.now before.now name.now)) }
    ensures short { IfOk result (λ turn. IfSome turn SaysShort) }
{
    match policy.best(alloc, query, facts, before.len() as u32, name) {
        Err(error) => Err(error),
        Ok(hit) => match policy.pending(alloc, query, facts, name, &hit)? {
            Some(question) => Ok(Some(Turn::Ask(question))),
            None => match &hit {
                None => Ok(None),
                Some(hit) => {
                    let verdict = Verdict::Hit {
                        action: &hit.action,
                        soa: hit.soa,
                        before,
                        name,
                    };
                    Ok(Some(build(alloc, key, query, verdict, facts, reply_limit(query))?))
                }
            },
        },
    }
}

// What is done where no rule is hit at the name of the query.
fn turn_behind(
    alloc: Global,
    key: u64,
    policy: &Snapshot,
    query: &Query,
    facts: &Facts,
) -> Result<Turn, AllocError>
    ensures turn { IfOk result (λ turn. turn ≡ turn_by_next query.now facts.now
        (next_behind (rules (policy_in policy.now)) query.now facts.now
        (fact_about facts.now (questions.main_question query.now)))) }
    ensures short { IfOk result SaysShort }
{
    match facts.get(&query.question.name, query.question.qtype) {
        None => Ok(Turn::Ask(main_question(query)?)),
        Some(fact) => turn_by_fact(alloc, key, policy, query, facts, fact),
    }
}

// What is done where no rule is hit at the name of the query, and this is known of the query's own question.
fn turn_by_fact(
    alloc: Global,
    key: u64,
    policy: &Snapshot,
    query: &Query,
    facts: &Facts,
    fact: &Fact,
) -> Result<Turn, AllocError>
    ensures turn { IfOk result (λ turn. turn ≡ turn_by_next query.now facts.now
        (next_in_chain (rules (policy_in policy.now)) query.now facts.now
        (chains.chain (questions.main_question query.now) fact.now))) }
    ensures short { IfOk result SaysShort }
{
    if has_no_alias(fact) {
        return build(alloc, key, query, Verdict::Pass, facts, reply_limit(query));
    }
    match chain(alloc, &query.question, fact)? {
        None => build(alloc, key, query, Verdict::Fail, facts, reply_limit(query)),
        Some(names) => turn_along(alloc, key, policy, query, facts, names.as_slice()),
    }
}

// Whether it is an answer without a CNAME record, which shows no chain but the name that was asked for.
fn has_no_alias(fact: &Fact) -> bool
    ensures { result ≡ true → (question : Question) →
        chains.chain question fact.now ≡ Some (question.name ∷ []) }
{
    an_answer_without_aliases_shows_no_chain();
    match fact {
        Fact::Answer(answer) => !answer.has_alias(),
        Fact::Broken(_) => false,
    }
}

// What is done along the names of a chain, behind the first of them.
fn turn_along(
    alloc: Global,
    key: u64,
    policy: &Snapshot,
    query: &Query,
    facts: &Facts,
    names: &[Name],
) -> Result<Turn, AllocError>
    requires { length names.now ≤ limits.CHAIN_LIMIT }
    ensures turn { IfOk result (λ turn. turn ≡ turn_by_next query.now facts.now
        (next_along (rules (policy_in policy.now)) query.now facts.now
        (take 1 names.now) (drop 1 names.now))) }
    ensures short { IfOk result SaysShort }
{
    for place in 1..names.len() {
        if let Some(turn) = turn_at(
            alloc,
            key,
            policy,
            query,
            facts,
            &names[..place],
            &names[place],
        )? {
            return Ok(turn);
        }
    }
    build(alloc, key, query, Verdict::Pass, facts, reply_limit(query))
}
