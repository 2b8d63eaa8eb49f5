//! What must be asked before the servers of a name, and their addresses, are known.

ghost use Rattle.std.specs.Prelude.{◌≡◌, not, option_copied, IfOk};
ghost use Rattle.std.specs.List.{find};
ghost use Rattle.upstream_link.specs.Facts as known;
ghost use Rattle.upstream_link.specs.Question as questions;
ghost use Rattle.policy_snapshot.specs.Asking as form;
ghost use Rattle.policy_snapshot.specs.Next as next;

use dns_message::Question;
use dns_name::Name;
use dns_record::{class, rtype};
use std::alloc::{AllocError, Global};
use upstream_link::{Facts, ServerLists, ancestors, known_servers};

/// The first NS question, of the name and those above it from two labels upward, whose answer isn't known.
pub(crate) fn unknown_owner(
    alloc: Global,
    facts: &Facts,
    name: &Name,
) -> Result<Option<Question>, AllocError>
    ensures { IfOk result (λ question. question
        ≡ next.first_unknown facts.now (next.server_questions name.now)) }
{
    let owners = ancestors(alloc, name)?;
    match first_owner(facts, owners.as_slice()) {
        None => Ok(None),
        Some(owner) => Ok(Some(question_of(owner, rtype::NS)?)),
    }
}

// The first of these names whose NS question isn't answered.
fn first_owner<'n>(facts: &Facts, owners: &'n [Name]) -> Option<&'n Name>
    ensures { option_copied result ≡ find (λ owner.
        not (known.is_known facts.now (questions.question_of owner 2))) owners.now }
{
    owners
        .iter()
        .find(|owner| !is_known(facts, owner, rtype::NS))
}

/// The question about the addresses of the first server, in canonical order, whose addresses aren't all known.
pub(crate) fn unknown_address(
    alloc: Global,
    facts: &Facts,
    name: &Name,
) -> Result<Option<Question>, AllocError>
    ensures { IfOk result (λ question. question ≡ next.unknown_address facts.now name.now) }
{
    let lists = known_servers(alloc, facts, name)?;
    match first_server(facts, &lists) {
        None => Ok(None),
        Some(server) => Ok(Some(address_question(facts, server)?)),
    }
}

// The first of these servers, in canonical order, whose addresses aren't all known.
fn first_server<'n>(facts: &Facts, lists: &'n ServerLists<'_>) -> Option<&'n Name>
    ensures { option_copied result ≡ form.first_server facts.now lists.now }
{
    let mut first = None;
    for list in lists.as_slice() {
        if let Some(server) = first_unknown(facts, list.as_slice()) {
            if comes_first(server, first) {
                first = Some(server);
            }
        }
    }
    first
}

// The first server of a list whose addresses aren't all known.
fn first_unknown<'n>(facts: &Facts, servers: &'n [Name]) -> Option<&'n Name>
    ensures { option_copied result ≡ form.first_unknown_server facts.now servers.now }
{
    servers
        .iter()
        .find(|server| !has_known_addresses(facts, server))
}

// Whether the name comes before the first one so far, in canonical order.
fn comes_first(name: &Name, first: Option<&Name>) -> bool
    ensures { result ≡ form.comes_first name.now (option_copied first.entry) }
{
    match first {
        None => true,
        Some(first) => name.canonical_cmp(first).is_lt(),
    }
}

// Whether both questions about the addresses of a server are answered.
fn has_known_addresses(facts: &Facts, server: &Name) -> bool
    ensures { result ≡ next.has_known_addresses facts.now server.now }
{
    is_known(facts, server, rtype::A) && is_known(facts, server, rtype::AAAA)
}

// The question about the addresses of a server that isn't answered yet.
fn address_question(facts: &Facts, server: &Name) -> Result<Question, AllocError>
    ensures { IfOk result (λ question. question ≡ next.address_question facts.now server.now) }
{
    if is_known(facts, server, rtype::A) {
        question_of(server, rtype::AAAA)
    } else {
        question_of(server, rtype::A)
    }
}

/// Whether the question of this name and type is answered.
pub(crate) fn is_known(facts: &Facts, name: &Name, qtype: u16) -> bool
    ensures { result ≡ known.is_known facts.now (questions.question_of name.now qtype) }
{
    facts.knows(name, qtype)
}

// The question of this name and type.
fn question_of(name: &Name, qtype: u16) -> Result<Question, AllocError>
    ensures { IfOk result (λ question. question ≡ questions.question_of name.now qtype) }
{
    Ok(Question {
        name: name.clone()?,
        qtype,
        qclass: class::IN,
    })
}
