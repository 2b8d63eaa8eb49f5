//! The chain of aliases that an answer shows.

ghost use Rattle.std.specs.Prelude.{◌≡◌, ◌≤◌, ◌∷◌, [], length, IfOk, IfSome};
ghost use Rattle.std.specs.List.{list_any};
ghost use Rattle.upstream_link.specs.Chain as form;
ghost use Rattle.upstream_link.specs.Chain.{chain_from};
ghost use Rattle.upstream_link.specs.declared.fact.Fact.TheVariants as answers;

use crate::answer::Answer;
use crate::fact::Fact;
use crate::names::Names;
use dns_message::{Question, RecordRefs};
use dns_name::{Name, NameError};
use dns_record::{Record, RecordRef, rtype};
use std::alloc::{AllocError, Global};

/// How many names a chain of aliases has at most, the name of the question among them.
pub const CHAIN_LIMIT: usize = 16;

/// Whether a question of this type asks for an alias itself: it is CNAME or ANY.
pub fn asks_alias(qtype: u16) -> bool
    ensures { result ≡ form.asks_alias qtype }
{
    qtype == rtype::CNAME || qtype == rtype::ANY
}

// Whether the record is a CNAME record.
fn is_alias(rr: &Record) -> bool
    ensures { result ≡ form.is_alias rr.now }
{
    rr.rtype() == rtype::CNAME
}

/// Whether some record is a CNAME record. Its time is linear in the number of records.
pub(crate) fn has_alias(records: &[Record]) -> bool
    ensures { result ≡ list_any form.is_alias records.now }
{
    records.iter().any(is_alias)
}

/// The alias of a name among these records: the first CNAME record of this owner, whatever its case. Its time is linear
/// in the number of records.
pub fn alias_of<'r>(records: &RecordRefs<'r>, name: &Name) -> Option<RecordRef<'r>>
    ensures { result ≡ form.alias_of records.now name.now }
{
    for rr in records.iter() {
        if is_alias_of(name, &rr) {
            return Some(rr);
        }
    }
    None
}

// Whether the record is an alias of this owner.
fn is_alias_of(owner: &Name, rr: &RecordRef<'_>) -> bool
    ensures { result ≡ form.is_alias_of owner.now rr.now }
{
    rr.rtype() == rtype::CNAME && rr.owner().is_same(owner)
}

/// The name that the data of a record begins with; `None` where it begins with none.
pub(crate) fn name_in(alloc: Global, rr: RecordRef<'_>) -> Result<Option<Name>, AllocError>
    ensures { IfOk result (λ name. name ≡ form.name_in rr.entry) }
{
    match Name::read(alloc, rr.rdata(), 0) {
        Ok((name, _)) => Ok(Some(name)),
        Err(NameError::OutOfMemory) => Err(AllocError),
        Err(NameError::Fault(_)) => Ok(None),
    }
}

// Whether the name is one of these, whatever its case.
fn has_name(names: &[Name], name: &Name) -> bool
    ensures { result ≡ form.has_name names.now name.now }
{
    names.iter().any(|other| name.is_same(other))
}

// The name behind `last`, the last one of a chain of these names.
fn next_name(
    alloc: Global,
    records: &RecordRefs<'_>,
    names: &[Name],
    last: &Name,
) -> Result<Option<Name>, AllocError>
    ensures { IfOk result (λ next. next ≡ form.next_name records.now names.now last.now) }
{
    let Some(alias) = alias_of(records, last) else {
        return Ok(None);
    };
    match name_in(alloc, alias)? {
        Some(next) if !has_name(names, &next) => Ok(Some(next)),
        _ => Ok(None),
    }
}

/// The names of the chain that the answer to a question shows, from the name of the question on, each once; `None` where
/// there are more than [`CHAIN_LIMIT`]. The answer to a question for an alias itself shows no chain, nor does a broken one.
/// Its time is linear in the number of records.
pub fn chain(alloc: Global, question: &Question, fact: &Fact) -> Result<Option<Names>, AllocError>
    ensures exact { IfOk result (λ names. names ≡ form.chain question.now fact.now) }
    ensures few { IfOk result (λ names. IfSome names (λ list. length list ≤ CHAIN_LIMIT)) }
{
    match fact {
        Fact::Answer(answer) => chain_in(alloc, question, answer),
        Fact::Broken(_) => Ok(Some(alone(alloc, &question.name)?)),
    }
}

// The chain that an answer shows.
fn chain_in(
    alloc: Global,
    question: &Question,
    answer: &Answer,
) -> Result<Option<Names>, AllocError>
    ensures exact { IfOk result
        (λ names. names ≡ form.chain question.now (answers.Answer answer.now)) }
    ensures few { IfOk result (λ names. IfSome names (λ list. length list ≤ CHAIN_LIMIT)) }
{
    let names = alone(alloc, &question.name)?;
    if asks_alias(question.qtype) {
        return Ok(Some(names));
    }
    follow(alloc, &answer.answers(), names, &question.name)
}

// The name alone.
fn alone(alloc: Global, name: &Name) -> Result<Names, AllocError>
    ensures { IfOk result (λ names. names ≡ name.now ∷ []) }
{
    let mut names = Names::new(alloc);
    names.push(name.clone()?)?;
    Ok(names)
}

// A copy of the name. The contract of `clone` speaks of the bytes inside.
fn copy_of(name: &Name) -> Result<Name, AllocError>
    ensures { IfOk result (λ copy. copy ≡ name.now) }
{
    name.clone()
}

// The chain behind its first name.
fn follow(
    alloc: Global,
    records: &RecordRefs<'_>,
    first: Names,
    name: &Name,
) -> Result<Option<Names>, AllocError>
    requires { first ≡ name.now ∷ [] }
    ensures exact { IfOk result
        (λ names. names ≡ chain_from CHAIN_LIMIT records.now first name.now) }
    ensures few { IfOk result (λ names. IfSome names (λ list. length list ≤ CHAIN_LIMIT)) }
{
    let mut names = first;
    let mut last = copy_of(name)?;
    for _ in 0..CHAIN_LIMIT {
        match next_name(alloc, records, names.as_slice(), &last)? {
            None => return Ok(Some(names)),
            Some(next) => {
                last = copy_of(&next)?;
                names.push(next)?;
            }
        }
    }
    Ok(None)
}
