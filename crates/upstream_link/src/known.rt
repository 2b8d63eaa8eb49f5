//! A fact beside its question.

ghost use Rattle.std.specs.Prelude.{◌≡◌, IfOk, IfErr};
ghost use Rattle.upstream_link.specs.Entries.{has_some};
ghost use Rattle.upstream_link.specs.Known.{AreInOrder, HaveSameMembers, named_servers};

use crate::fact::Fact;
use crate::name_servers::push_servers;
use crate::names::Names;
use dns_message::Question;
use dns_record::rtype;
use std::alloc::{AllocError, AllocFailed, Global};
use std::marker::Model;

/// A fact beside the question that it answers, and the servers that it names if the question is for NS records. Contracts see
/// these.
#[derive(Debug, Drop)]
pub(crate) struct Known {
    question: Question,
    fact: Fact,
    // In canonical order, each once, in lower case.
    servers: Names,
}

impl Model for Known {
    ghost use Rattle.upstream_link.specs.Known.{HasServers, PlainKnown};

    ghost Value = { PlainKnown };

    ghost view = { λ k. record { question = k.question; fact = k.fact; servers = k.servers } };

    ghost invariant = { λ k. HasServers
        (record { question = k.question; fact = k.fact; servers = k.servers }) };
}

impl Known {
    /// The fact beside its question, with its servers. An `Err` gives the question back and drops the fact.
    pub(crate) fn new(
        alloc: Global,
        question: Question,
        fact: Fact,
    ) -> Result<Known, AllocFailed<Question>>
        ensures question { IfOk result (λ known. known.question ≡ question) }
        ensures fact { IfOk result (λ known. known.fact ≡ fact) }
        ensures err { IfErr result (λ refused. refused.value ≡ question) }
    {
        match servers_in_order(alloc, &question, &fact) {
            Ok(servers) => Ok(Known {
                question,
                fact,
                servers,
            }),
            Err(AllocError) => Err(AllocFailed { value: question }),
        }
    }

    /// The question and the fact.
    pub(crate) fn into_parts(self) -> (Question, Fact)
        ensures { result ≡ (self.question, self.fact) }
    {
        (self.question, self.fact)
    }

    /// The question.
    pub(crate) fn question(&self) -> &Question
        ensures { result.now ≡ self.now.question }
    {
        &self.question
    }

    /// The fact.
    pub(crate) fn fact(&self) -> &Fact
        ensures { result.now ≡ self.now.fact }
    {
        &self.fact
    }

    /// Whether the fact names a server.
    pub(crate) fn has_servers(&self) -> bool
        ensures { result ≡ has_some (named_servers self.now.question self.now.fact) }
    {
        self.servers.len() > 0
    }

    /// The servers.
    pub(crate) fn servers(&self) -> &Names
        ensures order { AreInOrder result.now }
        ensures same { HaveSameMembers result.now (named_servers self.now.question self.now.fact) }
    {
        &self.servers
    }
}

/// The servers that a fact names, in canonical order, each once, in lower case: those in the NS records of the name that was
/// asked for. It takes no memory where the question isn't for NS records. Its time is n log n in the number of records.
pub(crate) fn servers_in_order(
    alloc: Global,
    question: &Question,
    fact: &Fact,
) -> Result<Names, AllocError>
    ensures order { IfOk result AreInOrder }
    ensures same { IfOk result
        (λ names. HaveSameMembers names (named_servers question.now fact.now)) }
{
    let mut names = servers_named(alloc, question, fact)?;
    names.sort();
    names.dedup();
    Ok(names)
}

// The servers that a fact names, in the order of its records.
fn servers_named(alloc: Global, question: &Question, fact: &Fact) -> Result<Names, AllocError>
    ensures { IfOk result (λ names. names ≡ named_servers question.now fact.now) }
{
    let mut names = Names::new(alloc);
    if question.qtype != rtype::NS {
        return Ok(names);
    }
    match fact {
        Fact::Answer(answer) => {
            push_servers(alloc, &question.name, answer.answers(), &mut names)?;
            Ok(names)
        }
        Fact::Broken(_) => Ok(names),
    }
}
