//! The facts that are known, each for its question.

ghost use Rattle.std.specs.Prelude.{◌≡◌, ◌↔◌, ◌<◌, ◌≤◌, ℕ, List, [], ◌∷◌, ◌++◌, length, take, option_copied, None, Some, false, IsSome, IfSome, MatchOption, OnOk, IfErr};
ghost use Rattle.std.specs.List.{list_any};
ghost use Rattle.std.specs.Option.{option_map, option_to_list};
ghost use Rattle.upstream_link.specs.Entries.{entries_of, entry_of, has_some, known_about};
ghost use Rattle.upstream_link.specs.Fact as form;
ghost use Rattle.upstream_link.specs.Facts.{AreFacts, AreKept, age_of, fact_about, is_known, records_about};
ghost use Rattle.upstream_link.specs.Known.{AreInOrder, HaveSameMembers, named_servers};
ghost use Rattle.upstream_link.specs.Question.{question_of};
ghost use Rattle.upstream_link.specs.Servers.{servers, servers_at};

use crate::fact::Fact;
use crate::known::Known;
use crate::names::Names;
use dns_message::{Question, RecordRefs};
use dns_name::Name;
use dns_record::{class, rtype};
use std::alloc::{AllocFailed, Global};
use std::marker::Model;

/// How many facts are obtained for a query at most.
pub const FACT_LIMIT: usize = 128;

/// What is known: facts, each beside the question that it answers. No question is answered twice, and there are at most
/// [`FACT_LIMIT`]. Contracts see their list, in the order in which they came.
#[derive(Debug, Drop)]
pub struct Facts {
    alloc: Global,
    facts: Vec<Known>,
}

impl Model for Facts {
    ghost use Rattle.upstream_link.specs.Entries.{entries_of};
    ghost use Rattle.upstream_link.specs.Facts.{AreFacts, PlainFacts};

    ghost Value = { PlainFacts };

    ghost view = { λ f. entries_of f.facts.items };

    ghost invariant = { λ f. AreFacts (entries_of f.facts.items) };
}

impl Facts {
    /// Nothing is known. It takes no memory.
    pub fn new(alloc: Global) -> Self
        ensures { result ≡ [] }
    {
        Facts {
            alloc,
            facts: Vec::new(alloc),
        }
    }

    /// How many facts there are, at most [`FACT_LIMIT`]. What they say is kept of responses: an answer has the rcode NOERROR or
    /// NXDOMAIN, records of class IN, and a SOA record at most.
    pub fn len(&self) -> usize
        ensures count { result ≡ length self.now }
        ensures limit { result ≤ FACT_LIMIT }
        ensures kept { AreKept self.now }
    {
        self.facts.len()
    }

    /// Puts a fact behind the others, of a question that none of them answers, where there is room for it. An `Err` leaves
    /// them as they were, gives the question back and drops the fact.
    pub fn push(&mut self, question: Question, fact: Fact) -> Result<(), AllocFailed<Question>>
        requires fresh { fact_about self.old question ≡ None }
        requires room { length self.old < FACT_LIMIT }
        ensures ok { OnOk result (self.new ≡ self.old ++ (question, fact) ∷ []) }
        ensures err { IfErr result (λ refused. (refused.value ≡ question) × (self.new ≡ self.old)) }
    {
        // called for its clause: what the fact says is kept of a response
        let _life = fact.life();
        let known = Known::new(self.alloc, question, fact)?;
        match self.facts.push(known) {
            Ok(()) => Ok(()),
            Err(refused) => {
                let (question, _dropped) = refused.value.into_parts();
                Err(AllocFailed { value: question })
            }
        }
    }

    /// Takes the last fact out, with its question, which none of the others answers; `None` where nothing is known.
    pub fn pop(&mut self) -> Option<(Question, Fact)>
        ensures some { IsSome result ↔ (0 < length self.old) }
        ensures last { self.old ≡ self.new ++ option_to_list result }
        ensures fresh { IfSome result (λ e. fact_about self.new e.0 ≡ None) }
        ensures room { IfSome result (λ _. length self.new < FACT_LIMIT) }
    {
        let last = self.facts.pop();
        parts_of(last)
    }

    /// Takes all facts out behind the first `len`.
    pub fn truncate(&mut self, len: usize)
        ensures { self.new ≡ take len self.old }
    {
        self.facts.truncate(len);
    }

    /// What is known of the question of this name and type in class IN; names compare without case. Its time
    /// is linear in the number of facts, where names of other lengths are passed over at once.
    pub fn get(&self, name: &Name, qtype: u16) -> Option<&Fact>
        ensures { option_copied result ≡ fact_about self.now (question_of name.now qtype) }
    {
        match find_known(&self.facts, name, qtype) {
            Some(known) => Some(known.fact()),
            None => None,
        }
    }

    /// Whether the question of this name and type in class IN is answered.
    pub fn knows(&self, name: &Name, qtype: u16) -> bool
        ensures { result ≡ is_known self.now (question_of name.now qtype) }
    {
        is_among(&self.facts, name, qtype)
    }

    /// The records of the answer to the question of this name and type in class IN, as far as it is known.
    pub fn records(&self, name: &Name, qtype: u16) -> RecordRefs<'_>
        ensures { result ≡ records_about self.now name.now qtype }
    {
        match self.get(name, qtype) {
            Some(Fact::Answer(answer)) => answer.answers(),
            Some(Fact::Broken(_)) | None => RecordRefs::none(),
        }
    }

    /// How many seconds have passed since the answer came to the question of this name and type in class IN; 0 where there is
    /// none.
    pub fn age(&self, name: &Name, qtype: u16) -> u32
        ensures { result ≡ age_of (fact_about self.now (question_of name.now qtype)) }
    {
        match self.get(name, qtype) {
            Some(Fact::Answer(answer)) => answer.age(),
            Some(Fact::Broken(_)) | None => 0,
        }
    }

    // What is kept of the facts.
    pub(crate) fn as_slice(&self) -> &[Known]
        ensures entries { entries_of result.now ≡ self.now }
        ensures facts { AreFacts self.now }
    {
        self.facts.as_slice()
    }

    // Whether some fact names a server.
    pub(crate) fn has_servers(&self) -> bool
        ensures { result ≡ false → (name : List (List ℕ)) → servers self.now name ≡ [] }
    {
        have_servers(&self.facts)
    }

    // The servers of exactly this name, in canonical order, each once, as they were read when the fact came. The fact is
    // looked for at this place and the next one first, where that of the next of several names mostly stands.
    pub(crate) fn servers_at(&self, near: usize, owner: &Name) -> Option<&Names>
        ensures { MatchOption result (servers_at self.now owner.now ≡ [])
            (λ names. AreInOrder names.now
            × HaveSameMembers names.now (servers_at self.now owner.now)) }
    {
        match find_near(&self.facts, near, owner, rtype::NS) {
            Some(known) => Some(known.servers()),
            None => None,
        }
    }
}

// The question and the fact.
fn parts_of(known: Option<Known>) -> Option<(Question, Fact)>
    ensures { result ≡ option_map entry_of known }
{
    match known {
        Some(known) => Some(known.into_parts()),
        None => None,
    }
}

// What is kept of the question of the name and type in class IN.
fn find_known<'k>(all: &'k [Known], name: &Name, qtype: u16) -> Option<&'k Known>
    ensures { option_copied result ≡ known_about all.now (question_of name.now qtype) }
{
    all.iter()
        .find(|known| is_about(known.question(), name, qtype))
}

// Whether something is kept of the question of the name and type in class IN.
fn is_among(all: &[Known], name: &Name, qtype: u16) -> bool
    ensures { result
        ≡ list_any (λ k. form.same_question k.question (question_of name.now qtype)) all.now }
{
    all.iter()
        .any(|known| is_about(known.question(), name, qtype))
}

// Whether some fact names a server.
fn have_servers(all: &[Known]) -> bool
    ensures { result ≡ list_any (λ k. has_some (named_servers k.question k.fact)) all.now }
{
    all.iter().any(|known| known.has_servers())
}

// The same, which is looked for at this place and the next one first.
fn find_near<'k>(all: &'k [Known], near: usize, name: &Name, qtype: u16) -> Option<&'k Known>
    requires { AreFacts (entries_of all.now) }
    ensures { option_copied result ≡ known_about all.now (question_of name.now qtype) }
{
    match found_at(all, near, name, qtype) {
        Some(known) => Some(known),
        None => match found_at(all, near.saturating_add(1), name, qtype) {
            Some(known) => Some(known),
            None => find_known(all, name, qtype),
        },
    }
}

// What is kept at a place, if it is about the question of the name and type in class IN.
fn found_at<'k>(all: &'k [Known], place: usize, name: &Name, qtype: u16) -> Option<&'k Known>
    requires { AreFacts (entries_of all.now) }
    ensures { IfSome result
        (λ known. Some known.now ≡ known_about all.now (question_of name.now qtype)) }
{
    if place >= all.len() {
        return None;
    }
    let known = &all[place];
    if is_about(known.question(), name, qtype) {
        Some(known)
    } else {
        None
    }
}

// Whether this is the question of the name and type in class IN.
fn is_about(question: &Question, name: &Name, qtype: u16) -> bool
    ensures { result ≡ form.same_question question.now (question_of name.now qtype) }
{
    question.qtype == qtype && question.qclass == class::IN && question.name.is_same(name)
}
