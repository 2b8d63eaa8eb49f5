//! What a link gave for a question.

ghost use Rattle.std.specs.Prelude.{◌≡◌, IfOk};
ghost use Rattle.upstream_link.specs.Facts.{answer_octets};
ghost use Rattle.upstream_link.specs.Question.{question_bytes};
ghost use Rattle.upstream_link.specs.Vouched.{Tells, Vouched, entry_fact, fact_at, life, live, plain_learned};

use crate::fact::{Fact, fact_of};
use dns_message::Question;
use dns_name::Octets;
use edge_io::Link;
use ghost_values::ProofOnly;
use std::alloc::{AllocError, Global};
use std::marker::{Model, PhantomData};
use std::sync::Arc;

// What came at this second, and what that says. The question, the ID of the message that asked it, and the bytes that came stand
// in proofs alone.
#[derive(Drop)]
struct Exchange {
    question: ProofOnly<Question>,
    id: ProofOnly<u16>,
    bytes: ProofOnly<Octets>,
    moment: u32,
    fact: Fact,
}

/// What a link of the kind `L` gave for a question, at a second, and what that says, which is read once. That the link gave it
/// is known from an exchange alone. Contracts see the question, the ID of the message that asked it, the bytes that came, and
/// the second; of these the second alone takes room, since what the bytes say is kept in their place.
#[derive(Drop)]
pub struct Learned<L: Link> {
    held: Arc<Exchange, Global>,
    link: PhantomData<L>,
}

impl<L: Link> Model for Learned<L> {
    ghost use Rattle.upstream_link.specs.Vouched.{IsGiven, PlainLearned, plain_learned};

    ghost Value = { PlainLearned };

    ghost view = { λ l. plain_learned l.held.value.question.value l.held.value.id.value
        l.held.value.bytes.value l.held.value.moment };

    ghost invariant = { λ l. IsGiven L.gave
        (plain_learned l.held.value.question.value l.held.value.id.value l.held.value.bytes.value
        l.held.value.moment)
        l.held.value.fact };
}

impl<L: Link> Learned<L> {
    /// What a link of the kind gave at this second for the message of this ID that asks the question. That it did is a condition.
    pub fn given(
        alloc: Global,
        id: u16,
        question: &Question,
        bytes: &Octets,
        now: u32,
    ) -> Result<Self, AllocError>
        requires { L.gave (question_bytes id question.now) bytes.now now }
        ensures { IfOk result (λ learned. learned ≡ plain_learned question.now id bytes.now now) }
    {
        let exchange = Exchange {
            question: ProofOnly::of(question),
            id: ProofOnly::of(&id),
            bytes: ProofOnly::of(bytes),
            moment: now,
            fact: fact_of(alloc, bytes.as_slice(), id, question)?,
        };
        Ok(Learned {
            held: Arc::new(alloc, exchange)?,
            link: PhantomData,
        })
    }

    /// For how many seconds it may be kept, at most [`LIFE_LIMIT`](crate::LIFE_LIMIT) (RFC 2308, section 5).
    pub fn life(&self) -> u32
        ensures { result ≡ life self.now }
    {
        self.held.fact.life()
    }

    /// How many octets its answers take but for their TTLs.
    pub fn answers_len(&self) -> usize
        ensures { result ≡ answer_octets (entry_fact self.now) }
    {
        self.held.fact.answers_len()
    }

    /// Whether it has come by now and its life isn't over. It reads no bytes.
    pub fn is_live(&self, now: u32) -> bool
        ensures { result ≡ live now self.now }
    {
        self.held.moment <= now && now - self.held.moment < self.life()
    }

    /// What it says, at its age. It has come in this second, or is live. It reads no bytes and copies no record; where there
    /// is no answer, bytes that are no response are copied.
    pub fn fact(&self, alloc: Global, now: u32) -> Result<Fact, AllocError>
        requires { Tells now self.now }
        ensures fact { IfOk result (λ fact. fact ≡ fact_at now self.now) }
        ensures vouched { IfOk result (λ fact. Vouched L.gave self.now.question fact now) }
    {
        let age = now - self.held.moment;
        self.held.fact.shared(alloc, age)
    }

    /// The same, by another handle. No bytes are copied.
    pub fn copied(&self) -> Result<Self, AllocError>
        ensures { IfOk result (λ learned. learned ≡ self.now) }
    {
        Ok(Learned {
            held: Arc::try_clone(&self.held)?,
            link: PhantomData,
        })
    }
}
