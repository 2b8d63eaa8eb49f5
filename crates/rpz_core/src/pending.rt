//! A query that waits for an answer.

ghost use Rattle.std.specs.Prelude.{◌≡◌};
ghost use Rattle.rpz_core.specs.Pending.{Resumes, TakesTurn};

use crate::resolving::{Cache, resolve};
use dns_message::Question;
use dns_name::Octets;
use query_session::Session;
use reply_build::{Said, Turn};
use std::alloc::{AllocError, Global};
use std::marker::Model;
use upstream_link::{Fact, question_bytes};

/// A query that waits for an answer: its session, the question that was asked, and the ID of the message that asked it.
#[derive(Drop)]
pub(crate) struct Pending {
    pub(crate) session: Session,
    pub(crate) question: Question,
    pub(crate) id: u16,
}

impl Model for Pending {
    ghost use Rattle.std.specs.Prelude.{◌≡◌, Some};
    ghost use Rattle.rpz_core.specs.Sessions.{PendingQuery};

    ghost Value = { PendingQuery };

    ghost view = { λ p. record {
      policy = p.session.policy;
      incoming = p.session.incoming;
      facts = p.session.facts;
      question = p.question;
      id = p.id;
    } };

    ghost invariant = { λ p. p.session.asked ≡ Some p.question };
}

/// What a session does at its turn.
#[derive(Drop)]
pub(crate) enum NextMessage {
    /// It asks this question of the upstream, in this message.
    Ask { question: Question, message: Octets },
    /// It is done.
    Said(Said),
}

/// The next message of a session: a question, with this ID, that no entry of the cache live at this second answers, or the reply. What
/// live entries answer on the way, the session learns. An `Err` leaves what the session knew, and maybe some of these answers.
pub(crate) fn next_message(
    alloc: Global,
    cache: &mut Cache,
    session: &mut Session,
    id: u16,
    now: u32,
) -> Result<NextMessage, AllocError>
    ensures turns { TakesTurn now id result cache.old cache.new session.old session.new }
    ensures limit { cache.new.limit ≡ cache.old.limit }
{
    match resolve(alloc, cache, session, now)? {
        Turn::Ask(question) => {
            let message = question_bytes(alloc, id, &question)?;
            Ok(NextMessage::Ask { question, message })
        }
        Turn::Said(said) => Ok(NextMessage::Said(said)),
    }
}

/// What a pending query does that got a fact.
#[derive(Drop)]
pub(crate) enum Resumed {
    /// It asks again in this message, and is pending still.
    Asks { message: Octets, pending: Pending },
    /// It is answered.
    Said(Said),
}

impl Pending {
    /// The query at a second, once it has the fact that it waits for: live entries of the cache answer what it asks then. Where it
    /// asks again, its message has this ID. An `Err` (out of memory) gives the query back as it was.
    pub(crate) fn resume(
        self,
        alloc: Global,
        cache: &mut Cache,
        fact: Fact,
        id: u16,
        now: u32,
    ) -> Result<Resumed, Pending>
        ensures turns { Resumes now id fact self cache.old cache.new result }
        ensures limit { cache.new.limit ≡ cache.old.limit }
    {
        let Pending {
            mut session,
            question: asked,
            id: asked_id,
        } = self;
        let known = session.known();
        if session.give(fact).is_err() {
            return Err(Pending {
                session,
                question: asked,
                id: asked_id,
            });
        }
        match next_message(alloc, cache, &mut session, id, now) {
            Ok(NextMessage::Ask { question, message }) => {
                let pending = Pending {
                    session,
                    question,
                    id,
                };
                Ok(Resumed::Asks { message, pending })
            }
            Ok(NextMessage::Said(said)) => Ok(Resumed::Said(said)),
            Err(_) => {
                session.take_back(known);
                Err(Pending {
                    session,
                    question: asked,
                    id: asked_id,
                })
            }
        }
    }
}
