//! A transfer that is under way.

ghost use Rattle.std.specs.Prelude.{◌≡◌, []};
ghost use Rattle.policy_feed.specs.Reading.{HearsMessage};

use axfr_apply::{Taken, TransferError};
use ghost_values::TakenMessages;
use ixfr_apply::{Fed, TransferReader};
use server_io::Order;
use std::marker::Model;

/// A transfer that was ordered and has not ended. Contracts see its order, what was asked for, and the messages that came of it; of these
/// it keeps what they say of the zone.
#[derive(Drop)]
pub(crate) struct UnderWay {
    order: Order,
    reader: TransferReader,
    messages: TakenMessages,
}

impl Model for UnderWay {
    ghost use Rattle.ixfr_apply.specs.Feeding.{Waits};
    ghost use Rattle.policy_feed.specs.Feed.{PlainPoll};

    ghost Value = { PlainPoll };

    ghost view = { λ u.
        record { order = u.order; asked = u.reader.asked; messages = u.messages } };

    // the reader has taken these messages, which don't end the transfer
    ghost invariant = { λ u. Waits u.reader u.messages };
}

/// What a message did to a transfer.
#[derive(Drop)]
pub(crate) enum Heard {
    /// More messages are to come.
    More(UnderWay),
    /// It has ended.
    Ended(Result<Taken, TransferError>),
}

impl UnderWay {
    ghost use Rattle.ixfr_apply.specs.Feeding.{Waits};

    /// A transfer of this order, whose reader has taken no message yet.
    pub(crate) fn new(order: Order, reader: TransferReader) -> Self
        requires { Waits reader [] }
        ensures { result ≡ record { order = order; asked = reader.asked; messages = [] } }
    {
        UnderWay {
            order,
            reader,
            messages: TakenMessages::none(),
        }
    }

    /// Its order.
    pub(crate) fn order(&self) -> Order
        ensures { result ≡ self.now.order }
    {
        self.order
    }

    /// Takes the next message.
    pub(crate) fn hear(self, message: &[u8]) -> Heard
        ensures { HearsMessage self message.now result }
    {
        let UnderWay {
            order,
            mut reader,
            messages,
        } = self;
        match reader.feed(message) {
            Ok(Fed::More) => Heard::More(UnderWay {
                order,
                reader,
                messages: messages.with(message),
            }),
            Ok(Fed::Current { theirs }) => {
                drop(reader);
                Heard::Ended(Ok(Taken::Current { theirs }))
            }
            Ok(Fed::Done(transfer)) => {
                drop(reader);
                Heard::Ended(Ok(Taken::New(transfer)))
            }
            Err(error) => {
                drop(reader);
                Heard::Ended(Err(error))
            }
        }
    }
}
