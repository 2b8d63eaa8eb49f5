//! What a wake does.

ghost use Rattle.std.specs.Prelude.{◌≡◌, ◌≤◌, ◌<◌, ◌++◌, ℕ, List, Option, Some, None, Ok, Err, IfOk, IsErr, OnErr, IfSome, OnOk, length};
ghost use Rattle.edge_io.specs.Edge.{Rose};
ghost use Rattle.policy_feed.specs.Ending.{EndsPoll, read};
ghost use Rattle.policy_feed.specs.Feed.{feed_of};
ghost use Rattle.policy_feed.specs.Waking.{EndsAt, HearsAt, WakeDoes, TakesNotify, TakesWake, is_by_order, place_with};
ghost use Rattle.policy_feed.specs.declared.notice.Notice.TheVariants as notice;

use crate::feeder::Feeder;
use crate::notice::Notice;
use crate::under_way::{Heard, UnderWay};
use axfr_apply::{TransferError, TransferFault};
use dns_name::Octets;
use edge_io::Ids;
use ip_prefix::Transport;
use notify_poll::Notified;
use policy_publish::StoreName;
use script_codec::ZoneFault;
use server_io::{Order, OrderEnd, Peer, SendError, Wake, Wires};
use std::alloc::AllocError;
use std::sync::Wait;

// Whether the transfer has this order.
fn has_order(poll: &Option<UnderWay>, order: Order) -> bool
    ensures { result ≡ is_by_order order poll.now }
{
    match poll {
        Some(poll) => poll.order().number == order.number,
        None => false,
    }
}

// What a wake came to that is no NOTIFY.
fn done(ended: Result<(), AllocError>) -> Result<Option<Notice>, AllocError>
    ensures ok { OnOk ended (result ≡ Ok None) }
    ensures err { OnErr ended (IsErr result) }
{
    match ended {
        Ok(()) => Ok(None),
        Err(error) => Err(error),
    }
}

impl<N: StoreName> Feeder<N> {
    // The place of the zone whose transfer has this order.
    fn place_of(&self, order: Order) -> Option<usize>
        ensures place { result ≡ place_with order self.now }
        ensures within { IfSome result (λ place. place < length self.now.timers) }
    {
        self.polls.iter().position(|poll| has_order(poll, order))
    }

    // A message came of an order. One that is known no more does nothing.
    fn hear<W: Wires, R: Wait>(
        &mut self,
        rt: &R,
        wires: &mut W,
        order: Order,
        message: &[u8],
        now: u32,
        text: &mut Vec<u8>,
    ) -> Result<(), AllocError>
        ensures hears { OnOk result ((lines : List ℕ) × (text.new.items ≡ text.old.items ++ lines)
            × HearsAt now (place_with order self.old) message.now self.old lines self.new) }
        ensures told { W.told wires.new ≡ W.told wires.old }
        ensures orders { W.order_faults wires.new ≡ W.order_faults wires.old }
        ensures count { W.faults wires.new ≡ W.faults wires.old }
    {
        let Some(place) = self.place_of(order) else {
            return Ok(());
        };
        let Some(poll) = self.polls[place].take() else {
            return Ok(());
        };
        match poll.hear(message) {
            Heard::More(poll) => {
                drop(self.polls[place].replace(poll));
                Ok(())
            }
            Heard::Ended(read) => {
                wires.forget(order);
                self.end_read(rt, place as u32 + 1, read, now, text)
            }
        }
    }

    // Nothing more comes of an order.
    fn end_order<R: Wait>(
        &mut self,
        rt: &R,
        order: Order,
        why: OrderEnd,
        now: u32,
        text: &mut Vec<u8>,
    ) -> Result<(), AllocError>
        ensures { OnOk result ((lines : List ℕ) × (text.new.items ≡ text.old.items ++ lines)
            × EndsAt now (place_with order self.old) why self.old lines self.new) }
    {
        let Some(place) = self.place_of(order) else {
            return Ok(());
        };
        drop(self.polls[place].take());
        let number = place as u32 + 1;
        match why {
            OrderEnd::End => self.end_faulty(rt, number, TransferFault::EndedEarly, now, text),
            OrderEnd::Cut => self.end_faulty(rt, number, TransferFault::Cut, now, text),
            OrderEnd::ReadFault => self.end_faulty(rt, number, TransferFault::ReadFault, now, text),
            OrderEnd::WriteFault => self.note_end(rt, number, Err(ZoneFault::Write), now, text),
            OrderEnd::FetchFault => self.note_end(rt, number, Err(ZoneFault::Fetch), now, text),
            OrderEnd::OutOfMemory => Err(AllocError),
        }
    }

    // Answers a NOTIFY. The primary of a zone is heard whether it may ask or not.
    fn answer_notify<W: Wires>(
        &mut self,
        wires: &mut W,
        peer: Peer,
        transport: Transport,
        bytes: &[u8],
        now: u32,
    ) -> Notice
        ensures takes { (ids : Option (List ℕ)) → TakesNotify now peer transport bytes.now
            (feed_of self.old (W.told wires.old) (W.order_faults wires.old) ids) result
            (feed_of self.new (W.told wires.new) (W.order_faults wires.new) ids) }
        ensures count { W.faults wires.old ≤ W.faults wires.new }
        ensures failed { result ≡ Notice.Failed → Rose (W.faults wires.old) (W.faults wires.new) }
    {
        let may_ask = self.publisher.may_ask(peer.addr);
        match self
            .timers
            .notify(self.alloc, may_ask, bytes, peer.addr, now, &self.origins)
        {
            Err(_) => Notice::Memory,
            Ok(Notified::Silent) => Notice::Silent,
            Ok(Notified::Reply(reply)) => match wires.answer(peer, transport, reply.as_slice()) {
                Ok(()) => Notice::Replied,
                Err(SendError::Failed) => Notice::Failed,
                Err(SendError::OutOfMemory) => Notice::Memory,
            },
        }
    }

    // The poll of the zone of this number ends by this fault of its stream.
    fn end_faulty<R: Wait>(
        &mut self,
        rt: &R,
        number: u32,
        fault: TransferFault,
        now: u32,
        text: &mut Vec<u8>,
    ) -> Result<(), AllocError>
        requires low { 1 ≤ number }
        requires high { number ≤ length self.old.timers }
        ensures { OnOk result ((lines : List ℕ) × (text.new.items ≡ text.old.items ++ lines)
            × EndsPoll now number (read (Err fault)) self.old lines self.new) }
    {
        self.end_read(rt, number, Err(TransferError::Fault(fault)), now, text)
    }

    // Does what a wake does, and says what became of a NOTIFY.
    fn take<W: Wires, R: Wait>(
        &mut self,
        rt: &R,
        wires: &mut W,
        now: u32,
        wake: Wake,
        text: &mut Vec<u8>,
    ) -> Result<Option<Notice>, AllocError>
        ensures takes { IfOk result (λ what. (lines : List ℕ) × (text.new.items ≡ text.old.items ++ lines)
            × ((ids : Option (List ℕ)) → WakeDoes now
            (feed_of self.old (W.told wires.old) (W.order_faults wires.old) ids) wake lines what
            (feed_of self.new (W.told wires.new) (W.order_faults wires.new) ids))) }
        ensures count { W.faults wires.old ≤ W.faults wires.new }
        ensures failed { IfOk result (λ what. what ≡ Some notice.Failed →
            Rose (W.faults wires.old) (W.faults wires.new)) }
    {
        match wake {
            Wake::Due | Wake::Ended { dropped: _ } => Ok(None),
            Wake::Frame { order, bytes } => {
                let heard = self.hear(rt, wires, order, bytes.as_slice(), now, text);
                drop(bytes);
                done(heard)
            }
            Wake::Over { order, why } => { done(self.end_order(rt, order, why, now, text)) }
            Wake::Notify {
                peer,
                transport,
                bytes,
            } => {
                let what = self.answer_notify(wires, peer, transport, bytes.as_slice(), now);
                drop(bytes);
                Ok(Some(what))
            }
        }
    }

    /// Takes a wake at this second, and then orders what is due: a message of a transfer is read, and what it makes whole is published; a
    /// transfer of which nothing more comes has ended; a NOTIFY is answered, and its zone is due where it comes from the zone's own
    /// primary (RFC 1996). Where polls are to be tried anew, each zone of which nothing was loaded yet is due as well, unless a transfer
    /// of it is under way. The lines of the polls that have ended are written behind the text. It says what became of a NOTIFY. It may
    /// wait for readers that are just entering.
    pub fn turn<W: Wires, I: Ids, R: Wait>(
        &mut self,
        rt: &R,
        wires: &mut W,
        ids: &mut I,
        now: u32,
        wake: Wake,
        is_anew: bool,
        text: &mut Vec<u8>,
    ) -> Result<Option<Notice>, AllocError>
        ensures takes { IfOk result (λ what. (lines : List ℕ) × (text.new.items ≡ text.old.items ++ lines)
            × TakesWake now is_anew
            (feed_of self.old (W.told wires.old) (W.order_faults wires.old) (I.ids ids.old)) wake
            lines what
            (feed_of self.new (W.told wires.new) (W.order_faults wires.new) (I.ids ids.new))) }
        ensures count { W.faults wires.old ≤ W.faults wires.new }
        ensures failed { IfOk result (λ what. what ≡ Some notice.Failed →
            Rose (W.faults wires.old) (W.faults wires.new)) }
    {
        let what = self.take(rt, wires, now, wake, text)?;
        self.hasten_when(is_anew, now);
        self.order_due(rt, wires, ids, now, text)?;
        self.give_up_old();
        Ok(what)
    }
}
