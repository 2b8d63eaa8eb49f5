//! Transfers that are due are ordered.

ghost use Rattle.std.specs.Prelude.{◌≡◌, ◌≤◌, ◌++◌, ℕ, List, [], Err, IfOk, OnOk, IsSome, Some, length};
ghost use Rattle.dns_message.specs.Spelling.{spelling};
ghost use Rattle.edge_io.specs.declared.frame.TheConstants.{FRAME_MAX};
ghost use Rattle.zone_rows.specs.declared.zone.PlainZone.{PlainZone};
ghost use Rattle.ixfr_apply.specs.Feeding.{Waits};
ghost use Rattle.ixfr_apply.specs.Marks.{mark_at};
ghost use Rattle.ixfr_apply.specs.Offer.{request_of};
ghost use Rattle.policy_snapshot.specs.Policy.{zone_at};
ghost use Rattle.policy_feed.specs.Poll.{request_for};
ghost use Rattle.script_codec.specs.declared.zone_fault.ZoneFault.TheVariants as zone_fault;
ghost use Rattle.policy_feed.specs.Feed.{feed_of};
ghost use Rattle.policy_feed.specs.Lines.{poll_line};
ghost use Rattle.policy_feed.specs.Ordering.{Begins, OrdersDue, OrdersZone, poll_begins, poll_fails};

use crate::feeder::Feeder;
use crate::lines::write_line;
use crate::polling::request_message;
use crate::under_way::UnderWay;
use dns_name::Octets;
use edge_io::Ids;
use ixfr_apply::TransferReader;
use notify_poll::Polling;
use policy_publish::{Publisher, StoreName};
use script_codec::ZoneFault;
use server_io::{Order, WireError, Wires};
use std::alloc::{AllocError, Global};
use std::sync::Wait;

// The request of this ID for the zone of a number, and what reads the answers to it.
fn prepare<N: StoreName>(
    alloc: Global,
    publisher: &Publisher<N>,
    id: u16,
    number: u32,
) -> Result<(Octets, TransferReader), AllocError>
    requires { IsSome (zone_at publisher.now.version.zones number) }
    ensures request { IfOk result (λ made. (zone : PlainZone) →
        zone_at publisher.now.version.zones number ≡ Some zone →
        made.0 ≡ spelling
        (request_for id (mark_at publisher.now.marks number) zone.origin zone.content)) }
    ensures short { IfOk result (λ made. length made.0 ≤ FRAME_MAX) }
    ensures asked { IfOk result (λ made. (zone : PlainZone) →
        zone_at publisher.now.version.zones number ≡ Some zone →
        made.1.asked ≡ request_of id (mark_at publisher.now.marks number) zone) }
    ensures waits { IfOk result (λ made. Waits made.1 []) }
{
    let message = request_message(alloc, publisher, id, number)?;
    let reader = TransferReader::start(
        alloc,
        id,
        publisher.origin(number),
        publisher.wanted(number),
    )?;
    Ok((message, reader))
}

impl<N: StoreName> Feeder<N> {
    // The transfer of the zone of this number is under way.
    fn begin(&mut self, number: u32, poll: UnderWay)
        requires low { 1 ≤ number }
        requires high { number ≤ length self.old.timers }
        ensures { self.new ≡ poll_begins self.old number poll }
    {
        self.timers.begin(number);
        drop(self.polls[number as usize - 1].replace(poll));
    }

    // No transfer of the zone of this number could be begun.
    fn fail(&mut self, number: u32, now: u32, text: &mut Vec<u8>) -> Result<(), AllocError>
        requires low { 1 ≤ number }
        requires high { number ≤ length self.old.timers }
        ensures line { OnOk result (text.new.items
            ≡ text.old.items ++ poll_line number (Err zone_fault.Fetch)) }
        ensures feeder { self.new ≡ poll_fails now self.old number }
    {
        self.timers.polled(number, Polling::Faulty, now);
        write_line(self.alloc, number, Err(ZoneFault::Fetch), text)
    }

    // Takes what came of an order of the zone of this number, whose messages this reader takes.
    fn take_order(
        &mut self,
        ordered: Result<Order, WireError>,
        reader: TransferReader,
        number: u32,
        now: u32,
        text: &mut Vec<u8>,
    ) -> Result<(), AllocError>
        requires low { 1 ≤ number }
        requires high { number ≤ length self.old.timers }
        requires waits { Waits reader [] }
        ensures { OnOk result ((lines : List ℕ) × (text.new.items ≡ text.old.items ++ lines)
            × Begins now self.old number reader.asked ordered lines self.new) }
    {
        match ordered {
            Ok(order) => {
                self.begin(number, UnderWay::new(order, reader));
                Ok(())
            }
            Err(WireError::Failed) => {
                drop(reader);
                self.fail(number, now, text)
            }
            Err(WireError::OutOfMemory) => {
                drop(reader);
                Err(AllocError)
            }
        }
    }

    // Orders a transfer of the zone of this number.
    fn order_zone<W: Wires, I: Ids>(
        &mut self,
        wires: &mut W,
        ids: &mut I,
        number: u32,
        now: u32,
        text: &mut Vec<u8>,
    ) -> Result<(), AllocError>
        requires low { 1 ≤ number }
        requires high { number ≤ length self.old.timers }
        ensures orders { OnOk result ((lines : List ℕ) × (text.new.items ≡ text.old.items ++ lines)
            × OrdersZone now
            (feed_of self.old (W.told wires.old) (W.order_faults wires.old) (I.ids ids.old)) number
            lines
            (feed_of self.new (W.told wires.new) (W.order_faults wires.new) (I.ids ids.new))) }
        ensures count { W.faults wires.new ≡ W.faults wires.old }
    {
        let primary = self.primaries[number as usize - 1];
        let id = ids.next_id();
        let (message, reader) = prepare(self.alloc, &self.publisher, id, number)?;
        let ordered = wires.order(primary, message.as_slice());
        drop(message);
        self.take_order(ordered, reader, number, now, text)
    }

    /// Orders the transfers that are due at this second, in the order of their zones, each of its zone's own primary, and writes the lines
    /// of those that could not be begun behind the text.
    pub fn order_due<W: Wires, I: Ids, R: Wait>(
        &mut self,
        rt: &R,
        wires: &mut W,
        ids: &mut I,
        now: u32,
        text: &mut Vec<u8>,
    ) -> Result<(), AllocError>
        ensures orders { OnOk result ((lines : List ℕ) × (text.new.items ≡ text.old.items ++ lines)
            × OrdersDue now
            (feed_of self.old (W.told wires.old) (W.order_faults wires.old) (I.ids ids.old)) lines
            (feed_of self.new (W.told wires.new) (W.order_faults wires.new) (I.ids ids.new))) }
        ensures count { W.faults wires.new ≡ W.faults wires.old }
    {
        for _ in rt.forever() {
            match self.timers.due(now) {
                None => return Ok(()),
                Some(number) => self.order_zone(wires, ids, number, now, text)?,
            }
        }
        unreachable!()
    }
}
