//! How a poll ends.

ghost use Rattle.std.specs.Prelude.{◌≡◌, ◌≤◌, ◌++◌, ℕ, List, OnOk, IsSome, length};
ghost use Rattle.policy_snapshot.specs.Policy.{zone_at};
ghost use Rattle.policy_feed.specs.Ending.{EndsReading, poll_ends, polling_behind};
ghost use Rattle.policy_feed.specs.Lines.{poll_line};

use crate::feeder::Feeder;
use crate::lines::{PollOutcome, outcome_of, write_line};
use crate::polling::Polled;
use crate::taking::end_poll;
use axfr_apply::{Taken, TransferError};
use notify_poll::Polling;
use policy_publish::{Publisher, StoreName};
use std::alloc::AllocError;
use std::sync::Wait;

// How the poll of the zone of this number ended, which gave this.
fn polling_of<N: StoreName>(publisher: &Publisher<N>, number: u32, gives: PollOutcome) -> Polling
    requires { IsSome (zone_at publisher.now.version.zones number) }
    ensures { result ≡ polling_behind gives (zone_at publisher.now.version.zones number) }
{
    match (gives, publisher.soa(number)) {
        (Ok(_), Some(soa)) => Polling::Done {
            refresh: soa.refresh,
            retry: soa.retry,
        },
        _ => Polling::Faulty,
    }
}

impl<N: StoreName> Feeder<N> {
    // The poll of the zone of this number has ended at this second and gave this. Its transfer is under way no more.
    pub(crate) fn note_end<R: Wait>(
        &mut self,
        rt: &R,
        number: u32,
        gives: PollOutcome,
        now: u32,
        text: &mut Vec<u8>,
    ) -> Result<(), AllocError>
        requires low { 1 ≤ number }
        requires high { number ≤ length self.old.timers }
        ensures line { OnOk result (text.new.items ≡ text.old.items ++ poll_line number gives) }
        ensures feeder { self.new ≡ poll_ends now self.old number gives self.old.published }
    {
        let polling = polling_of(&self.publisher, number, gives);
        self.timers.polled(number, polling, now);
        if let Ok(Polled::New(_)) = gives {
            self.latest.set(rt, self.publisher.tell());
        }
        write_line(self.alloc, number, gives, text)
    }

    // The poll of the zone of this number ends by what was read.
    pub(crate) fn end_read<R: Wait>(
        &mut self,
        rt: &R,
        number: u32,
        read: Result<Taken, TransferError>,
        now: u32,
        text: &mut Vec<u8>,
    ) -> Result<(), AllocError>
        requires low { 1 ≤ number }
        requires high { number ≤ length self.old.timers }
        ensures { OnOk result ((lines : List ℕ) × (text.new.items ≡ text.old.items ++ lines)
            × EndsReading now number read self.old lines self.new) }
    {
        let told = end_poll(rt, &mut self.publisher, number, read);
        let gives = outcome_of(told)?;
        self.note_end(rt, number, gives, now, text)
    }
}
