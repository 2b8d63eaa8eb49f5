//! Laws of the timers. Each function is its clauses, and does nothing.

ghost use Rattle.std.specs.Prelude.{◌≡◌, ◌≢◌, ℕ, Bool, List, Option, Some, true, false, slice_get};
ghost use Rattle.std.specs.List.{list_all};
ghost use Rattle.std.specs.Option.{option_map};
ghost use Rattle.dns_name.specs.Labels.{Name};
ghost use Rattle.ip_prefix.specs.declared.Addr.{Addr};
ghost use Rattle.notify_poll.specs.History.{IsFirstNotifyOf, IsNotifyOf, PollEvent, about, is_at_once, moment_after, retry_after, timer_after, timers_after};
ghost use Rattle.notify_poll.specs.Notifying.{answer_to, brought_forward};
ghost use Rattle.notify_poll.specs.Timers.{after_poll, begun, first_timer, is_due, noted};
ghost use Rattle.notify_poll.specs.declared.timer.Polling.{Polling};
ghost use Rattle.notify_poll.specs.declared.timer.TimerStage.TheVariants.{Waits};
ghost use Rattle.notify_poll.specs.declared.timer.Timer.{Timer};

/// No message brings a zone forward but a NOTIFY for the SOA record of its origin, from its own primary; and it leaves the timers of
/// all other zones. Such a NOTIFY is taken, whether the primary may ask or not.
pub fn only_its_primary_brings_a_zone_forward()
    ensures notify { (may_ask : Bool) (bytes : List ℕ) (client : Addr) (origins : List Name)
        (timers : List Timer) (place : ℕ) →
        (answer_to may_ask bytes client origins timers).1 ≡ Some place →
        IsNotifyOf bytes client origins timers place }
    ensures taken { (may_ask : Bool) (bytes : List ℕ) (client : Addr) (origins : List Name)
        (timers : List Timer) (place : ℕ) → IsFirstNotifyOf bytes client origins timers place →
        (answer_to may_ask bytes client origins timers).1 ≡ Some place }
    ensures others { (second : ℕ) (timers : List Timer) (place other : ℕ) → other ≢ place →
        slice_get (brought_forward second timers (Some place)) other ≡ slice_get timers other }
{}

/// Whatever happens, a zone's timer is what the events about this zone make of it.
pub fn a_zone_has_its_own_timer()
    ensures { (timers : List Timer) (events : List PollEvent) (place : ℕ) →
        slice_get (timers_after timers events) place
        ≡ option_map (λ timer. timer_after timer (about place events)) (slice_get timers place) }
{}

/// Where polls are made in no time, the last event about a zone says when it is polled next, and the last poll of it that was done
/// says how soon it is tried again.
pub fn the_last_event_says_when_a_zone_is_due()
    ensures stage { (start : ℕ) (primary : Option Addr) (events : List PollEvent) →
        list_all is_at_once events ≡ true →
        (timer_after (first_timer start primary) events).stage ≡ Waits (moment_after start events) }
    ensures retry { (start : ℕ) (primary : Option Addr) (events : List PollEvent) →
        (timer_after (first_timer start primary) events).retry ≡ retry_after events }
    ensures primary { (start : ℕ) (primary : Option Addr) (events : List PollEvent) →
        (timer_after (first_timer start primary) events).primary ≡ primary }
{}

/// A zone isn't due while a poll of it is under way, and a NOTIFY that is accepted meanwhile isn't lost: behind the poll the zone is
/// due from that NOTIFY's second on (RFC 1996, section 4.4).
pub fn a_notify_waits_for_the_end_of_a_poll()
    ensures under_way { (second : ℕ) (timer : Timer) → is_due second (begun timer) ≡ false }
    ensures kept { (timer : Timer) (polling : Polling) (second ended : ℕ) →
        (after_poll polling ended (noted second (begun timer))).stage ≡ Waits second }
{}
