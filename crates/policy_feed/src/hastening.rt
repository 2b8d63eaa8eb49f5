//! Zones of which nothing was loaded yet.

ghost use Rattle.std.specs.Prelude.{◌≡◌, ◌<◌, length};
ghost use Rattle.std.specs.Bool.{OnFalse, OnTrue};
ghost use Rattle.policy_feed.specs.Hastening.{IsLoaded, IsNotLoaded, hastened, hastened_when, is_missing_at};

use crate::feeder::Feeder;
use policy_publish::StoreName;

impl<N: StoreName> Feeder<N> {
    /// Whether something of each zone was loaded.
    pub fn is_loaded(&self) -> bool
        ensures loaded { OnTrue result (IsLoaded self.now) }
        ensures missing { OnFalse result (IsNotLoaded self.now) }
    {
        for place in 0..self.polls.len() {
            if self.publisher.soa(place as u32 + 1).is_none() {
                return false;
            }
        }
        true
    }

    // Whether nothing of the zone of this place was loaded yet, and no transfer of it is under way.
    fn is_missing(&self, place: usize) -> bool
        requires { place < length self.now.timers }
        ensures { result ≡ is_missing_at self.now place }
    {
        self.polls[place].is_none() && self.publisher.soa(place as u32 + 1).is_none()
    }

    // Each zone of which nothing was loaded yet, and of which no transfer is under way, is due from this second on.
    fn hasten(&mut self, now: u32)
        ensures { self.new ≡ hastened now self.old }
    {
        for place in 0..self.polls.len() {
            if self.is_missing(place) {
                self.timers.hasten(place as u32 + 1, now);
            }
        }
    }

    /// The same, where it is to be so.
    pub(crate) fn hasten_when(&mut self, is_anew: bool, now: u32)
        ensures { self.new ≡ hastened_when is_anew now self.old }
    {
        if is_anew {
            self.hasten(now);
        }
    }
}
