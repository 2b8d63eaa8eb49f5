//! Keys that are strings of bits.

ghost use Rattle.std.specs.Prelude.{◌≡◌, ℕ, ◌<◌, ◌≤◌, true, cond, Option, IfSome};
ghost use Rattle.ip_prefix.specs.Prefix.{PlainPrefix};
ghost use Rattle.trie_keys.specs.Keys.{Keys, KeyLaws};
ghost use Rattle.prefix_index.specs.Made.{IsKey};
ghost use Rattle.prefix_index.specs.Walk.{DifferAt};

use ip_prefix::Prefix;
use std::cmp::Ordering;

// A key that is a string of bits.
pub(crate) trait Key: Copy + Drop {
    // The order of keys, their lengths and bits, and when two begin alike.
    ghost keys: { Keys Self };

    // The key of a prefix, if this family has one.
    ghost from: { PlainPrefix → Option Self };

    fn of(prefix: &Prefix) -> Option<Self>
        ensures from { result ≡ from prefix.now }
        ensures key { IfSome result (λ key. IsKey keys key) };

    // The prefix of a key.
    ghost to: { Self → PlainPrefix };

    fn prefix(&self) -> Prefix
        requires { 1 ≤ keys.len self.now }
        ensures { result ≡ to self.now };

    // Which of two keys comes first.
    fn order(&self, other: &Self) -> Ordering
        ensures { result ≡ keys.order self.now other.now };

    // How many bits.
    fn len(&self) -> u32
        ensures { result ≡ keys.len self.now };

    // Whether the bit of the place is 1.
    fn bit(&self, place: u32) -> bool
        requires { place < keys.len self.now }
        ensures { keys.symbol self.now place ≡ cond result 1 0 };

    // How many bits are the same before the first that is not.
    fn common(&self, other: &Self) -> u32
        ensures here { result ≤ keys.len self.now }
        ensures there { result ≤ keys.len other.now }
        ensures agree { keys.agree result self.now other.now ≡ true }
        ensures differ { DifferAt keys result self.now other.now };

    // The first bits, so many.
    fn cut(&self, len: u32) -> Self
        requires within { len ≤ keys.len self.now }
        ensures len { keys.len result ≡ len }
        ensures agree { keys.agree len result self.now ≡ true }
        ensures valid { keys.valid result ≡ true };

    ghost laws: { KeyLaws keys };

    ghost binary: { (key : Self) (place : ℕ) → keys.symbol key place < 2 };
}
