//! What is known of a value without looking at it.

ghost use Rattle.std.specs.Prelude.{◌≡◌, Bool, false};

/// What a trie keeps beside a value: whether there is one at all, so that a place without a value takes no room of its own, and
/// whether look-ups stop at it.
pub trait Mark: Copy + Drop {
    /// Whether there is a value.
    ghost present: { Self → Bool };

    /// Whether look-ups stop at the value.
    ghost acts: { Self → Bool };

    /// The mark where there is no value.
    fn absent() -> Self
        ensures { present result ≡ false };

    /// Whether there is a value.
    fn is_present(&self) -> bool
        ensures { result ≡ present self.now };

    /// Whether look-ups stop at the value.
    fn does_act(&self) -> bool
        ensures { result ≡ acts self.now };
}

/// A mark that says no more than whether there is a value: look-ups stop at each.
impl Mark for bool {
    ghost present = { λ b. b };

    ghost acts = { λ b. b };

    fn absent() -> Self {
        false
    }

    fn is_present(&self) -> bool {
        *self
    }

    fn does_act(&self) -> bool {
        *self
    }
}
