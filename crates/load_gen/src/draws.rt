//! The numbers that a load is made from.

ghost use Rattle.std.specs.Prelude.{◌≡◌};
ghost use Rattle.load_gen.specs.Draws.{drawn_in, next_state};

/// A linear congruential generator of modulus 2^64.
#[derive(Clone, Copy)]
pub(crate) struct Draws {
    pub state: u64,
}

impl Draws {
    /// The next draw: 31 bits.
    pub fn next(&mut self) -> u32
        ensures drawn { result ≡ drawn_in self.new.state }
        ensures state { self.new.state ≡ next_state self.old.state }
    {
        self.state = self
            .state
            .wrapping_mul(6_364_136_223_846_793_005)
            .wrapping_add(1_442_695_040_888_963_407);
        (self.state >> 33) as u32
    }
}
