//! Random IDs of questions.

ghost use Rattle.std.specs.Prelude.{None};

use edge_io::Ids;
use rand::{Rng, make_rng};
use rand_chacha::ChaCha20Rng;
use std::random::RandomSource;

/// Random IDs of questions, which can't be told from those before them (RFC 5452, section 9.2): from ChaCha20, whose seed the system
/// gives, so that an ID costs no system call. Where the system gives no seed, an ID is one more than that before it, and a seed is
/// asked for again with the next.
#[derive(Drop)]
pub struct RandomIds<R: RandomSource + Copy + Drop> {
    rt: R,
    generator: Option<ChaCha20Rng>,
    running: u16,
}

impl<R: RandomSource + Copy + Drop> RandomIds<R> {
    /// A generator with a seed of its own.
    pub fn new(rt: R) -> Self {
        RandomIds {
            rt,
            generator: make_rng(&rt).ok(),
            running: 0,
        }
    }
}

impl<R: RandomSource + Copy + Drop> Ids for RandomIds<R> {
    ghost ids = { λ _. None };

    fn next_id(&mut self) -> u16 {
        if self.generator.is_none() {
            self.generator = make_rng(&self.rt).ok();
        }
        match &mut self.generator {
            Some(generator) => (generator.next_u32() % (1 << 16)) as u16,
            None => {
                self.running = self.running.wrapping_add(1);
                self.running
            }
        }
    }

    fn another(&mut self) -> Self {
        RandomIds::new(self.rt)
    }
}
