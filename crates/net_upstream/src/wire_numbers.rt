//! The IDs that questions have on their way to the upstream.

use rand::{Rng, SeedableRng};
use rand_chacha::ChaCha20Rng;

/// The IDs that questions have on their way to the upstream, which can't be told from those before them (RFC 5452, section 9.2): from
/// ChaCha20, whose seed the system gives. Where the system gives no seed, an ID is one more than that before it, and a seed is asked
/// for again with the next.
#[derive(Drop)]
pub(crate) struct WireNumbers {
    generator: Option<ChaCha20Rng>,
    running: u16,
}

fn seeded() -> Option<ChaCha20Rng> {
    let mut seed = [0u8; 32];
    if libc::getentropy(&mut seed) != 0 {
        return None;
    }
    Some(ChaCha20Rng::from_seed(seed))
}

impl WireNumbers {
    /// A generator with a seed of its own.
    pub(crate) fn new() -> Self {
        WireNumbers {
            generator: seeded(),
            running: 0,
        }
    }

    /// The next one.
    pub(crate) fn next_number(&mut self) -> u16 {
        if self.generator.is_none() {
            self.generator = seeded();
        }
        match &mut self.generator {
            Some(generator) => (generator.next_u32() % (1 << 16)) as u16,
            None => {
                self.running = self.running.wrapping_add(1);
                self.running
            }
        }
    }
}
