//! A gate, at which a worker may wait before it asks the upstream.

/// How many turns a gate may hold a worker at most, each of which is one look at what it waits for.
pub const GATE_TURNS: u32 = 10_000;

/// What a worker passes before each question that it asks the upstream. Tests hold a worker here.
pub trait Gate {
    /// Returns after so many turns at the latest.
    fn pass(&mut self, turns: u32);
}

/// Holds nobody.
#[derive(Clone, Copy, Debug, PartialEq, Eq)]
pub struct NoGate;

impl Gate for NoGate {
    fn pass(&mut self, _turns: u32) {}
}
