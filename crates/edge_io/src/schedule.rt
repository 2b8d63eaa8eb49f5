// Which calls are to fail.
ghost use Rattle.std.specs.Prelude.{◌≡◌, ◌≤◌, [], false};
ghost use Rattle.std.specs.Bool.{OnTrue, OnFalse};
ghost use Rattle.edge_io.specs.Edge.{Rose};

/// Which calls are to fail, and how many have.
#[derive(Drop)]
pub struct Schedule {
    /// The numbers of the calls that are to fail.
    pub failing: Vec<u64>,
    calls: u64,
    /// How many calls have failed. It never falls, and stands still at 2^64 - 1.
    pub faults: u64,
}

impl Schedule {
    /// The calls of these numbers fail. The first is call 0, and every call past 2^64 - 1 has that
    /// number.
    pub fn new(failing: Vec<u64>) -> Self
        ensures no_fault { result.faults ≡ 0 }
        ensures failing { result.failing ≡ failing }
    {
        Schedule {
            failing,
            calls: 0,
            faults: 0,
        }
    }

    /// Counts a call, and a fault where it is to fail. Says whether it is.
    pub fn fails_now(&mut self) -> bool
        ensures fault { OnTrue result (Rose self.old.faults self.new.faults) }
        ensures none { OnFalse result (self.new.faults ≡ self.old.faults) }
        ensures count { self.old.faults ≤ self.new.faults }
        ensures steady { self.old.failing.items ≡ [] → result ≡ false }
        ensures failing { self.new.failing ≡ self.old.failing }
    {
        let fails = self.failing.contains(&self.calls);
        self.calls = self.calls.saturating_add(1);
        if fails {
            self.count_fault();
        }
        fails
    }

    /// Counts a fault that no schedule asked for.
    pub fn count_fault(&mut self)
        ensures fault { Rose self.old.faults self.new.faults }
        ensures count { self.old.faults ≤ self.new.faults }
        ensures failing { self.new.failing ≡ self.old.failing }
    {
        self.faults = self.faults.saturating_add(1);
    }
}
