// Tasks, and what starts them.
ghost use Rattle.std.specs.Prelude.{◌≡◌, ◌≤◌, ◌<◌, ◌+◌, ◌-◌, ◌↔◌, ℕ, List, Option, Err, IsSome, OnOk, OnErr};
ghost use Rattle.edge_io.specs.Edge.{Rose};
ghost use Rattle.edge_io.specs.Told.{maybe_more};
ghost use Rattle.edge_io.specs.declared.task.StartError.TheVariants.{OutOfMemory};

use std::alloc::AllocError;
use std::thread;
use std::thread::{JoinHandle, Threads};

/// What a worker does, from its start to the value that it ends with.
pub trait Task<E> {
    /// What is promised of a task and the value that it ends with: nothing, unless a kind of task says so.
    ghost ends: { Self → E → Type 0 } = { λ _ _. Unit {0} };

    /// Runs it to its end.
    fn run(self) -> E
        ensures { ends self result };
}

/// Why a task was not started.
#[derive(Clone, Copy, Debug, PartialEq, Eq)]
pub enum StartError {
    /// There was no room for one more. That is no fault: the spawner's count of faults stands still.
    OutOfMemory,
    /// A fault of starting, as a thread that could not be made. The spawner's count of faults has risen in this call.
    Failed,
}

impl From<AllocError> for StartError {
    ghost from_gives = { λ _ e. e ≡ OutOfMemory };

    fn from(_: AllocError) -> Self {
        StartError::OutOfMemory
    }
}

/// A task that was started: the thread that runs it, or the value that it ended with, where it was run at once.
#[derive(Drop)]
pub enum Started<E: Send + Drop + 'static> {
    Thread(JoinHandle<E>),
    Value(E),
}

/// What starts tasks, and gathers their values in the order in which they were started.
///
/// A caller has `start` and `gather`. `start` is made of `admit`, `keep` and `refuse`, which are what a kind of
/// spawner writes: a method of an `impl` can't send to a thread what only its own type parameter bounds.
pub trait Spawner<E: Send + Drop + 'static> {
    /// How many tasks were started and are not yet gathered.
    ghost waiting: { Self → ℕ };

    /// The values that were gathered, in order, where they are known.
    ghost gathered: { Self → Option (List E) };

    /// How often a start has failed. It never falls, and stands still at 2^64 - 1.
    ghost faults: { Self → ℕ };

    /// There is room for one more task that was started.
    ghost has_room: { Self → Type 0 };

    /// Makes room for one more task, and says whether it is to have a thread of its own.
    fn admit(&mut self) -> Result<bool, StartError>
        ensures room { OnOk result (has_room self.new) }
        ensures waiting { waiting self.new ≡ waiting self.old }
        ensures gathered { gathered self.new ≡ gathered self.old }
        ensures count { faults self.old ≤ faults self.new }
        ensures failed { result ≡ Err StartError.Failed → Rose (faults self.old) (faults self.new) }
        ensures no_room { result ≡ Err StartError.OutOfMemory → faults self.new ≡ faults self.old };

    /// Keeps a task that was started, behind those that wait.
    fn keep(&mut self, started: Started<E>)
        requires { has_room self.old }
        ensures waiting { waiting self.new ≡ waiting self.old + 1 }
        ensures gathered { gathered self.new ≡ gathered self.old }
        ensures count { faults self.new ≡ faults self.old };

    /// Counts a thread that could not be made.
    fn refuse(&mut self)
        ensures waiting { waiting self.new ≡ waiting self.old }
        ensures gathered { gathered self.new ≡ gathered self.old }
        ensures count { faults self.old ≤ faults self.new }
        ensures failed { Rose (faults self.old) (faults self.new) };

    /// Waits for the oldest task that is not yet gathered, and gives its value. `None` comes only where no task
    /// waits.
    fn gather(&mut self) -> Option<E>
        ensures some { IsSome result ↔ (0 < waiting self.old) }
        ensures waiting { waiting self.new ≡ waiting self.old - 1 }
        ensures gathered { gathered self.new ≡ maybe_more (gathered self.old) result }
        ensures count { faults self.new ≡ faults self.old };

    /// Starts a task. After an error it was not run, and is dropped.
    final fn start<J: Task<E> + Send + Drop + 'static, R: Threads>(
        &mut self,
        rt: &R,
        job: J,
    ) -> Result<(), StartError>
        ensures ok { OnOk result (waiting self.new ≡ waiting self.old + 1) }
        ensures err { OnErr result (waiting self.new ≡ waiting self.old) }
        ensures gathered { gathered self.new ≡ gathered self.old }
        ensures count { faults self.old ≤ faults self.new }
        ensures failed { result ≡ Err StartError.Failed → Rose (faults self.old) (faults self.new) }
        ensures no_room { result ≡ Err StartError.OutOfMemory → faults self.new ≡ faults self.old }
    {
        match self.admit() {
            Ok(true) => match thread::spawn(rt, move || job.run()) {
                Ok(handle) => {
                    self.keep(Started::Thread(handle));
                    Ok(())
                }
                Err(_) => {
                    self.refuse();
                    Err(StartError::Failed)
                }
            },
            Ok(false) => {
                self.keep(Started::Value(job.run()));
                Ok(())
            }
            Err(error) => Err(error),
        }
    }
}
