// The spawner of tests and of a server.
ghost use Rattle.std.specs.Prelude.{◌≡◌, ◌≤◌, ◌<◌, ◌+◌, [], Some, vec_len, vec_capacity};
ghost use Rattle.std.specs.VecDeque.{deque_len, deque_capacity};

use crate::{Schedule, Spawner, StartError, Started};
use std::alloc::Global;
use std::collections::VecDeque;
use std::thread::Threads;

/// Runs each task in a thread of its own, or at once in the thread that starts it. Contracts know the values that were
/// gathered, and a start fails where it is told to, or where no thread can be made.
#[derive(Drop)]
pub struct TaskSpawner<E: Copy + Send + 'static, R: Threads + Drop> {
    rt: R,
    threads: bool,
    queue: VecDeque<Started<E>>,
    values: Vec<E>,
    schedule: Schedule,
    ghost room: { vec_len values + deque_len queue ≤ vec_capacity values },
}

impl<E: Copy + Send + 'static, R: Threads + Drop> TaskSpawner<E, R> {
    /// No task is started yet. `threads` says whether each gets a thread of its own; without, a task that waits for
    /// what comes after its start never ends. The starts of the numbers in `failing` fail, and the first start is
    /// start 0.
    pub fn new(rt: R, alloc: Global, threads: bool, failing: Vec<u64>) -> Self
        ensures waiting { ⟦<TaskSpawner<E, R> as Spawner<E>>⟧.waiting result ≡ 0 }
        ensures gathered { ⟦<TaskSpawner<E, R> as Spawner<E>>⟧.gathered result ≡ Some [] }
        ensures no_fault { ⟦<TaskSpawner<E, R> as Spawner<E>>⟧.faults result ≡ 0 }
    {
        TaskSpawner {
            rt,
            threads,
            queue: VecDeque::new(alloc),
            values: Vec::new(alloc),
            schedule: Schedule::new(failing),
        }
    }
}

impl<E: Copy + Send + 'static, R: Threads + Drop> Spawner<E> for TaskSpawner<E, R> {
    ghost waiting = { λ s. deque_len s.queue };

    ghost gathered = { λ s. Some s.values.items };

    ghost faults = { λ s. s.schedule.faults };

    // The values have room for all that wait, so that `gather` needs no memory.
    ghost has_room = { λ s. (deque_len s.queue < deque_capacity s.queue)
        × (vec_len s.values + deque_len s.queue < vec_capacity s.values) };

    fn admit(&mut self) -> Result<bool, StartError> {
        if self.schedule.fails_now() {
            return Err(StartError::Failed);
        }
        self.queue.reserve(1)?;
        self.values.reserve(self.queue.len() + 1)?;
        Ok(self.threads)
    }

    // The trait's clauses, written out: a method that takes a type with a bound of its own by value doesn't get them
    // from the trait.
    fn keep(&mut self, started: Started<E>)
        requires { (deque_len self.old.queue < deque_capacity self.old.queue)
            × (vec_len self.old.values + deque_len self.old.queue < vec_capacity self.old.values) }
        ensures waiting { deque_len self.new.queue ≡ deque_len self.old.queue + 1 }
        ensures gathered { Some self.new.values.items ≡ Some self.old.values.items }
        ensures count { self.new.schedule.faults ≡ self.old.schedule.faults }
    {
        match self.queue.push_back(started) {
            Ok(()) => {}
            Err(_) => unreachable!(),
        }
    }

    fn refuse(&mut self) {
        self.schedule.count_fault();
    }

    fn gather(&mut self) -> Option<E> {
        let value = match self.queue.pop_front() {
            Some(Started::Thread(handle)) => handle.join(&self.rt),
            Some(Started::Value(value)) => value,
            None => return None,
        };
        match self.values.push(value) {
            Ok(()) => Some(value),
            Err(_) => unreachable!(),
        }
    }
}
