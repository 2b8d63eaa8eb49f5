//! What starts threads for jobs.

use crate::limits::{JOIN_SECONDS, START_MILLISECONDS, THREAD_QUEUE};
use crossbeam_channel::{Receiver, RecvTimeoutError, Sender, bounded};
use std::alloc::{AllocError, Global};
use std::sync::Wait;
use std::thread::{JoinHandle, Threads};
use std::time::Duration;
use std::{thread, time};

/// What a thread of its own runs to its end. A `K` is kept of a job whose thread is joined.
pub trait Job<K> {
    /// What is kept of it; `None` for a job whose thread nobody ends or joins.
    fn kept(&self) -> Result<Option<K>, AllocError>;

    /// Runs it to its end.
    fn run(self);

    /// It isn't run: there is no room to keep it.
    fn refuse(self);
}

/// What is kept of a job while its thread runs.
pub trait KeptJob {
    /// Whether its thread has nothing more to do.
    fn has_ended(&self) -> bool;

    /// Ends it soon.
    fn end(&self);

    /// No thread could be started for it.
    fn fail(&self);
}

// A job for a new thread, or that no more come.
#[derive(Drop)]
enum Work<J: Drop> {
    Run(J),
    End,
}

/// A thread that starts the others. It is there from the start on, since the prover covers no thread that is started in a method of a
/// trait.
#[derive(Drop)]
pub struct ThreadStarter<J: Drop> {
    work: Sender<Work<J>>,
    thread: JoinHandle<()>,
}

/// Where jobs are given to a starter.
#[derive(Drop)]
pub struct JobSender<J: Drop> {
    work: Sender<Work<J>>,
}

// Gives a job to the starter. `false` says that too many wait for longer than `START_MILLISECONDS`, or that it has ended; then the job is
// dropped.
fn give<R: time::Clock + Wait, J: Drop>(rt: &R, work: &Sender<Work<J>>, job: J) -> bool {
    let most = Duration::from_millis(START_MILLISECONDS);
    work.send_timeout(rt, Work::Run(job), most).is_ok()
}

impl<J: Drop> JobSender<J> {
    /// Starts a thread for a job, soon. `false` says that too many wait for longer than `START_MILLISECONDS`, or that the starter has
    /// ended; then the job is dropped.
    pub fn start<R: time::Clock + Wait>(&self, rt: &R, job: J) -> bool {
        give(rt, &self.work, job)
    }
}

impl<J: Drop> ThreadStarter<J> {
    /// Starts a thread for a job, soon. `false` says that too many wait for longer than `START_MILLISECONDS`, or that it has ended; then
    /// the job is dropped.
    pub fn start<R: time::Clock + Wait>(&self, rt: &R, job: J) -> bool {
        give(rt, &self.work, job)
    }

    /// Where jobs are given to it.
    pub fn sender(&self) -> Result<JobSender<J>, AllocError> {
        Ok(JobSender {
            work: self.work.clone()?,
        })
    }

    /// Ends it, and with it the threads that are joined. Others go on.
    pub fn end<R: Threads + Wait>(self, rt: &R) {
        let ThreadStarter { work, thread } = self;
        let _ = work.send(rt, Work::End);
        drop(work);
        thread.join(rt);
    }
}

/// Starts the thread that starts others.
pub fn start_starter<
    K: KeptJob + Send + Drop + 'static,
    R: time::Clock + Wait + Threads + Copy + Drop + Send + 'static,
    J: Job<K> + Drop + Send + 'static,
>(rt: R, alloc: Global) -> Result<ThreadStarter<J>, AllocError> {
    let (work, receiver) = bounded(alloc, THREAD_QUEUE)?;
    match thread::spawn(&rt, move || start_threads::<K, R, J>(rt, alloc, receiver)) {
        Ok(thread) => Ok(ThreadStarter { work, thread }),
        Err(_) => Err(AllocError),
    }
}

// A thread that is joined.
#[derive(Drop)]
struct Running<K: KeptJob + Drop> {
    kept: K,
    thread: JoinHandle<()>,
}

impl<K: KeptJob + Drop> Running<K> {
    // Waits for its end, which is near.
    fn join<R: Threads>(self, rt: &R) {
        let Running { kept: _, thread } = self;
        thread.join(rt);
    }
}

// Starts a thread for each job, until no more come. After each, and where none comes for `JOIN_SECONDS`, it gives up those that have
// ended.
fn start_threads<
    K: KeptJob + Send + Drop + 'static,
    R: time::Clock + Wait + Threads + Copy + Drop + Send + 'static,
    J: Job<K> + Drop + Send + 'static,
>(rt: R, alloc: Global, work: Receiver<Work<J>>) {
    let mut running: Vec<Running<K>> = Vec::new(alloc);
    for _ in 0..u64::MAX {
        match work.recv_timeout(&rt, Duration::from_secs(JOIN_SECONDS)) {
            Ok(Work::Run(job)) => start_job(&rt, &mut running, job),
            Err(RecvTimeoutError::Timeout) => {}
            Ok(Work::End) | Err(RecvTimeoutError::Disconnected) => break,
        }
        join_ended(&rt, &mut running);
    }
    end_all(&rt, running);
}

// Starts the thread of a job.
fn start_job<K: KeptJob + Send + Drop + 'static, R: Threads, J: Job<K> + Send + Drop + 'static>(
    rt: &R,
    running: &mut Vec<Running<K>>,
    job: J,
) {
    let Ok(kept) = job.kept() else {
        job.refuse();
        return;
    };
    if running.reserve(1).is_err() {
        job.refuse();
        return;
    }
    let started = thread::spawn(rt, move || job.run());
    if let Some(kept) = kept {
        match started {
            Ok(thread) => {
                let _ = running.push(Running { kept, thread });
            }
            Err(_) => kept.fail(),
        }
    }
}

// Joins those that have nothing more to do, so that what they had is given up.
fn join_ended<R: Threads, K: KeptJob + Drop>(rt: &R, running: &mut Vec<Running<K>>) {
    for _ in 0..running.len() {
        if let Some(place) = running.iter().position(|known| known.kept.has_ended()) {
            running.swap_remove(place).join(rt);
        }
    }
}

// Ends all, and joins their threads.
fn end_all<R: Threads, K: KeptJob + Drop>(rt: &R, running: Vec<Running<K>>) {
    for known in running.iter() {
        known.kept.end();
    }
    for known in running {
        known.join(rt);
    }
}
