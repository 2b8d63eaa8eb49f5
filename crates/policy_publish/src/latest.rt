//! The list that was published last, for all threads of a server.

ghost use Rattle.std.specs.Prelude.{◌≡◌, ◌≢◌, None, IfOk, IsNone, IsSome, IfNone, OnSome};

use crate::front::StoreName;
use crate::reader::Told;
use std::alloc::{AllocError, Global};
use std::marker::Model;
use std::mem;
use std::sync::atomic::{AtomicU64, Ordering};
use std::sync::{Arc, Mutex, Wait};

// A list under a lock, and its number, which is raised behind each change of the list.
#[derive(Drop)]
struct Numbered<N: StoreName> {
    number: AtomicU64,
    told: Mutex<Told<N>>,
}

impl<N: StoreName> Numbered<N> {
    // Puts a list in place of the one before, and gives that back: the lock is left when this returns.
    fn swap<R: Wait>(&self, rt: &R, told: Told<N>) -> Told<N> {
        mem::replace(&mut *self.told.lock(rt), told)
    }

    // A copy of the list.
    fn copy<R: Wait>(&self, rt: &R) -> Told<N> {
        self.told.lock(rt).again()
    }
}

/// A thread's handle on the list that was published last, which stands in one place for all threads of a server. The list has a number,
/// so that a thread takes the lock only for a list that it hasn't learned. The lock is held while a list is put in or copied, and for
/// nothing else; no memory is taken under it. Contracts see the number of the list that the handle gave last, `None` where it has given
/// none. Which list that is they can't know, since other threads may put one in at any time: it is one of the store that `N` names.
#[derive(Drop)]
pub struct Latest<N: StoreName> {
    list: Arc<Numbered<N>, Global>,
    learned: Option<u64>,
}

impl<N: StoreName> Model for Latest<N> {
    ghost use Rattle.std.specs.Prelude.{Option, ℕ};

    ghost Value = { Option ℕ };

    ghost view = { λ l. l.learned };

    ghost invariant = { λ l. Unit {0} };
}

impl<N: StoreName> Latest<N> {
    /// Nothing newer than this list is published yet.
    pub fn start(alloc: Global, told: Told<N>) -> Result<Latest<N>, AllocError>
        ensures { IfOk result (λ latest. latest ≡ None) }
    {
        let list = Numbered {
            number: AtomicU64::new(0),
            told: Mutex::new(told),
        };
        Ok(Latest {
            list: Arc::new(alloc, list)?,
            learned: None,
        })
    }

    /// A handle on the same list, for another thread, which has given none yet. It waits for nobody and takes no memory; it answers an
    /// error only where there are 2^63 handles.
    pub fn again(&self) -> Result<Latest<N>, AllocError>
        ensures { IfOk result (λ latest. latest ≡ None) }
    {
        Ok(Latest {
            list: Arc::try_clone(&self.list)?,
            learned: None,
        })
    }

    /// Puts a list in place of the one before, and raises the number only then: who sees the new number finds this list or one that
    /// was put in later. It waits while another thread has the lock, and takes no memory.
    pub fn set<R: Wait>(&self, rt: &R, told: Told<N>) {
        // the list before is dropped when the lock is left
        let _before = self.list.swap(rt, told);
        self.list.number.fetch_add(1, Ordering::SeqCst);
    }

    /// The list, where its number isn't that of the list which this handle gave last. Else `None`, and the lock isn't taken. The number
    /// is read before the list, so that a list which is put in between the two comes once more under its own number, and none is
    /// missed. It waits while another thread has the lock, and takes no memory.
    pub fn newer<R: Wait>(&mut self, rt: &R) -> Option<Told<N>>
        ensures first { IsNone self.old → IsSome result }
        ensures some { OnSome result (IsSome self.new × (self.new ≢ self.old)) }
        ensures none { IfNone result (self.new ≡ self.old) }
    {
        let number = self.list.number.load(Ordering::SeqCst);
        if self.learned == Some(number) {
            return None;
        }
        self.learned = Some(number);
        Some(self.list.copy(rt))
    }
}
