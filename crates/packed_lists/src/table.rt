//! A list of items that can be shared one by one.

ghost use Rattle.std.specs.Prelude.{◌≡◌, ◌<◌, ◌≤◌, [], ◌∷◌, ◌++◌, length, map, slice_get, slice_set, Some, IfOk, OnErr};

use crate::share::Share;
use std::alloc::{AllocError, Global};
use std::marker::Model;
use std::sync::Arc;

// How many items a full group has.
const GROUP: usize = 64;

// How many groups may be full, so that the number of all items is below 2^32.
const MOST_GROUPS: usize = 67_108_862;

/// A list that grows at its end, whose items can be replaced. They stand in groups of 64, which copies of the list share, so that
/// a copy takes time for each 64th item, and an edit of either copies one group. Contracts see the list of its items.
#[derive(Drop)]
pub struct SharedTable<T> {
    full: Vec<Arc<Vec<T>>>,
    tail: Vec<T>,
    alloc: Global,
}

impl<T> Model for SharedTable<T> {
    ghost use Rattle.std.specs.Prelude.{List, ◌≡◌, ◌≤◌, ◌++◌, length, map};
    ghost use Rattle.std.specs.List.{AllByRecursion, flat_map};

    ghost Value = { List T };

    ghost view = { λ s. flat_map (λ v. v.items) (map (λ g. g.value) s.full.items)
        ++ s.tail.items };

    ghost invariant = { λ s. AllByRecursion (λ v. length v.items ≡ 64)
        (map (λ g. g.value) s.full.items)
        × (length s.full.items ≤ 67108862) × (length s.tail.items ≤ 64) };
}

impl<T> SharedTable<T> {
    /// No items. It takes no memory.
    pub fn new(alloc: Global) -> Self
        ensures { result ≡ [] }
    {
        SharedTable {
            full: Vec::new(alloc),
            tail: Vec::new(alloc),
            alloc,
        }
    }

    /// How many items: fewer than 2^32 - 1.
    pub fn len(&self) -> usize
        ensures len { result ≡ length self.now }
        ensures few { length self.now < 4294967295 }
    {
        self.full.len() * GROUP + self.tail.len()
    }

    /// The item at the place.
    pub fn get(&self, place: usize) -> &T
        requires { place < length self.now }
        ensures { slice_get self.now place ≡ Some result.now }
    {
        let group = place / GROUP;
        if group < self.full.len() {
            let items: &Vec<T> = &self.full[group];
            &items[place % GROUP]
        } else {
            &self.tail[place - self.full.len() * GROUP]
        }
    }

    /// Puts an item at the end. An `Err` leaves the list as it was; it comes where allocation fails, and where the list has
    /// as many items as it may have.
    pub fn push(&mut self, item: T) -> Result<(), AllocError>
    where
        T: Share,
        ensures ok { IfOk result (λ _. self.new ≡ self.old ++ item ∷ []) }
        ensures err { OnErr result (self.new ≡ self.old) }
    {
        if self.tail.len() == GROUP {
            if self.full.len() >= MOST_GROUPS {
                return Err(AllocError);
            }
            let items = share_items(self.alloc, &self.tail)?;
            let group = Arc::new(self.alloc, items)?;
            let mut tail = Vec::with_capacity(self.alloc, 1)?;
            self.full.reserve(1)?;
            self.full.push_reserved(group);
            tail.push_reserved(item);
            self.tail = tail;
        } else {
            self.tail.push(item)?;
        }
        Ok(())
    }

    /// Puts an item in place of that at the place. An `Err` leaves the list as it was.
    pub fn set(&mut self, place: usize, item: T) -> Result<(), AllocError>
    where
        T: Share,
        requires { place < length self.old }
        ensures ok { IfOk result (λ _. self.new ≡ slice_set self.old place item) }
        ensures err { OnErr result (self.new ≡ self.old) }
    {
        let group = place / GROUP;
        if group < self.full.len() {
            let items = share_but(self.alloc, &self.full[group], place % GROUP, item)?;
            let items = Arc::new(self.alloc, items)?;
            self.full[group] = items;
            Ok(())
        } else {
            let at = place - self.full.len() * GROUP;
            self.tail[at] = item;
            Ok(())
        }
    }
}

impl<T: Share> Share for SharedTable<T> {
    // All groups but the last are in both.
    fn share(&self) -> Result<Self, AllocError> {
        let full = share_groups(self.alloc, &self.full)?;
        let tail = share_items(self.alloc, &self.tail)?;
        Ok(SharedTable {
            full,
            tail,
            alloc: self.alloc,
        })
    }
}

fn share_groups<T: Drop>(
    alloc: Global,
    groups: &Vec<Arc<Vec<T>>>,
) -> Result<Vec<Arc<Vec<T>>>, AllocError>
    ensures { IfOk result
        (λ other. map (λ g. g.value) other.items ≡ map (λ g. g.value) groups.now.items) }
{
    let mut full = Vec::with_capacity(alloc, groups.len())?;
    for group in groups {
        full.push(Arc::try_clone(group)?)?;
    }
    Ok(full)
}

fn share_items<T: Share>(alloc: Global, items: &Vec<T>) -> Result<Vec<T>, AllocError>
    ensures { IfOk result (λ other. other.items ≡ items.now.items) }
{
    let mut tail = Vec::with_capacity(alloc, items.len())?;
    for item in items {
        tail.push(item.share()?)?;
    }
    Ok(tail)
}

// The same items, but for one.
fn share_but<T: Share>(
    alloc: Global,
    items: &Vec<T>,
    place: usize,
    item: T,
) -> Result<Vec<T>, AllocError>
    requires { place < length items.now.items }
    ensures { IfOk result (λ other. other.items ≡ slice_set items.now.items place item) }
{
    let mut other = share_items(alloc, items)?;
    other[place] = item;
    Ok(other)
}
