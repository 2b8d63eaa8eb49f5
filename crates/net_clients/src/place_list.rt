//! Places in an order.

use std::alloc::{AllocError, Global};

// A place of the list, and its neighbours.
#[derive(Clone, Copy)]
struct Link {
    is_in: bool,
    before: Option<usize>,
    behind: Option<usize>,
}

// A place that is not in the list.
const OUT: Link = Link {
    is_in: false,
    before: None,
    behind: None,
};

/// Places of connections in the order in which they were put in, each at most once. No call takes longer where more are in it.
#[derive(Drop)]
pub(crate) struct PlaceList {
    links: Vec<Link>,
    first: Option<usize>,
    last: Option<usize>,
    len: usize,
}

impl PlaceList {
    /// An empty list that knows no place yet.
    pub(crate) fn new(alloc: Global) -> Self {
        PlaceList {
            links: Vec::new(alloc),
            first: None,
            last: None,
            len: 0,
        }
    }

    /// Makes room for one more place: the lowest that isn't known yet.
    pub(crate) fn grow(&mut self) -> Result<(), AllocError> {
        self.links.push(OUT)?;
        Ok(())
    }

    /// How many are in it.
    pub(crate) fn len(&self) -> usize {
        self.len
    }

    /// The one that was put in before all others.
    pub(crate) fn first(&self) -> Option<usize> {
        self.first
    }

    /// Puts a place behind all others, unless it is in already.
    pub(crate) fn push(&mut self, place: usize) {
        let last = self.last;
        if !self.put_in(place, last) {
            return;
        }
        match last {
            Some(last) => self.set_behind(last, Some(place)),
            None => self.first = Some(place),
        }
        self.last = Some(place);
        self.len = self.len.saturating_add(1);
    }

    // Puts a place in, and says whether it was out.
    fn put_in(&mut self, place: usize, before: Option<usize>) -> bool {
        match self.links.get_mut(place) {
            Some(link) if !link.is_in => {
                *link = Link {
                    is_in: true,
                    before,
                    behind: None,
                };
                true
            }
            _ => false,
        }
    }

    /// Takes a place out, where it is in.
    pub(crate) fn remove(&mut self, place: usize) {
        let Some(link) = self.take_out(place) else {
            return;
        };
        match link.before {
            Some(before) => self.set_behind(before, link.behind),
            None => self.first = link.behind,
        }
        match link.behind {
            Some(behind) => self.set_before(behind, link.before),
            None => self.last = link.before,
        }
        self.len = self.len.saturating_sub(1);
    }

    // Takes a place out, where it is in, and says which neighbours it had.
    fn take_out(&mut self, place: usize) -> Option<Link> {
        match self.links.get_mut(place) {
            Some(link) if link.is_in => {
                let before = *link;
                *link = OUT;
                Some(before)
            }
            _ => None,
        }
    }

    /// Takes out the one that was put in before all others.
    pub(crate) fn take_first(&mut self) -> Option<usize> {
        let first = self.first?;
        self.remove(first);
        Some(first)
    }

    fn set_before(&mut self, place: usize, before: Option<usize>) {
        if let Some(link) = self.links.get_mut(place) {
            link.before = before;
        }
    }

    fn set_behind(&mut self, place: usize, behind: Option<usize>) {
        if let Some(link) = self.links.get_mut(place) {
            link.behind = behind;
        }
    }
}
