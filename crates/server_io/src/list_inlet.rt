// Inlets in memory, and the queues that they take from.
use crate::{Arrival, Inlet, Received};
use crossbeam_channel::{Receiver, Sender, bounded};
use edge_io::{Sink, Source};
use std::alloc::{AllocError, Global};
use std::sync::Wait;

/// An inlet of wires in memory: it waits for an arrival however long that takes, and so gives no `Nothing`.
#[derive(Drop)]
pub struct ListInlet<S: Source + Drop, K: Sink + Drop, R: Wait + Drop> {
    rt: R,
    arrivals: Receiver<Arrival<S, K>>,
}

impl<S: Source + Drop, K: Sink + Drop, R: Wait + Drop> Inlet<S, K> for ListInlet<S, K, R> {
    fn next(&mut self) -> Received<S, K> {
        match self.arrivals.recv(&self.rt) {
            Ok(arrival) => Received::Arrival(arrival),
            Err(_) => Received::End,
        }
    }
}

/// A queue of arrivals, from which several inlets take.
#[derive(Drop)]
pub(crate) struct ArrivalQueue<S: Source + Drop, K: Sink + Drop> {
    // `None` once no more is put into it.
    sender: Option<Sender<Arrival<S, K>>>,
    receiver: Receiver<Arrival<S, K>>,
}

impl<S: Source + Drop, K: Sink + Drop> ArrivalQueue<S, K> {
    /// Room for so many: none that is put into it waits for another to be taken, or needs memory.
    pub(crate) fn new(alloc: Global, count: usize) -> Result<Self, AllocError> {
        let (sender, receiver) = bounded(alloc, count.max(1))?;
        Ok(ArrivalQueue {
            sender: Some(sender),
            receiver,
        })
    }

    /// One more inlet.
    pub(crate) fn inlet<R: Wait + Drop>(&self, rt: R) -> Result<ListInlet<S, K, R>, AllocError> {
        Ok(ListInlet {
            rt,
            arrivals: self.receiver.clone()?,
        })
    }

    /// Puts arrivals into the queue, at most so many, and says how many more are left of that number. The others are dropped.
    pub(crate) fn put<R: Wait>(&self, rt: &R, arrivals: Vec<Arrival<S, K>>, most: u64) -> u64 {
        let mut left = most;
        if let Some(sender) = &self.sender {
            for arrival in arrivals {
                if left > 0 {
                    left -= 1;
                    let _ = sender.send(rt, arrival);
                }
            }
        }
        left
    }

    /// No more is put into it. The inlets give what is in it, and end.
    pub(crate) fn end(&mut self) {
        self.sender = None;
    }
}
