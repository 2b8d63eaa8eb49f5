// Wires in memory.
ghost use Rattle.std.specs.Prelude.{◌≡◌, ◌≤◌, ◌<◌, ◌++◌, [], ◌∷◌, Some, IfOk, map, vec_len, vec_capacity};
ghost use Rattle.edge_io.specs.Edge.{Rose};
ghost use Rattle.server_io.specs.Wired.{BlamesOrder, new_wires};

use crate::list_inlet::{ArrivalQueue, ListInlet};
use crate::{
    Arrival, Order, Peer, Replies, SendError, SentOrder, SentReply, Wake, WireError, Wires,
};
use dns_name::Octets;
use edge_io::{ConnectionLimits, Endpoint, Link, Schedule, Sink, Source};
use ip_prefix::Transport;
use std::alloc::{AllocError, Global};
use std::collections::VecDeque;
use std::sync::Wait;

/// What a wait of wires in memory does: it hands these arrivals to the inlets, and then gives this wake. `None` is a wait that
/// fails.
#[derive(Drop)]
pub struct WireStage<S: Source + Drop, K: Sink + Drop> {
    pub datagrams: Vec<Arrival<S, K>>,
    pub connections: Vec<Arrival<S, K>>,
    pub wake: Option<Wake>,
}

impl<S: Source + Drop, K: Sink + Drop> WireStage<S, K> {
    /// No arrival, and this wake.
    pub fn new(alloc: Global, wake: Option<Wake>) -> Self
        ensures datagrams { result.datagrams.items ≡ [] }
        ensures connections { result.connections.items ≡ [] }
        ensures wake { result.wake ≡ wake }
    {
        WireStage {
            datagrams: Vec::new(alloc),
            connections: Vec::new(alloc),
            wake,
        }
    }
}

/// Wires in memory. Each wait is one of a list of stages. The inlets end behind the last stage, by `stop`, or at the limit of
/// arrivals; the wake `Ended` doesn't wait for that. The inlets for datagrams of all listeners take from one queue, whatever the
/// listener of a peer is. Links and places for replies are handed out from lists, and a call behind the last of its list fails, as
/// does one for an inlet of a listener that there is not. Other calls fail where they are told to.
#[derive(Drop)]
pub struct ListWires<
    S: Source + Drop,
    K: Sink + Drop,
    L: Link + Drop,
    P: Replies<S, K> + Drop,
    R: Wait + Copy + Drop,
> {
    rt: R,
    alloc: Global,
    stages: VecDeque<WireStage<S, K>>,
    datagrams: ArrivalQueue<S, K>,
    connections: ArrivalQueue<S, K>,
    links: VecDeque<L>,
    backs: VecDeque<P>,
    /// How many arrivals are taken in all, where that was said.
    pub turns: Option<u32>,
    /// How many connections of clients may be open, where that was said.
    pub admitted: Option<ConnectionLimits>,
    // How many more are handed to inlets.
    left: u64,
    /// The endpoints that `bind` was given, in order. Those of a call that ran out of memory are not among them.
    pub bound: Vec<Endpoint>,
    /// The listeners that `datagrams` was given, likewise.
    pub inlets: Vec<usize>,
    // How many endpoints were bound last.
    listeners: usize,
    /// The endpoints that `link` was given, likewise.
    pub linked: Vec<Endpoint>,
    /// The transfers that were ordered, likewise.
    pub ordered: Vec<SentOrder>,
    /// The replies to NOTIFY that were sent, in order.
    pub answered: Vec<SentReply>,
    orders: Schedule,
    schedule: Schedule,
}

// How many arrivals the stages have: datagrams, and connections.
fn arrival_counts<S: Source + Drop, K: Sink + Drop>(
    stages: &VecDeque<WireStage<S, K>>,
) -> (usize, usize) {
    let (mut datagrams, mut connections) = (0usize, 0usize);
    for stage in stages {
        datagrams = datagrams.saturating_add(stage.datagrams.len());
        connections = connections.saturating_add(stage.connections.len());
    }
    (datagrams, connections)
}

impl<
    S: Source + Drop + Send + 'static,
    K: Sink + Drop + Send + 'static,
    L: Link + Drop + Send + 'static,
    P: Replies<S, K> + Drop + Send + 'static,
    R: Wait + Copy + Drop + Send + 'static,
> ListWires<S, K, L, P, R> {
    /// Nothing was asked yet. Of `bind`, `datagrams`, `connections` and `answer`, counted together, the calls of the numbers in
    /// `failing` fail, and of `order` those in `failing_orders`. The first call is call 0.
    pub fn new(
        rt: R,
        alloc: Global,
        stages: VecDeque<WireStage<S, K>>,
        links: VecDeque<L>,
        backs: VecDeque<P>,
        failing: Vec<u64>,
        failing_orders: Vec<u64>,
    ) -> Result<Self, AllocError>
        ensures told { IfOk result (λ wires. ⟦<ListWires<S, K, L, P, R> as Wires>⟧.told wires
            ≡ Some (new_wires (map (λ stage. stage.wake) stages.items))) }
        ensures no_order_fault { IfOk result (λ wires.
            ⟦<ListWires<S, K, L, P, R> as Wires>⟧.order_faults wires ≡ 0) }
        ensures no_fault { IfOk result (λ wires.
            ⟦<ListWires<S, K, L, P, R> as Wires>⟧.faults wires ≡ 0) }
    {
        let (datagrams, connections) = arrival_counts(&stages);
        let datagrams = ArrivalQueue::new(alloc, datagrams)?;
        let connections = ArrivalQueue::new(alloc, connections)?;
        Ok(ListWires {
            rt,
            alloc,
            stages,
            datagrams,
            connections,
            links,
            backs,
            turns: None,
            admitted: None,
            left: u64::MAX,
            bound: Vec::new(alloc),
            inlets: Vec::new(alloc),
            listeners: 0,
            linked: Vec::new(alloc),
            ordered: Vec::new(alloc),
            answered: Vec::new(alloc),
            orders: Schedule::new(failing_orders),
            schedule: Schedule::new(failing),
        })
    }
}

// Counts a call that found nothing to hand out.
fn nothing_left(schedule: &mut Schedule) -> WireError
    ensures error { result ≡ WireError.Failed }
    ensures fault { Rose schedule.old.faults schedule.new.faults }
    ensures count { schedule.old.faults ≤ schedule.new.faults }
{
    schedule.count_fault();
    WireError::Failed
}

// Counts the end of an order that is a fault of its connection.
fn count_order(orders: &mut Schedule, wake: &Wake)
    ensures fault { BlamesOrder (Ok wake.now) (Rose orders.old.faults orders.new.faults) }
    ensures count { orders.old.faults ≤ orders.new.faults }
{
    if let Wake::Over { why, .. } = wake {
        if why.is_fault() {
            orders.count_fault();
        }
    }
}

// Puts an order behind the others, where there is room for it.
fn keep(orders: &mut Vec<SentOrder>, order: SentOrder)
    requires { vec_len orders.old < vec_capacity orders.old }
    ensures { orders.new.items ≡ orders.old.items ++ order ∷ [] }
{
    match orders.push(order) {
        Ok(()) => {}
        Err(_) => unreachable!(),
    }
}

impl<
    S: Source + Drop + Send + 'static,
    K: Sink + Drop + Send + 'static,
    L: Link + Drop + Send + 'static,
    P: Replies<S, K> + Drop + Send + 'static,
    R: Wait + Copy + Drop + Send + 'static,
> Wires for ListWires<S, K, L, P, R> {
    type In = S;

    type Out = K;

    type Up = L;

    type Back = P;

    type Datagrams = ListInlet<S, K, R>;

    type Connections = ListInlet<S, K, R>;

    ghost told = { λ w. Some (record {
      turns = w.turns;
      admitted = w.admitted;
      bound = w.bound.items;
      inlets = w.inlets.items;
      linked = w.linked.items;
      ordered = w.ordered.items;
      answered = w.answered.items;
      wakes = map (λ stage. stage.wake) w.stages.items;
    }) };

    ghost order_faults = { λ w. w.orders.faults };

    ghost faults = { λ w. w.schedule.faults };

    fn limit(&mut self, turns: u32) {
        self.turns = Some(turns);
        self.left = u64::from(turns);
    }

    fn admit(&mut self, limits: ConnectionLimits) {
        self.admitted = Some(limits);
    }

    fn bind(&mut self, all: &[Endpoint]) -> Result<(), WireError> {
        if self.bound.extend_from_slice(all).is_err() {
            return Err(WireError::OutOfMemory);
        }
        if self.schedule.fails_now() {
            return Err(WireError::Failed);
        }
        self.listeners = all.len();
        Ok(())
    }

    fn link(&mut self, upstream: Endpoint) -> Result<L, WireError> {
        if self.linked.push(upstream).is_err() {
            return Err(WireError::OutOfMemory);
        }
        match self.links.pop_front() {
            Some(link) => Ok(link),
            None => Err(nothing_left(&mut self.schedule)),
        }
    }

    fn replies(&mut self) -> Result<P, WireError> {
        match self.backs.pop_front() {
            Some(replies) => Ok(replies),
            None => Err(nothing_left(&mut self.schedule)),
        }
    }

    fn datagrams(&mut self, listener: usize) -> Result<ListInlet<S, K, R>, WireError> {
        let Ok(inlet) = self.datagrams.inlet(self.rt) else {
            return Err(WireError::OutOfMemory);
        };
        if self.inlets.push(listener).is_err() {
            return Err(WireError::OutOfMemory);
        }
        if self.schedule.fails_now() {
            return Err(WireError::Failed);
        }
        if listener >= self.listeners {
            return Err(nothing_left(&mut self.schedule));
        }
        Ok(inlet)
    }

    fn connections(&mut self) -> Result<ListInlet<S, K, R>, WireError> {
        if self.schedule.fails_now() {
            return Err(WireError::Failed);
        }
        match self.connections.inlet(self.rt) {
            Ok(inlet) => Ok(inlet),
            Err(_) => Err(WireError::OutOfMemory),
        }
    }

    fn order(&mut self, primary: Endpoint, request: &[u8]) -> Result<Order, WireError> {
        let Ok(request) = Octets::from_slice(self.alloc, request) else {
            return Err(WireError::OutOfMemory);
        };
        if self.ordered.reserve(1).is_err() {
            return Err(WireError::OutOfMemory);
        }
        let order = Order {
            number: self.ordered.len() as u64,
        };
        if self.orders.fails_now() {
            keep(&mut self.ordered, SentOrder::new(primary, request, None));
            return Err(WireError::Failed);
        }
        keep(
            &mut self.ordered,
            SentOrder::new(primary, request, Some(order)),
        );
        Ok(order)
    }

    fn forget(&mut self, _order: Order) {}

    fn wait(&mut self) -> Result<Wake, WireError> {
        let Some(stage) = self.stages.pop_front() else {
            self.stop();
            return Ok(Wake::Ended { dropped: 0 });
        };
        let left = self.datagrams.put(&self.rt, stage.datagrams, self.left);
        self.left = self.connections.put(&self.rt, stage.connections, left);
        if self.left == 0 {
            self.stop();
        }
        match stage.wake {
            Some(wake) => {
                count_order(&mut self.orders, &wake);
                Ok(wake)
            }
            None => {
                self.schedule.count_fault();
                Err(WireError::Failed)
            }
        }
    }

    fn answer(&mut self, peer: Peer, transport: Transport, bytes: &[u8]) -> Result<(), SendError> {
        if self.schedule.fails_now() {
            return Err(SendError::Failed);
        }
        let bytes = Octets::from_slice(self.alloc, bytes)?;
        self.answered.push(SentReply::new(peer, transport, bytes))?;
        Ok(())
    }

    fn stop(&mut self) {
        self.datagrams.end();
        self.connections.end();
    }
}
