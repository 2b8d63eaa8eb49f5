//! The network of a server, over the system's sockets.

ghost use Rattle.std.specs.Prelude.{◌≡◌, ◌≤◌, None, Ok, length};
ghost use Rattle.edge_io.specs.Edge.{Rose};
ghost use Rattle.edge_io.specs.declared.frame.TheConstants.{FRAME_MAX};
ghost use Rattle.server_io.specs.Wired.{BlamesOrder};

use crate::orders::Orders;
use crate::waking::next_wake;
use crate::wire_job::WireJob;
use edge_io::{ConnectionLimits, Endpoint};
use ip_prefix::Transport;
use net_base::{ThreadStarter, WireState, start_starter, take_free_numbers};
use net_clients::{
    ClientSink, ClientSource, ConnectionInlet, DatagramInlet, ServedConnections, ServerReplies,
    Service,
};
use net_upstream::{TcpLink, Upstreams};
use server_io::{Order, Peer, SendError, Wake, WireError, Wires};
use std::alloc::Global;
use std::net::{Net, TcpListener, TcpStream};
use std::sync::{Arc, Wait};
use std::thread::Threads;
use std::time;

/// The network of a server: a UDP socket and a TCP listener at each endpoint that it serves, TCP connections to the primary servers
/// of its zones, and TCP connections to its upstream. It serves up to `LISTEN_LIMIT` endpoints.
///
/// It tells nothing of what comes and goes. The limits of time are those of `limits`. It has a thread for the connections of clients, one
/// for each connection to an upstream, one for each transfer that is under way, and two that start these. No call waits for any of
/// them, but for `stop`, which joins all but those of transfers.
///
/// An endpoint of version 6 takes nothing of version 4. Where the host has several addresses, each is an endpoint of its own: from the
/// unspecified address (0.0.0.0 or ::) the system sends a datagram from the address that it would choose, and not from the one that was
/// asked.
#[derive(Drop)]
pub struct NetWires<
    R: Net<Listener = TcpListener, Stream = TcpStream> + time::Clock + Wait + Copy + Drop,
> {
    rt: R,
    alloc: Global,
    turns: Option<u32>,
    admitted: Option<ConnectionLimits>,
    // What the threads share. Missing if there was no memory for it.
    shared: Option<Arc<WireState>>,
    // Missing if the system had no room for it, and once these wires have stopped.
    starter: Option<ThreadStarter<WireJob<R>>>,
    service: Option<Service<R>>,
    // The endpoint that the last `bind` couldn't open.
    refused: Option<Endpoint>,
    orders: Orders,
    upstreams: Upstreams<R>,
    order_faults: u64,
    faults: u64,
}

impl<
    R: Net<Listener = TcpListener, Stream = TcpStream>
        + time::Clock
        + Wait
        + Threads
        + Copy
        + Drop
        + Send
        + 'static,
> NetWires<R> {
    /// No endpoint is open yet, and no call has failed. Where there is no room for the thread that starts others, each `bind` and each
    /// `order` fails. The numbers of standard streams that are closed are taken, so that no socket gets one.
    pub fn new(rt: R, alloc: Global) -> Self
        ensures no_fault { ⟦<NetWires<R> as Wires>⟧.faults result ≡ 0 }
        ensures no_order_fault { ⟦<NetWires<R> as Wires>⟧.order_faults result ≡ 0 }
    {
        take_free_numbers();
        NetWires {
            rt,
            alloc,
            turns: None,
            admitted: None,
            shared: WireState::new(alloc).ok(),
            starter: start_starter::<ServedConnections, R, WireJob<R>>(rt, alloc).ok(),
            service: None,
            refused: None,
            orders: Orders::new(alloc),
            upstreams: Upstreams::new(rt, alloc),
            order_faults: 0,
            faults: 0,
        }
    }

    /// The endpoint that the last `bind` couldn't open; `None` where it opened all, or none was to blame.
    pub fn refused(&self) -> Option<Endpoint> {
        self.refused
    }
}

impl<
    R: Net<Listener = TcpListener, Stream = TcpStream> + time::Clock + Wait + Copy + Drop,
> NetWires<R> {
    // Opens these endpoints, and has a thread started for the connections of clients. `refused` becomes the one that couldn't be opened.
    fn open(
        &self,
        all: &[Endpoint],
        refused: &mut Option<Endpoint>,
    ) -> Result<Service<R>, WireError> {
        let (Some(shared), Some(starter)) = (&self.shared, &self.starter) else {
            return Err(WireError::Failed);
        };
        let (service, reception) = Service::open(self.rt, self.alloc, all, refused, shared)?;
        self.prepare(&service);
        match starter.start(&self.rt, WireJob::Serve(reception)) {
            true => Ok(service),
            false => Err(WireError::Failed),
        }
    }

    // Gives a service the limits that were set before.
    fn prepare(&self, service: &Service<R>) {
        if let Some(turns) = self.turns {
            service.limit(turns);
        }
        if let Some(limits) = self.admitted {
            service.admit(limits);
        }
    }
}

// Counts a call that has failed.
fn count_fault(faults: &mut u64)
    ensures fault { Rose faults.old faults.new }
    ensures count { faults.old ≤ faults.new }
{
    *faults = faults.saturating_add(1);
}

// Counts the end of an order that is a fault of its connection.
fn count_end(order_faults: &mut u64, wake: &Wake)
    ensures fault { BlamesOrder (Ok wake.now) (Rose order_faults.old order_faults.new) }
    ensures count { order_faults.old ≤ order_faults.new }
{
    if let Wake::Over { why, .. } = wake {
        if why.is_fault() {
            count_fault(order_faults);
        }
    }
}

impl<
    R: Net<Listener = TcpListener, Stream = TcpStream>
        + time::Clock
        + Wait
        + Threads
        + Copy
        + Drop
        + Send
        + 'static,
> Wires for NetWires<R> {
    type In = ClientSource<R>;

    type Out = ClientSink<R>;

    type Up = TcpLink<R>;

    type Back = ServerReplies<R>;

    type Datagrams = DatagramInlet<R>;

    type Connections = ConnectionInlet<R>;

    ghost told = { λ _. None };

    ghost order_faults = { λ w. w.order_faults };

    ghost faults = { λ w. w.faults };

    fn limit(&mut self, turns: u32) {
        self.turns = Some(turns);
        if let Some(service) = &self.service {
            service.limit(turns);
        }
    }

    fn admit(&mut self, limits: ConnectionLimits) {
        self.admitted = Some(limits);
        if let Some(service) = &self.service {
            service.admit(limits);
        }
    }

    fn bind(&mut self, all: &[Endpoint]) -> Result<(), WireError> {
        let mut refused = None;
        let opened = self.open(all, &mut refused);
        self.refused = refused;
        match opened {
            Ok(service) => {
                if let Some(before) = self.service.replace(service) {
                    before.stop();
                }
                Ok(())
            }
            Err(WireError::OutOfMemory) => Err(WireError::OutOfMemory),
            Err(WireError::Failed) => {
                count_fault(&mut self.faults);
                Err(WireError::Failed)
            }
        }
    }

    fn link(&mut self, upstream: Endpoint) -> Result<TcpLink<R>, WireError> {
        match self.upstreams.link(self.rt, upstream) {
            Ok(link) => Ok(link),
            Err(WireError::OutOfMemory) => Err(WireError::OutOfMemory),
            Err(WireError::Failed) => {
                count_fault(&mut self.faults);
                Err(WireError::Failed)
            }
        }
    }

    fn replies(&mut self) -> Result<ServerReplies<R>, WireError> {
        let Some(service) = &self.service else {
            count_fault(&mut self.faults);
            return Err(WireError::Failed);
        };
        match service.replies(self.rt) {
            Ok(replies) => Ok(replies),
            Err(_) => Err(WireError::OutOfMemory),
        }
    }

    fn datagrams(&mut self, listener: usize) -> Result<DatagramInlet<R>, WireError> {
        let made = match &self.service {
            Some(service) => service.datagrams(self.rt, self.alloc, listener),
            None => Err(WireError::Failed),
        };
        match made {
            Ok(inlet) => Ok(inlet),
            Err(WireError::OutOfMemory) => Err(WireError::OutOfMemory),
            Err(WireError::Failed) => {
                count_fault(&mut self.faults);
                Err(WireError::Failed)
            }
        }
    }

    fn connections(&mut self) -> Result<ConnectionInlet<R>, WireError> {
        let Some(service) = &self.service else {
            count_fault(&mut self.faults);
            return Err(WireError::Failed);
        };
        match service.connections(self.rt, self.alloc) {
            Ok(inlet) => Ok(inlet),
            Err(_) => Err(WireError::OutOfMemory),
        }
    }

    fn order(&mut self, primary: Endpoint, request: &[u8]) -> Result<Order, WireError> {
        let begun = match (&self.shared, &self.starter) {
            (Some(shared), Some(starter)) => {
                let orders = &mut self.orders;
                orders.order(self.rt, self.alloc, shared, starter, primary, request)
            }
            _ => Err(WireError::Failed),
        };
        match begun {
            Ok(order) => Ok(order),
            Err(WireError::OutOfMemory) => Err(WireError::OutOfMemory),
            Err(WireError::Failed) => {
                count_fault(&mut self.order_faults);
                Err(WireError::Failed)
            }
        }
    }

    fn forget(&mut self, order: Order) {
        self.orders.forget(&self.rt, order);
    }

    fn wait(&mut self) -> Result<Wake, WireError> {
        let next = match &self.shared {
            Some(shared) if self.service.is_some() || self.starter.is_some() => {
                next_wake(&self.rt, shared, &mut self.service, &mut self.orders)
            }
            _ => None,
        };
        match next {
            Some(wake) => {
                count_end(&mut self.order_faults, &wake);
                Ok(wake)
            }
            None => {
                count_fault(&mut self.faults);
                Err(WireError::Failed)
            }
        }
    }

    fn answer(&mut self, peer: Peer, transport: Transport, bytes: &[u8]) -> Result<(), SendError> {
        let sent = match &self.service {
            Some(service) => service.send(&self.rt, peer, transport, bytes),
            None => Err(SendError::Failed),
        };
        match sent {
            Err(SendError::Failed) => {
                count_fault(&mut self.faults);
                Err(SendError::Failed)
            }
            sent => sent,
        }
    }

    fn stop(&mut self) {
        if let Some(service) = &self.service {
            service.stop();
        }
        self.orders.forget_all(&self.rt);
        self.upstreams.stop(&self.rt);
        if let Some(starter) = self.starter.take() {
            starter.end(&self.rt);
        }
    }
}
