// The network of a server.
ghost use Rattle.std.specs.Prelude.{◌≡◌, ◌≤◌, ℕ, Option, Err, length};
ghost use Rattle.std.specs.Option.{option_map};
ghost use Rattle.edge_io.specs.Edge.{Rose};
ghost use Rattle.edge_io.specs.declared.frame.TheConstants.{FRAME_MAX};
ghost use Rattle.server_io.specs.Wired.{BlamesOrder, GivesNext, IsNextOrder, PlainWires, after_call, after_send, plain_order, with_admitted, with_bound, with_inlet, with_later_wakes, with_linked, with_ordered, with_turns};

use crate::{Inlet, Order, Peer, Replies, SendError, Wake};
use edge_io::{ConnectionLimits, Endpoint, Link, Sink, Source};
use ip_prefix::Transport;

/// Why a call of the wires gave nothing.
#[derive(Clone, Copy, Debug, PartialEq, Eq)]
pub enum WireError {
    /// There was no room. That is no fault: both counts of faults stand still.
    OutOfMemory,
    /// A fault of the wires. In `order` the count of orders that failed has risen in this call, and in any other call
    /// the other count.
    Failed,
}

/// The network of a server: the endpoints that it serves, the primary servers of its policy zones, and the upstream.
///
/// The threads that answer clients take arrivals from inlets. One thread has the wires: it binds, links and orders transfers,
/// and waits for what comes of them. No call waits for a client, a primary server or the upstream.
///
/// A listener is an endpoint that is served. Its number is its place in the list that was bound last, from 0 on.
pub trait Wires {
    /// The reading side of a connection that a client has opened.
    type In: Source + Drop + Send + 'static;

    /// The writing side of such a connection.
    type Out: Sink + Drop + Send + 'static;

    /// A link to the upstream.
    type Up: Link + Drop + Send + 'static;

    /// Where replies go.
    type Back: Replies<Self::In, Self::Out> + Drop + Send + 'static;

    /// Where datagrams are taken from.
    type Datagrams: Inlet<Self::In, Self::Out> + Drop + Send + 'static;

    /// Where connections are taken from.
    type Connections: Inlet<Self::In, Self::Out> + Drop + Send + 'static;

    /// What was asked of them so far, and the wakes that are still to come, where they tell it. Those in memory do, and
    /// those over sockets don't.
    ghost told: { Self → Option PlainWires };

    /// How often a connection to a primary server has failed: it could not be had, or a read or a write on it failed. It
    /// never falls, and stands still at 2^64 - 1.
    ghost order_faults: { Self → ℕ };

    /// How often any other call has failed. It never falls, and stands still at 2^64 - 1.
    ghost faults: { Self → ℕ };

    /// All inlets together give at most so many arrivals, of which a NOTIFY is one, and then end. Without this call there
    /// is no such limit.
    fn limit(&mut self, turns: u32)
        ensures told { told self.new ≡ option_map (with_turns turns) (told self.old) }
        ensures orders { order_faults self.new ≡ order_faults self.old }
        ensures count { faults self.new ≡ faults self.old };

    /// At most so many connections of clients are open at a time. Without this call the kind of wires has limits of its own.
    fn admit(&mut self, limits: ConnectionLimits)
        ensures told { told self.new ≡ option_map (with_admitted limits) (told self.old) }
        ensures orders { order_faults self.new ≡ order_faults self.old }
        ensures count { faults self.new ≡ faults self.old };

    /// Opens these endpoints, each for datagrams and for connections: all of them, or none.
    fn bind(&mut self, all: &[Endpoint]) -> Result<(), WireError>
        ensures told { told self.new ≡ after_call (with_bound all.now) result (told self.old) }
        ensures orders { order_faults self.new ≡ order_faults self.old }
        ensures count { faults self.old ≤ faults self.new }
        ensures failed { result ≡ Err WireError.Failed → Rose (faults self.old) (faults self.new) }
        ensures no_room { result ≡ Err WireError.OutOfMemory → faults self.new ≡ faults self.old };

    /// Makes a link to the upstream.
    fn link(&mut self, upstream: Endpoint) -> Result<Self::Up, WireError>
        ensures told { told self.new ≡ after_call (with_linked upstream) result (told self.old) }
        ensures orders { order_faults self.new ≡ order_faults self.old }
        ensures count { faults self.old ≤ faults self.new }
        ensures failed { result ≡ Err WireError.Failed → Rose (faults self.old) (faults self.new) }
        ensures no_room { result ≡ Err WireError.OutOfMemory → faults self.new ≡ faults self.old };

    /// Makes a place where replies go, each from the endpoint that its peer sent to.
    fn replies(&mut self) -> Result<Self::Back, WireError>
        ensures told { told self.new ≡ told self.old }
        ensures orders { order_faults self.new ≡ order_faults self.old }
        ensures count { faults self.old ≤ faults self.new }
        ensures failed { result ≡ Err WireError.Failed → Rose (faults self.old) (faults self.new) }
        ensures no_room { result ≡ Err WireError.OutOfMemory → faults self.new ≡ faults self.old };

    /// Makes an inlet for the datagrams that come to this listener. Each thread that takes some has one of its own.
    fn datagrams(&mut self, listener: usize) -> Result<Self::Datagrams, WireError>
        ensures told { told self.new ≡ after_call (with_inlet listener) result (told self.old) }
        ensures orders { order_faults self.new ≡ order_faults self.old }
        ensures count { faults self.old ≤ faults self.new }
        ensures failed { result ≡ Err WireError.Failed → Rose (faults self.old) (faults self.new) }
        ensures no_room { result ≡ Err WireError.OutOfMemory → faults self.new ≡ faults self.old };

    /// Makes an inlet for connections of clients, to all listeners. Each thread that takes some has one of its own.
    fn connections(&mut self) -> Result<Self::Connections, WireError>
        ensures told { told self.new ≡ told self.old }
        ensures orders { order_faults self.new ≡ order_faults self.old }
        ensures count { faults self.old ≤ faults self.new }
        ensures failed { result ≡ Err WireError.Failed → Rose (faults self.old) (faults self.new) }
        ensures no_room { result ≡ Err WireError.OutOfMemory → faults self.new ≡ faults self.old };

    /// Orders a transfer of a primary server: begins to open a connection to it, over which this request is written. What
    /// comes of that are wakes. Where it fails, none comes.
    fn order(&mut self, primary: Endpoint, request: &[u8]) -> Result<Order, WireError>
        requires { length request.now ≤ FRAME_MAX }
        ensures told { told self.new ≡
            after_call (with_ordered (plain_order primary request.now result)) result
            (told self.old) }
        ensures numbered { IsNextOrder (told self.old) result }
        ensures count { faults self.new ≡ faults self.old }
        ensures orders { order_faults self.old ≤ order_faults self.new }
        ensures failed { result ≡ Err WireError.Failed →
            Rose (order_faults self.old) (order_faults self.new) }
        ensures no_room { result ≡ Err WireError.OutOfMemory →
            order_faults self.new ≡ order_faults self.old };

    /// Lets an order go, and closes its connection. Wakes of it may still come, and are of no use.
    fn forget(&mut self, order: Order)
        ensures told { told self.new ≡ told self.old }
        ensures orders { order_faults self.new ≡ order_faults self.old }
        ensures count { faults self.new ≡ faults self.old };

    /// Waits for the next wake, a second at most.
    fn wait(&mut self) -> Result<Wake, WireError>
        ensures told { told self.new ≡ after_call with_later_wakes result (told self.old) }
        ensures next { GivesNext (told self.old) result }
        ensures orders { order_faults self.old ≤ order_faults self.new }
        ensures order_failed { BlamesOrder result
            (Rose (order_faults self.old) (order_faults self.new)) }
        ensures count { faults self.old ≤ faults self.new }
        ensures failed { result ≡ Err WireError.Failed → Rose (faults self.old) (faults self.new) }
        ensures no_room { result ≡ Err WireError.OutOfMemory →
            (order_faults self.new ≡ order_faults self.old) × (faults self.new ≡ faults self.old) };

    /// Sends a reply to a NOTIFY from the endpoint that its peer sent to: as one datagram, or over TCP as a frame on the connection of
    /// this peer. It doesn't wait.
    fn answer(&mut self, peer: Peer, transport: Transport, bytes: &[u8]) -> Result<(), SendError>
        ensures told { told self.new ≡
            after_send (record { peer = peer; transport = transport; bytes = bytes.now }) result
            (told self.old) }
        ensures orders { order_faults self.new ≡ order_faults self.old }
        ensures count { faults self.old ≤ faults self.new }
        ensures failed { result ≡ Err SendError.Failed → Rose (faults self.old) (faults self.new) }
        ensures no_room { result ≡ Err SendError.OutOfMemory → faults self.new ≡ faults self.old };

    /// Takes no more arrivals, and lets all orders go. The inlets give what was taken, and then end. It may be called
    /// again.
    fn stop(&mut self)
        ensures told { told self.new ≡ told self.old }
        ensures orders { order_faults self.new ≡ order_faults self.old }
        ensures count { faults self.new ≡ faults self.old };
}
