//! The transfers that are under way.

ghost use Rattle.std.specs.Prelude.{◌≤◌, length};
ghost use Rattle.edge_io.specs.declared.frame.TheConstants.{FRAME_MAX};

use crate::order_line::{OrderHandle, OrderLine, Piece, TransferPlace, order_ends};
use crate::transfer::Transfer;
use crate::wire_job::WireJob;
use dns_name::Octets;
use edge_io::Endpoint;
use net_base::{ThreadStarter, WireState};
use server_io::{Order, Wake, WireError};
use std::alloc::{AllocError, Global};
use std::net::{Net, TcpListener, TcpStream};
use std::sync::{Arc, Wait};
use std::time;

// An order, and where what comes of it is taken from.
#[derive(Drop)]
struct Pending {
    order: Order,
    handle: OrderHandle,
}

/// The transfers that are under way, as the thread that ordered them has them.
#[derive(Drop)]
pub(crate) struct Orders {
    pending: Vec<Pending>,
    // Which was looked at last, so that each has its turn.
    place: usize,
    // How many were ordered.
    ordered: u64,
}

// Both ends of an order; none where too many transfers are under way.
fn ends_of(
    alloc: Global,
    state: &Arc<WireState>,
) -> Result<Option<(OrderLine, OrderHandle)>, AllocError> {
    match TransferPlace::take(Arc::try_clone(state)?) {
        Some(place) => Ok(Some(order_ends(alloc, place)?)),
        None => Ok(None),
    }
}

// Begins a transfer.
fn begin<R: Net<Listener = TcpListener, Stream = TcpStream> + time::Clock + Wait + Copy + Drop>(
    rt: R,
    alloc: Global,
    wires: &Arc<WireState>,
    starter: &ThreadStarter<WireJob<R>>,
    primary: Endpoint,
    request: &[u8],
) -> Result<OrderHandle, WireError>
    requires { length request.now ≤ FRAME_MAX }
{
    let Ok(request) = Octets::from_slice(alloc, request) else {
        return Err(WireError::OutOfMemory);
    };
    let (line, handle) = match ends_of(alloc, wires) {
        Ok(Some(ends)) => ends,
        Ok(None) => return Err(WireError::Failed),
        Err(_) => return Err(WireError::OutOfMemory),
    };
    wires.add_primary(&rt, primary.addr);
    let transfer = Transfer::new(rt, alloc, primary, request, line);
    if !starter.start(&rt, WireJob::Transfer(transfer)) {
        return Err(WireError::Failed);
    }
    Ok(handle)
}

impl Orders {
    /// Nothing was ordered.
    pub(crate) fn new(alloc: Global) -> Self {
        Orders {
            pending: Vec::new(alloc),
            place: 0,
            ordered: 0,
        }
    }

    /// Orders a transfer of this primary server by this request. `Failed` comes where as many are under way as may be.
    pub(crate) fn order<
        R: Net<Listener = TcpListener, Stream = TcpStream> + time::Clock + Wait + Copy + Drop,
    >(
        &mut self,
        rt: R,
        alloc: Global,
        wires: &Arc<WireState>,
        starter: &ThreadStarter<WireJob<R>>,
        primary: Endpoint,
        request: &[u8],
    ) -> Result<Order, WireError>
        requires { length request.now ≤ FRAME_MAX }
    {
        if self.pending.reserve(1).is_err() {
            return Err(WireError::OutOfMemory);
        }
        match begin(rt, alloc, wires, starter, primary, request) {
            Ok(handle) => {
                let order = self.next_order();
                let _ = self.pending.push(Pending { order, handle });
                Ok(order)
            }
            Err(WireError::OutOfMemory) => Err(WireError::OutOfMemory),
            Err(WireError::Failed) => {
                self.next_order();
                Err(WireError::Failed)
            }
        }
    }

    // The order whose number is how many were ordered before it.
    fn next_order(&mut self) -> Order {
        let number = self.ordered;
        self.ordered = number.saturating_add(1);
        Order { number }
    }

    /// Lets an order go.
    pub(crate) fn forget<R: Wait>(&mut self, rt: &R, order: Order) {
        if let Some(place) = self.pending.iter().position(|known| known.order == order) {
            self.pending.swap_remove(place).handle.forget(rt);
        }
    }

    /// Lets all orders go.
    pub(crate) fn forget_all<R: Wait>(&mut self, rt: &R) {
        for _ in 0..self.pending.len() {
            if let Some(pending) = self.pending.pop() {
                pending.handle.forget(rt);
            }
        }
    }

    /// What has come of one of them, each in its turn. One whose end was given is let go. It doesn't wait.
    pub(crate) fn take<R: Wait>(&mut self, rt: &R) -> Option<Wake> {
        for _ in 0..self.pending.len() {
            self.place = self.place.saturating_add(1);
            if self.place >= self.pending.len() {
                self.place = 0;
            }
            if let Some(wake) = self.take_at(rt, self.place) {
                return Some(wake);
            }
        }
        None
    }

    fn take_at<R: Wait>(&mut self, rt: &R, place: usize) -> Option<Wake> {
        let pending = self.pending.get(place)?;
        let order = pending.order;
        match pending.handle.take(rt)? {
            Piece::Frame(bytes) => Some(Wake::Frame { order, bytes }),
            Piece::End(why) => {
                self.forget(rt, order);
                Some(Wake::Over { order, why })
            }
        }
    }
}
