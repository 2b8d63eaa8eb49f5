//! What a transfer and the thread that ordered it share.

use crate::limits::{FRAMES_AHEAD, ORDERS_MOST};
use crossbeam_channel::{Receiver, Sender, TryRecvError, bounded};
use dns_name::Octets;
use net_base::WireState;
use server_io::OrderEnd;
use std::alloc::{AllocError, Global};
use std::net::{Shutdown, TcpStream};
use std::sync::atomic::{AtomicBool, Ordering};
use std::sync::{Arc, Mutex, Wait};

/// What comes of an order.
#[derive(Drop)]
pub(crate) enum Piece {
    /// The next message.
    Frame(Octets),
    /// Nothing more.
    End(OrderEnd),
}

// The connection of a transfer, while there is one, and whether the order was forgotten.
#[derive(Drop)]
struct Control {
    is_forgotten: AtomicBool,
    stream: Mutex<Option<Arc<TcpStream>>>,
}

/// One of the `ORDERS_MOST` places for transfers that are under way, which becomes free where this is dropped.
pub(crate) struct TransferPlace {
    state: Arc<WireState>,
}

/// The end of a transfer.
#[derive(Drop)]
pub(crate) struct OrderLine {
    control: Arc<Control>,
    pieces: Sender<Piece>,
    // Behind `pieces`, so that the thread that ordered is woken once there are no more.
    place: TransferPlace,
}

/// The end of the thread that ordered.
#[derive(Drop)]
pub(crate) struct OrderHandle {
    control: Arc<Control>,
    pieces: Receiver<Piece>,
}

impl TransferPlace {
    /// A place; `None` where all are taken.
    pub(crate) fn take(state: Arc<WireState>) -> Option<Self> {
        let before = state.transfers.fetch_add(1, Ordering::SeqCst);
        let place = TransferPlace { state };
        if before < ORDERS_MOST {
            Some(place)
        } else {
            None
        }
    }

    // The place is free from now on.
    fn leave(self) -> Arc<WireState> {
        let TransferPlace { state } = self;
        state.transfers.fetch_sub(1, Ordering::SeqCst);
        state
    }
}

impl Drop for TransferPlace {
    fn drop(self) {
        let TransferPlace { state } = self;
        state.transfers.fetch_sub(1, Ordering::SeqCst);
        state.signal.raise();
    }
}

/// Both ends of an order.
pub(crate) fn order_ends(
    alloc: Global,
    place: TransferPlace,
) -> Result<(OrderLine, OrderHandle), AllocError> {
    let (sender, receiver) = bounded(alloc, FRAMES_AHEAD)?;
    let control = Control {
        is_forgotten: AtomicBool::new(false),
        stream: Mutex::new(None),
    };
    let Ok(control) = Arc::new(alloc, control) else {
        return Err(AllocError);
    };
    let line = OrderLine {
        control: Arc::try_clone(&control)?,
        pieces: sender,
        place,
    };
    let handle = OrderHandle {
        control,
        pieces: receiver,
    };
    Ok((line, handle))
}

impl OrderLine {
    /// The transfer has this connection from now on. `false` says that the order was forgotten.
    pub(crate) fn hold<R: Wait>(&self, rt: &R, stream: Arc<TcpStream>) -> bool {
        *self.control.stream.lock(rt) = Some(stream);
        !self.control.is_forgotten.load(Ordering::SeqCst)
    }

    /// Hands on a message, once there is room for it. `false` says that the order was forgotten.
    pub(crate) fn give<R: Wait>(&self, rt: &R, message: Octets) -> bool {
        let is_given = self.pieces.send(rt, Piece::Frame(message)).is_ok();
        self.place.state.signal.raise();
        is_given
    }

    /// The transfer has ended so: it has no connection and no place any more, and tells it, likewise.
    pub(crate) fn end<R: Wait>(self, rt: &R, why: OrderEnd) {
        let OrderLine {
            control,
            pieces,
            place,
        } = self;
        let stream = control.stream.lock(rt).take();
        drop(stream);
        let state = place.leave();
        let _ = pieces.send(rt, Piece::End(why));
        state.signal.raise();
    }
}

impl OrderHandle {
    /// What has come, where something has. A transfer whose thread could not be started has ended so. It doesn't wait.
    pub(crate) fn take<R: Wait>(&self, rt: &R) -> Option<Piece> {
        match self.pieces.try_recv(rt) {
            Ok(piece) => Some(piece),
            Err(TryRecvError::Empty) => None,
            Err(TryRecvError::Disconnected) => Some(Piece::End(OrderEnd::FetchFault)),
        }
    }

    /// Closes the connection, so that the transfer ends soon.
    pub(crate) fn forget<R: Wait>(self, rt: &R) {
        self.control.is_forgotten.store(true, Ordering::SeqCst);
        if let Some(stream) = &*self.control.stream.lock(rt) {
            let _ = stream.shutdown(Shutdown::Both);
        }
    }
}
