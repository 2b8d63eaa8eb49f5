//! What the threads of wires are started for.

use crate::transfer::Transfer;
use net_base::Job;
use net_clients::{Reception, ServedConnections};
use std::alloc::AllocError;
use std::net::{Net, TcpListener, TcpStream};
use std::sync::Wait;
use std::time;

/// What a thread of wires is started for.
#[derive(Drop)]
pub(crate) enum WireJob<
    R: Net<Listener = TcpListener, Stream = TcpStream> + time::Clock + Wait + Copy + Drop,
> {
    /// To have the connections of clients. It is joined.
    Serve(Reception<R>),
    /// To run a transfer. It ends by itself.
    Transfer(Transfer<R>),
}

impl<R: Net<Listener = TcpListener, Stream = TcpStream> + time::Clock + Wait + Copy + Drop> Job<
    ServedConnections,
> for WireJob<R> {
    fn kept(&self) -> Result<Option<ServedConnections>, AllocError> {
        match self {
            WireJob::Serve(reception) => reception.kept(),
            WireJob::Transfer(_) => Ok(None),
        }
    }

    fn run(self) {
        match self {
            WireJob::Serve(reception) => reception.run(),
            WireJob::Transfer(transfer) => transfer.run(),
        }
    }

    // Without its thread a transfer ends, since what it was to hand on is given up.
    fn refuse(self) {
        match self {
            WireJob::Serve(reception) => reception.refuse(),
            WireJob::Transfer(_) => {}
        }
    }
}
