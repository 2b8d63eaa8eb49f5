//! A transfer that was ordered, as its thread runs it.

ghost use Rattle.std.specs.Prelude.{◌≤◌, length};
ghost use Rattle.edge_io.specs.declared.frame.TheConstants.{FRAME_MAX};

use crate::limits::{CONNECT_SECONDS, TRANSFER_BUFFER};
use crate::order_line::OrderLine;
use crate::primary_connection::sides_of;
use dns_name::Octets;
use edge_io::{Endpoint, FrameError, FrameFault, SinkError, read_frame, write_frame};
use net_base::limits::{TRANSFER_IDLE_SECONDS, TRANSFER_SECONDS};
use net_base::{TcpSink, TcpSource, address_of, moment_after};
use server_io::{OrderEnd, WireError};
use std::alloc::Global;
use std::net::{Net, TcpListener, TcpStream};
use std::sync::Wait;
use std::time;
use std::time::Duration;

/// A transfer that was ordered of a primary server, and where its messages go. A thread of its own runs it.
#[derive(Drop)]
pub(crate) struct Transfer<
    R: Net<Listener = TcpListener, Stream = TcpStream> + time::Clock + Copy + Drop,
> {
    pub(crate) rt: R,
    pub(crate) alloc: Global,
    pub(crate) primary: Endpoint,
    pub(crate) request: Octets,
    pub(crate) line: OrderLine,
    ghost fits: { length request ≤ FRAME_MAX },
}

// Both sides of the connection to a primary server.
type Connection<R> = (TcpSource<R>, TcpSink<R>);

impl<
    R: Net<Listener = TcpListener, Stream = TcpStream> + time::Clock + Wait + Copy + Drop,
> Transfer<R> {
    /// A transfer of this primary server by this request.
    pub(crate) fn new(
        rt: R,
        alloc: Global,
        primary: Endpoint,
        request: Octets,
        line: OrderLine,
    ) -> Self
        requires { length request ≤ FRAME_MAX }
    {
        Transfer {
            rt,
            alloc,
            primary,
            request,
            line,
        }
    }

    /// Runs it to its end, and tells how it has ended.
    pub(crate) fn run(self) {
        let why = match self.open() {
            Ok((source, sink)) => self.ask(source, sink),
            Err(why) => why,
        };
        let Transfer {
            rt,
            alloc: _,
            primary: _,
            request: _,
            line,
        } = self;
        line.end(&rt, why);
    }

    // Opens a connection to the primary server, which can be closed by whoever forgets the order.
    fn open(&self) -> Result<Connection<R>, OrderEnd> {
        let within = Duration::from_secs(CONNECT_SECONDS);
        let Ok(end) = moment_after(&self.rt, Duration::from_secs(TRANSFER_SECONDS)) else {
            return Err(OrderEnd::FetchFault);
        };
        let Ok(stream) = self.rt.connect_timeout(address_of(self.primary), within) else {
            return Err(OrderEnd::FetchFault);
        };
        let limit = Duration::from_secs(TRANSFER_IDLE_SECONDS);
        match sides_of(self.rt, self.alloc, stream, TRANSFER_BUFFER, end, limit) {
            Ok(sides) => Ok(sides),
            Err(WireError::OutOfMemory) => Err(OrderEnd::OutOfMemory),
            Err(WireError::Failed) => Err(OrderEnd::FetchFault),
        }
    }

    // Writes the request, and hands on the messages that come.
    fn ask(&self, source: TcpSource<R>, sink: TcpSink<R>) -> OrderEnd {
        let (mut source, mut sink) = (source, sink);
        let Ok(handle) = source.handle() else {
            return OrderEnd::OutOfMemory;
        };
        if !self.line.hold(&self.rt, handle) {
            return OrderEnd::End;
        }
        match write_frame(&mut sink, self.request.as_slice()) {
            Ok(()) => self.gather(&mut source),
            Err(SinkError::OutOfMemory) => OrderEnd::OutOfMemory,
            Err(SinkError::WriteFault) => OrderEnd::WriteFault,
        }
    }

    // Hands on the messages that come, until none comes any more or nobody takes them.
    fn gather(&self, source: &mut TcpSource<R>) -> OrderEnd {
        for _ in 0..u64::MAX {
            match read_frame(self.alloc, source) {
                Ok(Some(bytes)) => {
                    if !self.line.give(&self.rt, bytes) {
                        return OrderEnd::End;
                    }
                }
                Ok(None) => return OrderEnd::End,
                Err(FrameError::OutOfMemory) => return OrderEnd::OutOfMemory,
                Err(FrameError::Fault(FrameFault::Cut)) => return OrderEnd::Cut,
                Err(FrameError::Fault(FrameFault::ReadFault)) => return OrderEnd::ReadFault,
            }
        }
        OrderEnd::End
    }
}
