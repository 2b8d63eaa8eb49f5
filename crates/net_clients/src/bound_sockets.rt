//! Sockets that are bound to the endpoints of a server.

use crate::datagram::socket_address;
use crate::limits::{ARRIVAL_SECONDS, RECEIVE_BUFFER, SEND_BUFFER};
use crate::reception::{FIRST_LISTENER, WAKES};
use edge_io::{Endpoint, LISTEN_LIMIT};
use ip_prefix::Addr;
use libc::net as c;
use mio::unix::SourceFd;
use mio::{Interest, Poll, Token, Waker};
use net_base::limits::BACKLOG;
use net_base::{
    address_of, ask_receive_buffer, ask_send_buffer, prepare_listener, status, take_again,
    take_only_version_6,
};
use os::FromRawFd;
use server_io::WireError;
use std::alloc::Global;
use std::io;
use std::net::{Net, TcpListener, TcpStream, UdpSocket};
use std::os::fd::{AsRawFd, OwnedFd};
use std::time::Duration;

/// What is open for the endpoints of a server: for each a UDP socket and a listener, in order, and what waits for connections.
#[derive(Drop)]
pub(crate) struct BoundSockets {
    pub(crate) udp: Vec<UdpSocket>,
    pub(crate) listeners: Vec<TcpListener>,
    pub(crate) poll: Poll,
    pub(crate) waker: Waker,
}

/// Opens all of these endpoints, or none: where one can't be opened, those before it are closed again. `Failed` also comes where there
/// is none, or more than `LISTEN_LIMIT`. `refused` then has the one that can't be opened, and is left as it was where none is to blame.
pub(crate) fn bind_all<R: Net<Listener = TcpListener, Stream = TcpStream>>(
    rt: &R,
    alloc: Global,
    all: &[Endpoint],
    refused: &mut Option<Endpoint>,
) -> Result<BoundSockets, WireError> {
    if all.is_empty() || all.len() > LISTEN_LIMIT {
        return Err(WireError::Failed);
    }
    let Ok((poll, waker)) = open_poll(rt) else {
        return Err(WireError::Failed);
    };
    let mut bound = BoundSockets {
        udp: Vec::new(alloc),
        listeners: Vec::new(alloc),
        poll,
        waker,
    };
    for at in all {
        let token = Token(FIRST_LISTENER.saturating_add(bound.listeners.len()));
        let Ok((udp, listener)) = bind_both(rt, *at, &bound.poll, token) else {
            *refused = Some(*at);
            return Err(WireError::Failed);
        };
        if bound.udp.push(udp).is_err() || bound.listeners.push(listener).is_err() {
            return Err(WireError::OutOfMemory);
        }
    }
    Ok(bound)
}

// What waits for connections, and what wakes it.
fn open_poll<R: Net<Listener = TcpListener, Stream = TcpStream>>(
    rt: &R,
) -> io::Result<(Poll, Waker)> {
    let poll = Poll::new(rt)?;
    let waker = Waker::new(poll.registry(), WAKES)?;
    Ok((poll, waker))
}

// Both sockets of an endpoint, of which the listener reports by this token.
fn bind_both<R: Net<Listener = TcpListener, Stream = TcpStream>>(
    rt: &R,
    at: Endpoint,
    poll: &Poll,
    token: Token,
) -> io::Result<(UdpSocket, TcpListener)> {
    let udp = bind_udp(rt, at)?;
    let listener = bind_listener(rt, at)?;
    udp.set_read_timeout(Some(Duration::from_secs(ARRIVAL_SECONDS)))?;
    listener.set_nonblocking(true)?;
    prepare_listener(&listener);
    ask_receive_buffer(&udp, RECEIVE_BUFFER);
    ask_send_buffer(&udp, SEND_BUFFER);
    let fd = listener.as_raw_fd();
    poll.registry()
        .register(&mut SourceFd(&fd), token, Interest::READABLE)?;
    Ok((udp, listener))
}

// A UDP socket at this endpoint.
fn bind_udp<R: Net<Listener = TcpListener, Stream = TcpStream>>(
    rt: &R,
    at: Endpoint,
) -> io::Result<UdpSocket> {
    match at.addr {
        Addr::V4(_) => UdpSocket::bind(rt, address_of(at)),
        Addr::V6(bits) => {
            let kind = c::SOCK_DGRAM | c::SOCK_CLOEXEC;
            let socket = owned(unsafe { c::socket(c::AF_INET6, kind, 0) })?;
            bind_version_6(&socket, bits, at.port)?;
            Ok(UdpSocket::from(socket))
        }
    }
}

// A listener at this endpoint.
fn bind_listener<R: Net<Listener = TcpListener, Stream = TcpStream>>(
    rt: &R,
    at: Endpoint,
) -> io::Result<TcpListener> {
    match at.addr {
        Addr::V4(_) => rt.bind(address_of(at)),
        Addr::V6(bits) => {
            let kind = c::SOCK_STREAM | c::SOCK_CLOEXEC;
            let socket = owned(unsafe { c::socket(c::AF_INET6, kind, 0) })?;
            take_again(&socket)?;
            bind_version_6(&socket, bits, at.port)?;
            status(c::listen(socket.as_raw_fd(), BACKLOG))?;
            Ok(TcpListener::from(socket))
        }
    }
}

// The descriptor that a call of the system has made, which is closed where it is dropped.
fn owned(fd: i32) -> io::Result<OwnedFd> {
    status(fd)?;
    Ok(unsafe { OwnedFd::from_raw_fd(fd) })
}

// Binds a socket of version 6 for messages of that version alone. std makes a socket and binds it in one call, and the system takes this
// option only between the two.
fn bind_version_6(socket: &OwnedFd, bits: u128, port: u16) -> io::Result<()> {
    take_only_version_6(socket)?;
    let (raw, len) = socket_address(Addr::V6(bits), port);
    status(unsafe { c::bind(socket.as_raw_fd(), &raw, len) })
}
