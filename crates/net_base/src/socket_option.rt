//! Options of sockets that std doesn't set.

ghost use Rattle.std.specs.Prelude.{◌↔◌, pos, ◌≤ℤ◌, IsOk};

use crate::limits::{BACKLOG, CLIENT_RECEIVE_BUFFER, CLIENT_SEND_BUFFER, UNREAD_MILLISECONDS};
use libc::net as c;
use std::io;
use std::net::{TcpListener, TcpStream, UdpSocket};
use std::os::fd::{AsRawFd, OwnedFd};

// The value of an option that is a number.
fn option_value(number: i32) -> [u8; 16] {
    let mut value = [0u8; 16];
    value[..4].copy_from_slice(&number.to_ne_bytes());
    value
}

/// The error of the call of the system that has just given this number, if it is negative.
pub fn status(number: i32) -> io::Result<()>
    ensures { IsOk result ↔ (pos 0 ≤ℤ number) }
{
    if number < 0 {
        Err(io::Error::from_raw_os_error(os::errno()))
    } else {
        Ok(())
    }
}

/// Has a socket of version 6 take messages of that version alone (IPV6_V6ONLY, RFC 3493, section 5.3), before it is bound. Else one at
/// the unspecified address would take those of version 4 as well, where the system is set so.
pub fn take_only_version_6(socket: &OwnedFd) -> io::Result<()> {
    let value = option_value(1);
    let fd = socket.as_raw_fd();
    status(unsafe { c::setsockopt(fd, c::IPPROTO_IPV6, c::IPV6_V6ONLY, &value, 4) })
}

/// Has a socket take an endpoint again whose connections have just ended (SO_REUSEADDR), before it is bound.
pub fn take_again(socket: &OwnedFd) -> io::Result<()> {
    let value = option_value(1);
    let fd = socket.as_raw_fd();
    status(unsafe { c::setsockopt(fd, c::SOL_SOCKET, c::SO_REUSEADDR, &value, 4) })
}

/// Asks the system to keep so many bytes of datagrams that wait (SO_RCVBUF). It gives no more than its own limit, and whatever it
/// gives will do.
pub fn ask_receive_buffer(socket: &UdpSocket, bytes: i32) {
    let value = option_value(bytes);
    let _ = unsafe { c::setsockopt(socket.as_raw_fd(), c::SOL_SOCKET, c::SO_RCVBUF, &value, 4) };
}

/// Asks the system to keep so many bytes of datagrams that have not gone out (SO_SNDBUF), likewise.
pub fn ask_send_buffer(socket: &UdpSocket, bytes: i32) {
    let value = option_value(bytes);
    let _ = unsafe { c::setsockopt(socket.as_raw_fd(), c::SOL_SOCKET, c::SO_SNDBUF, &value, 4) };
}

/// Prepares a listener for connections of clients, which have its options (`limits` has their numbers): how many of them the system
/// keeps until they are accepted; how many bytes it keeps of each that were not read here (SO_RCVBUF) or by the client (SO_SNDBUF); how
/// long it keeps these (TCP_USER_TIMEOUT, RFC 5482), also once the connection is closed here; and that what is written goes out at once,
/// and waits for no acknowledgement of what was written before (TCP_NODELAY).
pub fn prepare_listener(listener: &TcpListener) {
    let fd = listener.as_raw_fd();
    let received = option_value(CLIENT_RECEIVE_BUFFER);
    let sent = option_value(CLIENT_SEND_BUFFER);
    let unread = option_value(UNREAD_MILLISECONDS);
    let at_once = option_value(1);
    unsafe {
        let _ = c::setsockopt(fd, c::SOL_SOCKET, c::SO_RCVBUF, &received, 4);
        let _ = c::setsockopt(fd, c::SOL_SOCKET, c::SO_SNDBUF, &sent, 4);
        let _ = c::setsockopt(fd, c::IPPROTO_TCP, c::TCP_USER_TIMEOUT, &unread, 4);
        let _ = c::setsockopt(fd, c::IPPROTO_TCP, c::TCP_NODELAY, &at_once, 4);
    }
    let _ = c::listen(fd, BACKLOG);
}

/// Asks the system to keep so many bytes of a stream that have not gone out (SO_SNDBUF), likewise.
pub fn ask_stream_send_buffer(stream: &TcpStream, bytes: i32) {
    let value = option_value(bytes);
    let _ = unsafe { c::setsockopt(stream.as_raw_fd(), c::SOL_SOCKET, c::SO_SNDBUF, &value, 4) };
}

/// Ends all waits for datagrams on the socket, those that are under way and those that begin later (SHUT_RD). Datagrams still go out.
/// Linux answers that the socket isn't connected (ENOTCONN), and does it all the same.
pub fn end_receiving(socket: &UdpSocket) {
    let _ = c::shutdown(socket.as_raw_fd(), c::SHUT_RD);
}
