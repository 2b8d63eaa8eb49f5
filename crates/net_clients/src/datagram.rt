//! Datagrams: how they go out, and which of them are NOTIFYs.

ghost use Rattle.std.specs.Prelude.{◌≤◌};

use ip_prefix::Addr;
use libc::net as c;
use server_io::Peer;
use std::net::UdpSocket;
use std::os::fd::AsRawFd;

// The length of a message's header (RFC 1035, section 4.1.1).
const HEADER: usize = 12;

// The bits of the third byte of a header that say QR and opcode, and what they are in a request with the opcode NOTIFY, 4.
const QR_AND_OPCODE: u8 = 0xf8;

const NOTIFY_REQUEST: u8 = 4 << 3;

/// Whether a datagram is a request with the opcode NOTIFY (RFC 1996, section 4.5).
pub(crate) fn is_notify(bytes: &[u8]) -> bool {
    bytes.len() >= HEADER && bytes[2] & QR_AND_OPCODE == NOTIFY_REQUEST
}

/// An address and a port as the system reads them, in a `sockaddr_in` or a `sockaddr_in6`, and how many bytes that has.
pub(crate) fn socket_address(addr: Addr, port: u16) -> ([u8; c::_SS_SIZE], u32)
    ensures within { result.1 ≤ 128 }
{
    let mut raw = [0u8; c::_SS_SIZE];
    raw[2..4].copy_from_slice(&port.to_be_bytes());
    match addr {
        Addr::V4(bits) => {
            raw[..2].copy_from_slice(&(c::AF_INET as u16).to_ne_bytes());
            raw[4..8].copy_from_slice(&bits.to_be_bytes());
            (raw, 16)
        }
        Addr::V6(bits) => {
            raw[..2].copy_from_slice(&(c::AF_INET6 as u16).to_ne_bytes());
            raw[8..24].copy_from_slice(&bits.to_be_bytes());
            (raw, 28)
        }
    }
}

/// Sends a datagram, and says whether it went out whole. It doesn't wait (MSG_DONTWAIT): where the system keeps too many bytes that have
/// not gone out, as of replies to neighbours that don't answer, this one is lost.
pub(crate) fn send_datagram(socket: &UdpSocket, peer: Peer, bytes: &[u8]) -> bool {
    let (raw, len) = socket_address(peer.addr, peer.port);
    let flags = c::MSG_NOSIGNAL | c::MSG_DONTWAIT;
    let sent = unsafe { c::sendto(socket.as_raw_fd(), bytes, flags, &raw, len) };
    usize::try_from(sent).is_ok_and(|sent| sent == bytes.len())
}
