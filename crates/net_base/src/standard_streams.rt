//! The numbers of the standard streams.

use libc::net as c;

// The numbers of input, output and error.
const STREAMS: i32 = 3;

/// Takes those of the numbers 0 to 2 that are free, where the server was started with streams closed. Else the system would give them to
/// sockets, and a line that is written to a stream would come to a client. Each is a socket with no other end, and stays open.
pub fn take_free_numbers() {
    for _ in 0..STREAMS {
        let fd = unsafe { c::socket(c::AF_UNIX, c::SOCK_DGRAM | c::SOCK_CLOEXEC, 0) };
        if fd >= STREAMS {
            let _ = libc::close(fd);
            return;
        }
    }
}
