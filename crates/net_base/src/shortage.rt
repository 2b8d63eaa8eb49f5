//! Errors that pass.

use std::io;

// The numbers of two errors of Linux that the libc of this kit doesn't name.
const ENFILE: i32 = 23;

const ENOBUFS: i32 = 105;

/// Whether the system has no descriptor or no memory left, for now.
pub fn is_shortage(error: &io::Error) -> bool {
    matches!(
        error.raw_os_error(),
        Some(libc::EMFILE | ENFILE | ENOBUFS | libc::ENOMEM)
    )
}
