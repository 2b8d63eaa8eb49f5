//! The listeners for connections, in turn.

use edge_io::LISTEN_LIMIT;
use std::io;
use std::net::{SocketAddr, TcpListener, TcpStream};

/// The listeners of a server. New connections are taken at one after another, so that none keeps the others waiting.
#[derive(Drop)]
pub(crate) struct Listeners {
    all: Vec<TcpListener>,
    // At which of them new connections may be there: the system has reported some, and has not refused one since.
    waits: [bool; LISTEN_LIMIT],
    // Where the next look for one begins.
    next: usize,
}

impl Listeners {
    /// None was reported yet.
    pub(crate) fn new(all: Vec<TcpListener>) -> Self {
        Listeners {
            all,
            waits: [false; LISTEN_LIMIT],
            next: 0,
        }
    }

    /// The system has reported new connections at this listener, or has refused one.
    pub(crate) fn set_waits(&mut self, listener: usize, waits: bool) {
        if let Some(place) = self.waits.get_mut(listener) {
            *place = waits;
        }
    }

    /// Whether new connections may be there.
    pub(crate) fn any_waits(&self) -> bool {
        self.waits.iter().any(|waits| *waits)
    }

    /// The next listener in turn at which new connections may be there. The look for the one behind it begins there.
    pub(crate) fn take_turn(&mut self) -> Option<usize> {
        for _ in 0..self.all.len() {
            let listener = self.next;
            self.next = self.behind(listener);
            if self.waits.get(listener).is_some_and(|waits| *waits) {
                return Some(listener);
            }
        }
        None
    }

    // The listener behind this one, where the first is behind the last.
    fn behind(&self, listener: usize) -> usize {
        let next = listener.saturating_add(1);
        if next < self.all.len() { next } else { 0 }
    }

    /// A new connection at this listener, and where it comes from. It doesn't wait.
    pub(crate) fn accept(&self, listener: usize) -> io::Result<(TcpStream, SocketAddr)> {
        match self.all.get(listener) {
            Some(one) => one.accept(),
            None => Err(io::Error::from(io::ErrorKind::WouldBlock)),
        }
    }
}
