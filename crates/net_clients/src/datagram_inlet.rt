//! Where a worker takes datagrams from.

use crate::client_sink::ClientSink;
use crate::client_source::ClientSource;
use crate::datagram::is_notify;
use crate::limits::{DATAGRAM_MAX, PASSED_RUN, PASSING_ERRORS, SHORTAGE_MILLISECONDS};
use crate::service_state::ServiceState;
use dns_name::Octets;
use ip_prefix::Transport;
use net_base::{NoticeSender, is_shortage, peer_of};
use server_io::{Arrival, Inlet, Peer, Received};
use std::alloc::{AllocError, Global};
use std::sync::{Arc, Wait};
use std::time::Duration;
use std::{io, thread, time};

/// Where a worker takes datagrams from: the UDP socket of a listener, on which several wait, of which the system wakes one for each
/// datagram.
///
/// A NOTIFY (RFC 1996) is one of the arrivals, but goes to the thread that has the wires. A datagram for which there is no room is
/// dropped. After `PASSING_ERRORS` errors in a row it ends, and the wires fail.
#[derive(Drop)]
pub struct DatagramInlet<R: time::Clock + Wait + Drop> {
    rt: R,
    alloc: Global,
    service: Arc<ServiceState>,
    listener: usize,
    // `None` once it has ended.
    notices: Option<NoticeSender>,
    buffer: Vec<u8>,
    // How many errors came in a row.
    errors: u32,
}

// What one call of the socket gave.
#[derive(Drop)]
enum Step {
    Datagram { peer: Peer, bytes: Octets },
    // Nothing that is an arrival, and more may be there.
    Passed,
    // Nothing came for as long as the socket waits.
    Nothing,
    End,
}

impl<R: time::Clock + Wait + Drop> DatagramInlet<R> {
    /// An inlet of a listener of this service, of which it holds the other end for NOTIFYs; without, it has ended.
    pub(crate) fn new(
        rt: R,
        alloc: Global,
        service: Arc<ServiceState>,
        listener: usize,
        notices: Option<NoticeSender>,
    ) -> Result<Self, AllocError> {
        let buffer = vec![in alloc; 0; DATAGRAM_MAX]?;
        Ok(DatagramInlet {
            rt,
            alloc,
            service,
            listener,
            notices,
            buffer,
            errors: 0,
        })
    }

    // Waits for a datagram once.
    fn step(&mut self) -> Step {
        if self.notices.is_none() || self.service.is_stopped() {
            return Step::End;
        }
        let Some(socket) = self.service.sockets.get(self.listener) else {
            return Step::End;
        };
        let received = socket.recv_from(&mut self.buffer);
        if self.service.is_stopped() {
            return Step::End;
        }
        match received {
            Ok((len, address)) => self.arrived(len, peer_of(address, self.listener)),
            Err(error) if error.kind() == io::ErrorKind::WouldBlock => {
                self.errors = 0;
                Step::Nothing
            }
            Err(error) if error.kind() == io::ErrorKind::Interrupted => Step::Passed,
            Err(error) => self.failed(&error),
        }
    }

    // A datagram of so many bytes has come.
    fn arrived(&mut self, len: usize, peer: Peer) -> Step {
        self.errors = 0;
        if !self.service.take_turn() {
            return Step::End;
        }
        let bytes = &self.buffer[..len.min(self.buffer.len())];
        if is_notify(bytes) {
            if !self.pass_on(peer, bytes) {
                self.service.drop_one();
            }
            return Step::Passed;
        }
        match Octets::from_slice(self.alloc, bytes) {
            Ok(bytes) => Step::Datagram { peer, bytes },
            Err(_) => {
                self.service.drop_one();
                Step::Passed
            }
        }
    }

    // Hands a NOTIFY on to the thread that has the wires. `false` says that it is dropped.
    fn pass_on(&self, peer: Peer, bytes: &[u8]) -> bool {
        let Some(notices) = &self.notices else {
            return false;
        };
        match Octets::from_slice(self.alloc, bytes) {
            Ok(bytes) => notices.pass_on(&self.rt, peer, Transport::Udp, bytes),
            Err(_) => false,
        }
    }

    // The socket gave an error. A shortage passes by itself.
    fn failed(&mut self, error: &io::Error) -> Step {
        if is_shortage(error) {
            thread::sleep(&self.rt, Duration::from_millis(SHORTAGE_MILLISECONDS));
            return Step::Passed;
        }
        self.errors = self.errors.saturating_add(1);
        if self.errors < PASSING_ERRORS {
            return Step::Passed;
        }
        self.service.fail();
        Step::End
    }
}

impl<R: time::Clock + Wait + Drop> Inlet<ClientSource<R>, ClientSink<R>> for DatagramInlet<R> {
    fn next(&mut self) -> Received<ClientSource<R>, ClientSink<R>> {
        for _ in 0..PASSED_RUN {
            match self.step() {
                Step::Datagram { peer, bytes } => {
                    return Received::Arrival(Arrival::Datagram { peer, bytes });
                }
                Step::Passed => {}
                Step::Nothing => return Received::Nothing,
                Step::End => {
                    self.notices = None;
                    return Received::End;
                }
            }
        }
        Received::Nothing
    }
}
