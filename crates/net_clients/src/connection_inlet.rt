//! Where a worker takes connections from.

use crate::client_sink::ClientSink;
use crate::client_source::ClientSource;
use crate::limits::ARRIVAL_SECONDS;
use crate::service_state::ServiceState;
use crate::stretch::Stretch;
use crossbeam_channel::{Receiver, RecvTimeoutError};
use net_base::NoticeSender;
use server_io::{Arrival, Inlet, Received};
use std::alloc::Global;
use std::sync::{Arc, Wait};
use std::time;
use std::time::Duration;

/// Where a worker takes connections of clients from, each with the messages that have come on it whole.
#[derive(Drop)]
pub struct ConnectionInlet<R: time::Clock + Wait + Drop> {
    rt: R,
    alloc: Global,
    service: Arc<ServiceState>,
    connections: Receiver<Stretch<R>>,
    // Says that this inlet has not ended: it is an inlet like those that give NOTIFYs.
    notices: Option<NoticeSender>,
}

impl<R: time::Clock + Wait + Copy + Drop> ConnectionInlet<R> {
    /// An inlet of this service; without the last, it has ended.
    pub(crate) fn new(
        rt: R,
        alloc: Global,
        service: Arc<ServiceState>,
        connections: Receiver<Stretch<R>>,
        notices: Option<NoticeSender>,
    ) -> Self {
        ConnectionInlet {
            rt,
            alloc,
            service,
            connections,
            notices,
        }
    }

    // Waits for a connection; `None` at the end.
    fn receive(&self) -> Option<Received<ClientSource<R>, ClientSink<R>>> {
        if self.notices.is_none() {
            return None;
        }
        let within = Duration::from_secs(ARRIVAL_SECONDS);
        match self.connections.recv_timeout(&self.rt, within) {
            Ok(stretch) => {
                self.service.made_room();
                self.arrival_of(stretch)
            }
            Err(RecvTimeoutError::Timeout) if self.service.is_stopped() => None,
            Err(RecvTimeoutError::Timeout) => Some(Received::Nothing),
            Err(RecvTimeoutError::Disconnected) => None,
        }
    }

    // The arrival of a connection, which takes one of the turns.
    fn arrival_of(&self, stretch: Stretch<R>) -> Option<Received<ClientSource<R>, ClientSink<R>>> {
        let client = stretch.client();
        let connection = stretch.connection();
        if self.service.is_stopped() || !self.service.take_turn() {
            return None;
        }
        let Ok(connection) = connection else {
            return Some(Received::Nothing);
        };
        Some(Received::Arrival(Arrival::Connection {
            source: ClientSource::new(stretch),
            sink: ClientSink::new(self.rt, self.alloc, connection),
            client,
        }))
    }
}

impl<R: time::Clock + Wait + Copy + Drop> Inlet<ClientSource<R>, ClientSink<R>>
    for ConnectionInlet<R> {
    fn next(&mut self) -> Received<ClientSource<R>, ClientSink<R>> {
        match self.receive() {
            Some(received) => received,
            None => {
                self.notices = None;
                Received::End
            }
        }
    }
}
