//! The endpoints that are served.

use crate::bound_sockets::{BoundSockets, bind_all};
use crate::connection_changes::ConnectionChanges;
use crate::connection_inlet::ConnectionInlet;
use crate::connection_table::ConnectionTable;
use crate::datagram_inlet::DatagramInlet;
use crate::limits::{CONNECTION_QUEUE, EVENTS, RECEIVE_BYTES};
use crate::listeners::Listeners;
use crate::reception::{Reception, ReceptionSockets};
use crate::server_replies::ServerReplies;
use crate::service_state::ServiceState;
use crate::stretch::Stretch;
use crossbeam_channel::{Receiver, Sender, bounded};
use edge_io::{ConnectionLimits, Endpoint};
use ip_prefix::Transport;
use mio::{Events, Waker};
use net_base::{Notice, NoticeReceiver, NoticeSender, Noticed, WireState, notice_queues};
use server_io::{Peer, SendError, Wake, WireError};
use std::alloc::{AllocError, Global};
use std::net::{Net, TcpListener, TcpStream, UdpSocket};
use std::sync::{Arc, Wait};
use std::time;
use std::time::Duration;

/// The endpoints that are served, as the thread has them that has the wires.
#[derive(Drop)]
pub struct Service<R: time::Clock + Wait + Drop> {
    state: Arc<ServiceState>,
    // To the workers.
    queue: Receiver<Stretch<R>>,
    notices: NoticeReceiver,
    // Kept until the service stops, since more inlets may be wanted till then.
    own: Option<NoticeSender>,
}

// The room that a service needs, for both of its threads.
#[derive(Drop)]
struct Rooms<R: time::Clock + Wait + Drop> {
    events: Events,
    scratch: Vec<u8>,
    queue: (Sender<Stretch<R>>, Receiver<Stretch<R>>),
    notices: (NoticeSender, NoticeReceiver),
    another: NoticeSender,
}

impl<R: time::Clock + Wait + Drop> Rooms<R> {
    fn new(alloc: Global, wires: &Arc<WireState>) -> Result<Self, AllocError> {
        let events = Events::with_capacity(alloc, EVENTS)?;
        let scratch = vec![in alloc; 0; RECEIVE_BYTES]?;
        let queue = bounded(alloc, CONNECTION_QUEUE)?;
        let notices = notice_queues(alloc, Arc::try_clone(wires)?)?;
        let another = notices.0.another()?;
        Ok(Rooms {
            events,
            scratch,
            queue,
            notices,
            another,
        })
    }
}

// What the threads of a service share, and another handle to it.
fn shared(
    alloc: Global,
    udp: Vec<UdpSocket>,
    waker: Waker,
    wires: &Arc<WireState>,
) -> Result<(Arc<ServiceState>, Arc<ServiceState>), AllocError> {
    let Ok(changes) = Arc::new(alloc, ConnectionChanges::new(alloc, waker)) else {
        return Err(AllocError);
    };
    let state = ServiceState::new(alloc, udp, changes, Arc::try_clone(wires)?);
    let Ok(state) = Arc::new(alloc, state) else {
        return Err(AllocError);
    };
    let again = Arc::try_clone(&state)?;
    Ok((state, again))
}

impl<R: Net<Listener = TcpListener, Stream = TcpStream> + time::Clock + Wait + Copy + Drop> Service<
    R,
> {
    /// Opens these endpoints for datagrams and for connections. Gives the service, and what a thread of its own has to run for the
    /// connections. `Failed` comes if not all of them can be opened, if there is none, and if there are too many. `refused` then has the
    /// one that can't be opened, if it is one of them.
    pub fn open(
        rt: R,
        alloc: Global,
        all: &[Endpoint],
        refused: &mut Option<Endpoint>,
        wires: &Arc<WireState>,
    ) -> Result<(Self, Reception<R>), WireError> {
        let BoundSockets {
            udp,
            listeners,
            poll,
            waker,
        } = bind_all(&rt, alloc, all, refused)?;
        let Ok((state, again)) = shared(alloc, udp, waker, wires) else {
            return Err(WireError::OutOfMemory);
        };
        let Ok(rooms) = Rooms::new(alloc, wires) else {
            return Err(WireError::OutOfMemory);
        };
        let Rooms {
            events,
            scratch,
            queue: (to_workers, queue),
            notices: (own, notices),
            another,
        } = rooms;
        let service = Service {
            state,
            queue,
            notices,
            own: Some(own),
        };
        let reception = Reception {
            rt,
            alloc,
            service: again,
            sockets: ReceptionSockets { poll, events },
            listeners: Listeners::new(listeners),
            table: ConnectionTable::new(alloc),
            queue: to_workers,
            notices: Some(another),
            scratch,
            changed: Vec::new(alloc),
            next_look: None,
        };
        Ok((service, reception))
    }
}

impl<R: time::Clock + Wait + Copy + Drop> Service<R> {
    // What an inlet has for NOTIFYs; none once the service has stopped.
    fn notice_sender(&self) -> Result<Option<NoticeSender>, AllocError> {
        match &self.own {
            Some(own) => Ok(Some(own.another()?)),
            None => Ok(None),
        }
    }

    /// An inlet for the datagrams of this listener. `Failed` comes where there is no such listener.
    pub fn datagrams(
        &self,
        rt: R,
        alloc: Global,
        listener: usize,
    ) -> Result<DatagramInlet<R>, WireError> {
        if listener >= self.state.sockets.len() {
            return Err(WireError::Failed);
        }
        match self.datagrams_of(rt, alloc, listener) {
            Ok(inlet) => Ok(inlet),
            Err(_) => Err(WireError::OutOfMemory),
        }
    }

    fn datagrams_of(
        &self,
        rt: R,
        alloc: Global,
        listener: usize,
    ) -> Result<DatagramInlet<R>, AllocError> {
        let state = Arc::try_clone(&self.state)?;
        DatagramInlet::new(rt, alloc, state, listener, self.notice_sender()?)
    }

    /// An inlet for connections.
    pub fn connections(&self, rt: R, alloc: Global) -> Result<ConnectionInlet<R>, AllocError> {
        let state = Arc::try_clone(&self.state)?;
        let queue = self.queue.clone()?;
        let notices = self.notice_sender()?;
        Ok(ConnectionInlet::new(rt, alloc, state, queue, notices))
    }

    /// A place for replies.
    pub fn replies(&self, rt: R) -> Result<ServerReplies<R>, AllocError> {
        Ok(ServerReplies::new(rt, Arc::try_clone(&self.state)?))
    }

    /// At most so many arrivals are given from now on.
    pub fn limit(&self, turns: u32) {
        self.state.limit(turns);
    }

    /// At most so many connections of clients are open from now on.
    pub fn admit(&self, limits: ConnectionLimits) {
        self.state.admit(limits);
    }

    /// Ends the service: all waits for arrivals end at once. Replies still go out.
    pub fn stop(&self) {
        self.state.stop();
    }

    /// Whether one of its threads couldn't go on.
    pub fn has_failed(&self) -> bool {
        self.state.has_failed()
    }

    /// Sends a reply from the endpoint that its peer sent to. It doesn't wait.
    pub fn send(
        &self,
        rt: &R,
        peer: Peer,
        transport: Transport,
        message: &[u8],
    ) -> Result<(), SendError> {
        self.state.send(rt, peer, transport, message)
    }

    /// What is there by now: a NOTIFY, or the end of all inlets.
    pub fn look(&mut self, rt: &R) -> Option<Wake> {
        if self.state.is_stopped() {
            self.own = None;
        }
        match self.notices.take(rt) {
            Noticed::Notice(notice) => {
                let Notice {
                    peer,
                    transport,
                    bytes,
                } = notice;
                Some(Wake::Notify {
                    peer,
                    transport,
                    bytes,
                })
            }
            Noticed::End => Some(Wake::Ended {
                dropped: self.state.dropped(),
            }),
            Noticed::Nothing => None,
        }
    }
}
