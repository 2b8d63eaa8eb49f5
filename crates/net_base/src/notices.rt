//! NOTIFYs on their way to the thread that has the wires.

use crate::limits::NOTIFY_QUEUE;
use crate::notifiers::NotifyOrigin;
use crate::wire_state::WireState;
use crossbeam_channel::{Receiver, Sender, TryRecvError, bounded};
use dns_name::Octets;
use ip_prefix::Transport;
use server_io::Peer;
use std::alloc::{AllocError, Global};
use std::sync::{Arc, Wait};
use std::time;

/// A NOTIFY, who sent it, and over which transport.
#[derive(Drop)]
pub struct Notice {
    pub peer: Peer,
    pub transport: Transport,
    pub bytes: Octets,
}

/// Where an inlet puts NOTIFYs. While one is there, the thread that has the wires expects more; once it is dropped, that thread is woken.
pub struct NoticeSender {
    state: Arc<WireState>,
    primaries: Sender<Notice>,
    strangers: Sender<Notice>,
}

/// Where NOTIFYs are taken from: those of primary servers, and those of others.
#[derive(Drop)]
pub struct NoticeReceiver {
    primaries: Receiver<Notice>,
    strangers: Receiver<Notice>,
}

/// What there is of NOTIFYs.
#[derive(Drop)]
pub enum Noticed {
    Notice(Notice),
    /// None, for now.
    Nothing,
    /// None, and no more come: each sender was dropped.
    End,
}

/// Two queues for NOTIFYs.
pub fn notice_queues(
    alloc: Global,
    state: Arc<WireState>,
) -> Result<(NoticeSender, NoticeReceiver), AllocError> {
    let (primaries, of_primaries) = bounded(alloc, NOTIFY_QUEUE)?;
    let (strangers, of_strangers) = bounded(alloc, NOTIFY_QUEUE)?;
    let sender = NoticeSender {
        state,
        primaries,
        strangers,
    };
    let receiver = NoticeReceiver {
        primaries: of_primaries,
        strangers: of_strangers,
    };
    Ok((sender, receiver))
}

impl NoticeSender {
    /// One more, for another inlet.
    pub fn another(&self) -> Result<Self, AllocError> {
        let primaries = self.primaries.clone()?;
        let strangers = self.strangers.clone()?;
        Ok(NoticeSender {
            state: Arc::try_clone(&self.state)?,
            primaries,
            strangers,
        })
    }

    /// Hands a NOTIFY on to the thread that has the wires, and says whether it was taken: not where it comes too soon behind others, and
    /// not where too many wait. It doesn't wait.
    pub fn pass_on<R: time::Clock + Wait>(
        &self,
        rt: &R,
        peer: Peer,
        transport: Transport,
        bytes: Octets,
    ) -> bool {
        let notice = Notice {
            peer,
            transport,
            bytes,
        };
        match self.state.admit(rt, peer.addr) {
            Some(origin) => self.offer(rt, origin, notice),
            None => false,
        }
    }

    fn offer<R: Wait>(&self, rt: &R, origin: NotifyOrigin, notice: Notice) -> bool {
        let queue = match origin {
            NotifyOrigin::Primary => &self.primaries,
            NotifyOrigin::Stranger => &self.strangers,
        };
        let is_taken = queue.try_send(rt, notice).is_ok();
        if is_taken {
            self.state.signal.raise();
        }
        is_taken
    }
}

impl Drop for NoticeSender {
    fn drop(self) {
        let NoticeSender {
            state,
            primaries,
            strangers,
        } = self;
        drop(primaries);
        drop(strangers);
        state.signal.raise();
    }
}

impl NoticeReceiver {
    /// The next NOTIFY, those of primary servers first. It doesn't wait.
    pub fn take<R: Wait>(&self, rt: &R) -> Noticed {
        match self.primaries.try_recv(rt) {
            Ok(notice) => Noticed::Notice(notice),
            Err(first) => match self.strangers.try_recv(rt) {
                Ok(notice) => Noticed::Notice(notice),
                Err(second) if is_end(first) && is_end(second) => Noticed::End,
                Err(_) => Noticed::Nothing,
            },
        }
    }
}

fn is_end(error: TryRecvError) -> bool {
    error == TryRecvError::Disconnected
}
