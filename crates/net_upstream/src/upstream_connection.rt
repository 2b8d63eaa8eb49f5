//! A connection to the upstream.

use crate::answer_place::AnswerPlace;
use crate::limits::{UPSTREAM_LOOK_MILLISECONDS, UPSTREAM_SEND_BUFFER};
use crate::upstream_questions::{Closing, Load, UpstreamQuestions};
use crate::wire_numbers::WireNumbers;
use libc::net as c;
use net_base::ask_stream_send_buffer;
use std::alloc::{AllocError, Global};
use std::io;
use std::net::{Shutdown, TcpStream};
use std::os::fd::AsRawFd;
use std::sync::atomic::{AtomicBool, Ordering};
use std::sync::{Arc, Mutex, Wait};
use std::time::{Duration, Instant};

/// A TCP connection to the upstream (RFC 7766). Threads that ask write to it, and a thread of its own reads what comes.
#[derive(Drop)]
pub(crate) struct UpstreamConnection {
    /// Which one it is of its pool.
    pub(crate) serial: u64,
    /// The socket.
    pub(crate) stream: TcpStream,
    // Whether a frame could not be written whole. It is held for one send, which doesn't wait.
    is_cut: Mutex<bool>,
    // It is held for a look at them.
    questions: Mutex<UpstreamQuestions>,
    // Its thread has nothing more to do.
    has_ended: AtomicBool,
}

// A read waits a moment only, so that the reader looks whether the connection is still wanted. What is written goes out at once.
fn set_options(stream: &TcpStream) -> io::Result<()> {
    ask_stream_send_buffer(stream, UPSTREAM_SEND_BUFFER);
    stream.set_nodelay(true)?;
    stream.set_read_timeout(Some(Duration::from_millis(UPSTREAM_LOOK_MILLISECONDS)))
}

// Sends all of it, and says whether the system took it all. It doesn't wait.
fn send_all(stream: &TcpStream, frame: &[u8]) -> bool {
    let flags = c::MSG_NOSIGNAL | c::MSG_DONTWAIT;
    let sent = unsafe { c::send(stream.as_raw_fd(), frame, flags) };
    usize::try_from(sent).is_ok_and(|sent| sent == frame.len())
}

impl UpstreamConnection {
    /// A connection over this socket, which was connected just now.
    pub(crate) fn new(
        alloc: Global,
        serial: u64,
        stream: TcpStream,
        now: Instant,
    ) -> io::Result<Self> {
        set_options(&stream)?;
        Ok(UpstreamConnection {
            serial,
            stream,
            is_cut: Mutex::new(false),
            questions: Mutex::new(UpstreamQuestions::new(alloc, now)),
            has_ended: AtomicBool::new(false),
        })
    }

    /// How many questions are not answered; `None` where it takes no more of them.
    pub(crate) fn load<R: Wait>(&self, rt: &R, now: Instant) -> Option<Load> {
        self.questions.lock(rt).load(now)
    }

    /// Takes a question with this ID, whose answer comes to this place, and says under which number it has to be sent; `None` where
    /// the connection is closed.
    pub(crate) fn ask<R: Wait>(
        &self,
        rt: &R,
        numbers: &mut WireNumbers,
        id: u16,
        place: Arc<AnswerPlace>,
        now: Instant,
    ) -> Result<Option<u16>, AllocError> {
        self.questions.lock(rt).ask(numbers, id, place, now)
    }

    /// Sends a frame, and says whether the system took it whole. Else the upstream reads nothing or is gone, and the connection takes no
    /// more questions; answers may still be there to be read. It doesn't wait.
    pub(crate) fn send<R: Wait>(&self, rt: &R, frame: &[u8]) -> bool {
        let mut is_cut = self.is_cut.lock(rt);
        if !*is_cut && !send_all(&self.stream, frame) {
            *is_cut = true;
            self.retire(rt);
        }
        !*is_cut
    }

    /// The answer of this number came: the ID that the question had, and who waits for it. `None` where nobody does.
    pub(crate) fn answer<R: Wait>(
        &self,
        rt: &R,
        number: u16,
        now: Instant,
    ) -> Option<(u16, Arc<AnswerPlace>)> {
        self.questions.lock(rt).answer(number, now)
    }

    /// Nobody waits for the answer of this number any more.
    pub(crate) fn give_up<R: Wait>(&self, rt: &R, number: u16, now: Instant) {
        self.questions.lock(rt).give_up(number, now);
    }

    /// It takes no more questions.
    pub(crate) fn retire<R: Wait>(&self, rt: &R) {
        self.questions.lock(rt).retire();
    }

    /// Closes it where it isn't wanted any more, and says whether it is closed.
    pub(crate) fn close_if_done<R: Wait>(&self, rt: &R, now: Instant) -> bool {
        self.questions.lock(rt).close_if_done(now)
    }

    /// It takes no more questions, since it is to be closed. Says how.
    pub(crate) fn begin_close<R: Wait>(&self, rt: &R, now: Instant) -> Closing {
        self.questions.lock(rt).begin_close(now)
    }

    /// Closes it: whoever waits for an answer is told, and its thread ends at once. It may be called again.
    pub(crate) fn close<R: Wait>(&self, rt: &R) {
        self.questions.lock(rt).close(rt);
        let _ = self.stream.shutdown(Shutdown::Both);
    }

    /// Its thread has nothing more to do.
    pub(crate) fn end(&self) {
        self.has_ended.store(true, Ordering::SeqCst);
    }

    /// Whether its thread has nothing more to do.
    pub(crate) fn has_ended(&self) -> bool {
        self.has_ended.load(Ordering::SeqCst)
    }
}
