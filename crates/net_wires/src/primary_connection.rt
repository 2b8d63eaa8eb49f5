//! Both sides of a connection to a server.

use net_base::{ReadBuffer, TcpSink, TcpSource, TimeLimit};
use server_io::WireError;
use std::alloc::{AllocError, Global};
use std::net::TcpStream;
use std::sync::Arc;
use std::time::{Duration, Instant};
use std::{io, time};

/// A connection to a server: the reading side, and the writing side.
pub(crate) type Sides<R> = (TcpSource<R>, TcpSink<R>);

// No call on the socket waits longer than the limit, which is above 0. What is written goes out at once, and waits for no
// acknowledgement of what was written before (TCP_NODELAY).
fn set_options(stream: &TcpStream, limit: Duration) -> io::Result<()> {
    stream.set_nodelay(true)?;
    stream.set_read_timeout(Some(limit))?;
    stream.set_write_timeout(Some(limit))
}

// Two handles to the socket, and room to read ahead.
fn share(
    alloc: Global,
    stream: TcpStream,
    ahead: usize,
) -> Result<(Arc<TcpStream>, Arc<TcpStream>, ReadBuffer), AllocError> {
    let buffer = ReadBuffer::new(alloc, ahead)?;
    let Ok(stream) = Arc::new(alloc, stream) else {
        return Err(AllocError);
    };
    let Ok(again) = Arc::try_clone(&stream) else {
        return Err(AllocError);
    };
    Ok((stream, again, buffer))
}

/// Both sides of a connection to a server, whose source reads so many bytes ahead, and whose calls have this limit, and end at this
/// moment at the latest. `Failed` comes where the socket takes no option.
pub(crate) fn sides_of<R: time::Clock + Copy + Drop>(
    rt: R,
    alloc: Global,
    stream: TcpStream,
    ahead: usize,
    end: Instant,
    limit: Duration,
) -> Result<Sides<R>, WireError> {
    if set_options(&stream, limit).is_err() {
        return Err(WireError::Failed);
    }
    let Ok((stream, again, buffer)) = share(alloc, stream, ahead) else {
        return Err(WireError::OutOfMemory);
    };
    let source = TcpSource::new(rt, alloc, stream, buffer, TimeLimit::new(end, limit));
    let sink = TcpSink::new(rt, alloc, again, TimeLimit::new(end, limit));
    match (source, sink) {
        (Ok(source), Ok(sink)) => Ok((source, sink)),
        _ => Err(WireError::OutOfMemory),
    }
}
