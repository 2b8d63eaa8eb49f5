//! The upstreams that wires have links to.

use crate::tcp_link::TcpLink;
use crate::upstream_asker::UpstreamAsker;
use crate::upstream_pool::UpstreamPool;
use crate::upstream_reader::{ReadConnection, UpstreamReader};
use edge_io::Endpoint;
use net_base::{ThreadStarter, start_starter};
use server_io::WireError;
use std::alloc::{AllocError, Global};
use std::net::{Net, TcpListener, TcpStream};
use std::sync::{Arc, Wait};
use std::thread::Threads;
use std::time;

/// The upstreams that wires have links to, each with its pool, and what starts the threads that read their connections.
#[derive(Drop)]
pub struct Upstreams<R: time::Clock + Wait + Copy + Drop> {
    alloc: Global,
    pools: Vec<Arc<UpstreamPool>>,
    // Missing where the system had no room for it, and once these have stopped.
    starter: Option<ThreadStarter<UpstreamReader<R>>>,
}

impl<R: time::Clock + Wait + Threads + Copy + Drop + Send + 'static> Upstreams<R> {
    /// There is none. Where there is no room for the thread that starts others, no link can be had.
    pub fn new(rt: R, alloc: Global) -> Self {
        Upstreams {
            alloc,
            pools: Vec::new(alloc),
            starter: start_starter::<ReadConnection<R>, R, UpstreamReader<R>>(rt, alloc).ok(),
        }
    }
}

impl<R: time::Clock + Wait + Threads + Copy + Drop> Upstreams<R> {
    /// Closes all connections, and joins the threads that read them. Nothing is asked any more, and no link can be had.
    pub fn stop(&mut self, rt: &R) {
        for pool in self.pools.iter() {
            pool.stop(rt);
        }
        if let Some(starter) = self.starter.take() {
            starter.end(rt);
        }
    }
}

impl<
    R: Net<Listener = TcpListener, Stream = TcpStream> + time::Clock + Wait + Copy + Drop,
> Upstreams<R> {
    // The pool of an upstream, which is made where there is none.
    fn pool(&mut self, upstream: Endpoint) -> Result<Arc<UpstreamPool>, AllocError> {
        if let Some(pool) = self.pools.iter().find(|pool| pool.upstream == upstream) {
            return Arc::try_clone(pool);
        }
        let Ok(pool) = Arc::new(self.alloc, UpstreamPool::new(self.alloc, upstream)?) else {
            return Err(AllocError);
        };
        self.pools.push(Arc::try_clone(&pool)?)?;
        Ok(pool)
    }

    /// A link to an upstream. All links to one upstream share its pool. `Failed` comes where no thread can be started, and once these
    /// have stopped.
    pub fn link(&mut self, rt: R, upstream: Endpoint) -> Result<TcpLink<R>, WireError> {
        match self.link_of(rt, upstream) {
            Ok(Some(link)) => Ok(link),
            Ok(None) => Err(WireError::Failed),
            Err(_) => Err(WireError::OutOfMemory),
        }
    }

    fn link_of(&mut self, rt: R, upstream: Endpoint) -> Result<Option<TcpLink<R>>, AllocError> {
        let pool = self.pool(upstream)?;
        match &self.starter {
            Some(starter) => {
                let jobs = starter.sender()?;
                Ok(Some(TcpLink::new(UpstreamAsker { rt, pool, jobs })))
            }
            None => Ok(None),
        }
    }
}
