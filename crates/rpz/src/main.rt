//! `rpz`: answers queries by response policy zones (draft-vixie-dnsop-dns-rpz), those of a script or those of clients.
#![tactic(auto)]

mod descriptors;
mod output;

use descriptors::{allowed_descriptors, wanted_descriptors};
use edge_io::{Endpoint, LineSink, ReaderSource, TaskSpawner, WriterSink};
use ip_prefix::Addr;
use net_base::{RandomIds, SystemClock};
use net_wires::NetWires;
use output::{Output, Way};
use rpz_program::run::run;
use rpz_program::status::Status;
use rpz_words::{Command, EndpointText, Settings, UsageCause, read_words};
use rpz_workers::Report;
use std::alloc::Global;
use std::hash::RandomState;
use std::process::ExitCode;
use std::{env, io};

// The words of the command line behind the program's name; `None` where one is no UTF-8.
fn words_of(rt: &HostRuntime, alloc: Global) -> io::Result<Option<Vec<String>>> {
    match env::args(rt) {
        Ok(args) => Ok(Some(args.skip(1).collect(alloc)?)),
        Err(error) if error.kind() == io::ErrorKind::InvalidData => Ok(None),
        Err(error) => Err(error),
    }
}

// What a server is to do, where the words ask for one.
fn server_of(alloc: Global, words: &Option<Vec<String>>) -> Option<Settings> {
    match read_words(alloc, words.as_ref()?) {
        Ok(Command::Serve(settings)) => Some(settings),
        _ => None,
    }
}

// Says so where the system allows fewer descriptors than this server may want: it then closes connections of clients early.
fn tell_of_descriptors(rt: &HostRuntime, settings: &Settings) -> io::Result<()> {
    let wanted = wanted_descriptors(settings.connections.all, settings.listen.len());
    match allowed_descriptors() {
        Some(allowed) if allowed < wanted => eprintln!(rt;
            "rpz: {allowed} descriptors are allowed, and {wanted} may be wanted (ulimit -n)"
        ),
        _ => Ok(()),
    }
}

// Says so where an endpoint is all addresses of this host: a datagram then leaves from the address that the system chooses.
fn tell_of_wildcards(rt: &HostRuntime, settings: &Settings) -> io::Result<()> {
    for endpoint in settings.listen.as_slice() {
        if is_wildcard(endpoint.addr) {
            let shown = EndpointText(*endpoint);
            eprintln!(rt;
                "rpz: {shown} is all addresses of this host: a reply over UDP leaves from the one that the system chooses"
            )?;
        }
    }
    Ok(())
}

// Whether the address is 0.0.0.0 or ::.
fn is_wildcard(addr: Addr) -> bool {
    match addr {
        Addr::V4(number) => number == 0,
        Addr::V6(number) => number == 0,
    }
}

// Says which endpoint could not be bound, where the status is for want of one.
fn tell_of_refused(rt: &HostRuntime, refused: Option<Endpoint>, status: Status) -> io::Result<()> {
    match refused {
        Some(endpoint) if status == Status::SocketFault => {
            let shown = EndpointText(endpoint);
            eprintln!(rt; "rpz: {shown} could not be bound")
        }
        _ => Ok(()),
    }
}

// The code with which the program ends, behind what standard error says of it, unless that was said. It is apart from `main`, so that
// what fails here has nothing to drop.
fn code_of(rt: &HostRuntime, alloc: Global, status: Status, is_told: bool) -> io::Result<ExitCode> {
    if !is_told && let Some(text) = status.text(alloc)? {
        eprintln!(rt; "{text}")?;
    }
    Ok(ExitCode::from(status.code()))
}

fn main(rt: HostRuntime) -> io::Result<ExitCode> {
    let alloc = rt.alloc();
    let words = words_of(&rt, alloc)?;
    let server = server_of(alloc, &words);
    if let Some(settings) = &server {
        let _ = tell_of_descriptors(&rt, settings);
        let _ = tell_of_wildcards(&rt, settings);
    }
    let hashers = RandomState::new(&rt)?;
    // the lines of a server are written by a thread, so that it waits for no reader of them
    let way = if server.is_some() {
        Way::ByThread(LineSink::start(rt, alloc)?)
    } else {
        Way::AtOnce(WriterSink::new(io::writer(&rt)))
    };
    drop(server);
    let mut script = ReaderSource::new(rt.reader());
    let mut out = Output::new(way, rt.stderr());
    let mut wires = NetWires::new(rt, alloc);
    let mut spawner: TaskSpawner<Report, HostRuntime> = TaskSpawner::new(
        rt,
        alloc,
        true,
        Vec::new(alloc),
    );
    let mut clock = SystemClock::new(rt);
    let mut ids = RandomIds::new(rt);
    let status = match words {
        Some(words) => run(
            &rt,
            alloc,
            &words,
            &mut script,
            &mut out,
            &mut wires,
            &mut spawner,
            &mut clock,
            &mut ids,
            hashers,
        ),
        None => Status::Usage {
            cause: UsageCause::Words,
        },
    };
    let _ = tell_of_refused(&rt, wires.refused(), status);
    let status = if !out.end() && status == Status::Done {
        Status::WriteFault
    } else {
        status
    };
    let is_told = out.is_told && status == Status::WriteFault;
    code_of(&rt, alloc, status, is_told)
}
