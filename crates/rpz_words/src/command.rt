//! What the words of a command line ask for.

use crate::pages::Page;
use crate::settings::{LoadSettings, Settings};

/// What the words of a command line ask for.
#[derive(Debug, Drop)]
pub enum Command {
    /// `replay`: a script is answered.
    Replay,
    /// `serve [--askers N] [--cache ENTRIES] [--hold SECONDS] [--tcp-clients CLIENTS] [--tcp-per-client EACH] [--allow PREFIX,...] LISTEN
    /// UPSTREAM TURNS WORKERS ZONE@PRIMARY...`: a server answers. UPSTREAM and each PRIMARY are an endpoint, and LISTEN is 1 to 16 of
    /// them with commas between them: `A.B.C.D:PORT`, or `[V6]:PORT` with an address of IP version 6 (RFC 4291, section 2.2) that is
    /// not a mapped one, and a port from 1 to 65,535. PREFIX is `ADDRESS/LENGTH`, of either version. Behind a ZONE@PRIMARY may stand
    /// what is set over the rules of the zone: `=WORD`, where WORD is `given`, `disabled`, `nxdomain`, `nodata`, `passthru`, `drop` or
    /// `tcp-only`, or `=cname:TARGET`. An option may stand anywhere among the words behind `serve`, also as `--cache=ENTRIES`, and each
    /// once at most.
    Serve(Settings),
    /// `load SEED RULES QUERIES WORKERS`: a zone and queries are made from the seed, and answered.
    Load(LoadSettings),
    /// `help`, `--help`, `--version` and the like: a page is shown.
    Show(Page),
}
