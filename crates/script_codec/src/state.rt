//! The state that a line is read in.

ghost use Rattle.std.specs.Prelude.{◌≡◌, ◌≤◌, false, List, Option, slice_index_or, IfOk};
ghost use Rattle.ip_prefix.specs.declared.Addr.{Addr};
ghost use Rattle.ip_prefix.specs.Prefix.{PlainPrefix};
ghost use Rattle.policy_override.specs.ZoneSet.{origins_in};
ghost use Rattle.script_codec.specs.State.{opening, state_of, zone_count as zones_in, is_pending as is_pending_in, opens as opens_in, has_primary as has_primary_in, takes_network as takes_network_in, takes_primary as takes_primary_in};
ghost use Rattle.script_codec.specs.Within.{MayAllow, MayHavePrimary, MayOpen};

use crate::line_fault::LineFault;
use dns_name::Name;
use edge_io::WORKER_LIMIT;
use ip_prefix::Addr;
use networks::{AllowList, NETWORK_LIMIT, Network};
use policy_override::ZoneSets;
use zone_rows::ZONE_LIMIT;

/// How many workers there are.
pub const WORKERS: usize = WORKER_LIMIT;

/// What a line of a script is read by. Empty lines and comments do not count.
#[derive(Clone, Copy, Debug)]
pub enum ScriptState<'a> {
    /// Only zone lines, primary lines and allow lines so far.
    Opening {
        /// The zones that were opened, the first of them zone 1.
        zones: &'a ZoneSets,
        /// The primary of each of these zones, or none.
        primaries: &'a [Option<Addr>],
        /// The networks whose clients may ask.
        allowed: &'a AllowList,
    },
    /// There were other lines.
    Running {
        /// How many zones there are.
        zones: usize,
        /// Which workers have a pending query, the first of them worker 0.
        pending: [bool; WORKERS],
    },
}

impl ScriptState<'_> {
    // How many zones there are.
    pub(crate) fn zone_count(&self) -> usize
        ensures { result ≡ zones_in (state_of self.now) }
    {
        match self {
            ScriptState::Opening { zones, .. } => zones.len(),
            ScriptState::Running { zones, .. } => *zones,
        }
    }

    // Whether the worker has a pending query.
    pub(crate) fn is_pending(&self, worker: u32) -> bool
        ensures { result ≡ is_pending_in (state_of self.now) worker }
    {
        match self {
            ScriptState::Opening { .. } => false,
            ScriptState::Running { pending, .. } => is_set(pending, worker),
        }
    }

    // Whether a zone of this origin may be opened.
    #[tactic(auto, unfolding(crate::specs::State::opens))]
    pub(crate) fn opens(&self, origin: &Name) -> Result<(), LineFault>
        ensures exact { result ≡ opens_in (state_of self.now) origin.now }
        ensures within { IfOk result (λ _. MayOpen (state_of self.now) origin.now) }
    {
        match self {
            ScriptState::Opening { zones, .. } => admits(zones, origin),
            ScriptState::Running { .. } => Err(LineFault::Late),
        }
    }

    // Whether the zone of this number may be given a primary.
    #[tactic(auto, unfolding(crate::specs::State::takes_primary))]
    pub(crate) fn takes_primary(&self, zone: u32) -> Result<(), LineFault>
        requires { 1 ≤ zone }
        ensures exact { result ≡ takes_primary_in (state_of self.now) zone }
        ensures within { IfOk result (λ _. MayHavePrimary (state_of self.now) zone) }
    {
        let ScriptState::Opening { primaries, .. } = self else {
            return Err(LineFault::Late);
        };
        if has_primary(primaries, zone) {
            return Err(LineFault::Repeated);
        }
        Ok(())
    }

    // Whether this network may be one whose clients may ask.
    #[tactic(auto, unfolding(crate::specs::State::takes_network))]
    pub(crate) fn takes_network(&self, network: &Network) -> Result<(), LineFault>
        ensures exact { result ≡ takes_network_in (state_of self.now) network.now }
        ensures within { IfOk result (λ _. MayAllow (state_of self.now) network.now) }
    {
        let ScriptState::Opening { allowed, .. } = self else {
            return Err(LineFault::Late);
        };
        if allowed.len() >= NETWORK_LIMIT {
            return Err(LineFault::Many);
        }
        if allowed.contains(network) {
            return Err(LineFault::Repeated);
        }
        Ok(())
    }
}

// Whether a zone of this origin may be opened beside these.
#[tactic(auto, unfolding(crate::specs::State::opens))]
fn admits(zones: &ZoneSets, origin: &Name) -> Result<(), LineFault>
    ensures exact { (primaries : List (Option Addr)) (allowed : List PlainPrefix) →
        result ≡ opens_in (opening (origins_in zones.now) primaries allowed) origin.now }
    ensures within { (primaries : List (Option Addr)) (allowed : List PlainPrefix) →
        IfOk result (λ _. MayOpen (opening (origins_in zones.now) primaries allowed) origin.now) }
{
    if zones.len() >= ZONE_LIMIT {
        return Err(LineFault::Many);
    }
    if zones.contains(origin) {
        return Err(LineFault::Repeated);
    }
    Ok(())
}

// Whether the zone of this number has a primary.
fn has_primary(primaries: &[Option<Addr>], zone: u32) -> bool
    requires { 1 ≤ zone }
    ensures { result ≡ has_primary_in primaries.now zone }
{
    let place = zone as usize - 1;
    place < primaries.len() && primaries[place].is_some()
}

// The flag of the worker; false for a number over 15.
fn is_set(flags: &[bool; WORKERS], worker: u32) -> bool
    ensures { result ≡ slice_index_or flags.now worker false }
{
    let worker = worker as usize;
    worker < WORKERS && flags[worker]
}
