//! The policy zones of a server.

ghost use Rattle.std.specs.Prelude.{◌≡◌, [], ◌∷◌, ◌++◌, length, map, IfOk, OnOk, OnErr};
ghost use Rattle.rpz_words.specs.Zones as zones_form;

use dns_name::Name;
use edge_io::Endpoint;
use policy_override::{Override, ZoneSet, ZoneSets};
use std::alloc::{AllocError, Global};
use std::marker::Model;

/// A policy zone, where it is transferred from, and what is set over its rules.
#[derive(Debug, Drop)]
pub struct ZoneSetting {
    /// The name of the zone.
    pub origin: Name,
    /// The primary server that its transfers come from.
    pub primary: Endpoint,
    /// What is set over its rules.
    pub over: Override,
}

/// The policy zones of a server in order, the first of them zone 1. Contracts see the list.
#[derive(Debug, Drop)]
pub struct Zones {
    zones: Vec<ZoneSetting>,
}

impl Model for Zones {
    ghost use Rattle.std.specs.Prelude.{List};
    ghost use Rattle.rpz_words.specs.declared.zones.ZoneSetting.{ZoneSetting};

    ghost Value = { List ZoneSetting };

    ghost view = { λ z. z.zones.items };
}

impl Zones {
    /// No zones. It takes no memory.
    pub(crate) fn new(alloc: Global) -> Self
        ensures { result ≡ [] }
    {
        Zones {
            zones: Vec::new(alloc),
        }
    }

    /// How many zones there are.
    pub fn len(&self) -> usize
        ensures { result ≡ length self.now }
    {
        self.zones.len()
    }

    /// Copies of the zones' names with what is set over their rules, in order.
    pub fn sets(&self, alloc: Global) -> Result<ZoneSets, AllocError>
        ensures { IfOk result (λ sets. sets ≡ zones_form.zone_sets self.now) }
    {
        let mut sets = ZoneSets::new(alloc);
        for setting in &self.zones {
            sets.push(set_of(setting)?)?;
        }
        Ok(sets)
    }

    /// Where the zones are transferred from, in order.
    pub fn primaries(&self, alloc: Global) -> Result<Vec<Endpoint>, AllocError>
        ensures { IfOk result (λ found. found.items ≡ map (λ setting. setting.primary) self.now) }
    {
        self.zones
            .iter()
            .map(|setting| setting.primary)
            .collect(alloc)
    }

    // Whether two zones have one name. ASCII letters compare without case.
    pub(crate) fn has_repeated(&self) -> bool
        ensures { result ≡ zones_form.has_repeated self.now }
    {
        has_repeated(&self.zones)
    }

    // Puts a zone behind the others. An `Err` leaves them as they were.
    pub(crate) fn push(&mut self, zone: ZoneSetting) -> Result<(), AllocError>
        ensures ok { OnOk result (self.new ≡ self.old ++ zone ∷ []) }
        ensures err { OnErr result (self.new ≡ self.old) }
    {
        self.zones.push(zone)?;
        Ok(())
    }
}

// Whether two of the zones have one name.
fn has_repeated(zones: &[ZoneSetting]) -> bool
    ensures { result ≡ zones_form.has_repeated zones.now }
{
    let mut left = zones;
    while let [zone, others @ ..] = left {
        if has_origin(&zone.origin, others) {
            return true;
        }
        left = others;
    }
    false
}

// Whether a zone has this name.
fn has_origin(name: &Name, zones: &[ZoneSetting]) -> bool
    ensures { result ≡ zones_form.has_origin name.now zones.now }
{
    zones.iter().any(|zone| name.is_same(&zone.origin))
}

// A copy of the zone's name with what is set over its rules.
fn set_of(setting: &ZoneSetting) -> Result<ZoneSet, AllocError>
    ensures { IfOk result
        (λ set. set ≡ record { origin = setting.now.origin; over = setting.now.over }) }
{
    Ok(ZoneSet {
        origin: copied(&setting.origin)?,
        over: setting.over.copied()?,
    })
}

// The same name once more.
fn copied(name: &Name) -> Result<Name, AllocError>
    ensures { IfOk result (λ copy. copy ≡ name.now) }
{
    name.clone()
}
