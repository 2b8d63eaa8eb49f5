//! Policy zones as an operator sets them.

ghost use Rattle.std.specs.Prelude.{◌≡◌, ℕ, [], ◌∷◌, ◌++◌, length, IfOk, OnOk, OnErr};
ghost use Rattle.std.specs.List.{list_any};
ghost use Rattle.dns_name.specs.Alike.{same_name};
ghost use Rattle.policy_override.specs.Overrides.{over_at};
ghost use Rattle.policy_override.specs.ZoneSet.{given_zones, has_zone_name, origins_in, overrides_in};

use crate::overrides::{Override, copied_name};
use dns_name::Name;
use std::alloc::{AllocError, Global};
use std::marker::Model;

/// A policy zone, and what is set over its rules.
#[derive(Debug, Drop)]
pub struct ZoneSet {
    /// The name of the zone.
    pub origin: Name,
    /// What is set over its rules.
    pub over: Override,
}

/// Policy zones in order, the first of them zone 1. Contracts see the list.
#[derive(Debug, Drop)]
pub struct ZoneSets {
    zones: Vec<ZoneSet>,
}

impl Model for ZoneSets {
    ghost use Rattle.std.specs.Prelude.{List};
    ghost use Rattle.policy_override.specs.declared.zone_set.ZoneSet.{ZoneSet};

    ghost Value = { List ZoneSet };

    ghost view = { λ z. z.zones.items };
}

impl ZoneSets {
    /// No zones. It takes no memory.
    pub fn new(alloc: Global) -> Self
        ensures { result ≡ [] }
    {
        ZoneSets {
            zones: Vec::new(alloc),
        }
    }

    /// How many zones there are.
    pub fn len(&self) -> usize
        ensures zones { result ≡ length self.now }
        ensures origins { result ≡ length (origins_in self.now) }
    {
        self.zones.len()
    }

    /// Whether a zone has this origin. ASCII letters compare without case.
    pub fn contains(&self, origin: &Name) -> bool
        ensures { result ≡ has_zone_name (origins_in self.now) origin.now }
    {
        has_origin(&self.zones, origin)
    }

    /// The zones, in order.
    pub fn as_slice(&self) -> &[ZoneSet]
        ensures { result.now ≡ self.now }
    {
        &self.zones
    }

    /// Puts a zone behind the others. An `Err` leaves them as they were.
    pub fn push(&mut self, zone: ZoneSet) -> Result<(), AllocError>
        ensures ok { OnOk result (self.new ≡ self.old ++ zone ∷ []) }
        ensures err { OnErr result (self.new ≡ self.old) }
    {
        self.zones.push(zone)?;
        Ok(())
    }
}

// Whether one of the zones has this origin.
fn has_origin(zones: &[ZoneSet], origin: &Name) -> bool
    ensures { result ≡ list_any (λ zone. same_name zone.origin origin.now) zones.now }
{
    zones.iter().any(|zone| zone.origin.is_same(origin))
}

/// Copies of the origins of these zones, in order.
pub fn origins_of(alloc: Global, zones: &[ZoneSet]) -> Result<Vec<Name>, AllocError>
    ensures { IfOk result (λ origins. origins.items ≡ origins_in zones.now) }
{
    let mut origins = Vec::with_capacity(alloc, zones.len())?;
    for zone in zones {
        origins.push(copied_name(&zone.origin)?)?;
    }
    Ok(origins)
}

/// Zones of these origins in this order, each rule of which does what its zone says.
pub fn as_given(alloc: Global, origins: Vec<Name>) -> Result<ZoneSets, AllocError>
    ensures zones { IfOk result (λ zones. zones ≡ given_zones origins.items) }
    ensures origins { IfOk result (λ zones. origins_in zones ≡ origins.items) }
    ensures given { IfOk result
        (λ zones. (number : ℕ) → over_at (overrides_in zones) number ≡ Override.Given) }
{
    let zones = all_given(alloc, origins)?;
    Ok(ZoneSets { zones })
}

// The same zones, in a vector.
fn all_given(alloc: Global, origins: Vec<Name>) -> Result<Vec<ZoneSet>, AllocError>
    ensures { IfOk result (λ zones. zones.items ≡ given_zones origins.items) }
{
    origins
        .into_iter()
        .map(|origin| ZoneSet {
            origin,
            over: Override::Given,
        })
        .collect(alloc)
}
