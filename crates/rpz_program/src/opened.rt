//! The zones that a script opens.

ghost use Rattle.std.specs.Prelude.{◌≡◌, ◌≤◌, ◌<◌, length, OnOk};
ghost use Rattle.zone_rows.specs.declared.zone.TheConstants.{ZONE_LIMIT};
ghost use Rattle.rpz_program.specs.Opened.{no_zones, with_network, with_primary, with_open_zone};

use ip_prefix::Addr;
use networks::{AllowList, Network};
use policy_override::{ZoneSet, ZoneSets};
use std::alloc::{AllocError, Global};
use std::marker::Model;

/// The zones that were opened, at most 64, each with its primary or none, and the networks whose clients may ask. Contracts see all three
/// lists.
#[derive(Drop)]
pub(crate) struct Opened {
    zones: ZoneSets,
    primaries: Vec<Option<Addr>>,
    allowed: AllowList,
}

impl Model for Opened {
    ghost use Rattle.std.specs.Prelude.{◌≡◌, ◌≤◌, length};
    ghost use Rattle.rpz_program.specs.Opened.{OpenZones};
    ghost use Rattle.zone_rows.specs.declared.zone.TheConstants.{ZONE_LIMIT};

    ghost Value = { OpenZones };

    ghost view = { λ o.
        record { settings = o.zones; primaries = o.primaries.items; allowed = o.allowed } };

    ghost invariant = { λ o. (length o.zones ≤ ZONE_LIMIT)
        × (length o.primaries.items ≡ length o.zones) };
}

impl Opened {
    /// No zone was opened, and everyone may ask. It takes no memory.
    pub(crate) fn new(alloc: Global) -> Self
        ensures { result ≡ no_zones }
    {
        Opened {
            zones: ZoneSets::new(alloc),
            primaries: Vec::new(alloc),
            allowed: AllowList::everyone(alloc),
        }
    }

    /// The zones, with what is set over the rules of each.
    pub(crate) fn zones(&self) -> &ZoneSets
        ensures zones { result.now ≡ self.now.settings }
        ensures limit { length self.now.settings ≤ ZONE_LIMIT }
    {
        &self.zones
    }

    /// The primary of each zone, where it has one.
    pub(crate) fn primaries(&self) -> &[Option<Addr>]
        ensures primaries { result.now ≡ self.now.primaries }
        ensures length { length self.now.primaries ≡ length self.now.settings }
    {
        &self.primaries
    }

    /// The networks whose clients may ask.
    pub(crate) fn allowed(&self) -> &AllowList
        ensures { result.now ≡ self.now.allowed }
    {
        &self.allowed
    }

    /// This zone was opened.
    pub(crate) fn push(&mut self, zone: ZoneSet) -> Result<(), AllocError>
        requires { length self.old.settings < ZONE_LIMIT }
        ensures { OnOk result (self.new ≡ with_open_zone self.old zone) }
    {
        self.primaries.push(None)?;
        if let Err(error) = self.zones.push(zone) {
            self.primaries.pop();
            return Err(error);
        }
        Ok(())
    }

    /// The zone of this number was given its primary.
    pub(crate) fn set_primary(&mut self, zone: u32, address: Addr)
        requires low { 1 ≤ zone }
        requires high { zone ≤ length self.old.settings }
        ensures { self.new ≡ with_primary self.old zone address }
    {
        self.primaries[zone as usize - 1] = Some(address);
    }

    /// The clients of this network may ask, beside those of the networks before it.
    pub(crate) fn allow(&mut self, network: Network) -> Result<(), AllocError>
        ensures { OnOk result (self.new ≡ with_network self.old network) }
    {
        self.allowed.push(network)
    }
}
