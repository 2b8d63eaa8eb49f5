//! Overrides of policy zones.

ghost use Rattle.std.specs.Prelude.{◌≡◌, IfOk};
ghost use Rattle.policy_override.specs.Override.{is_ruling, named_override};
ghost use Rattle.policy_override.specs.Overrides.{over_at};
ghost use Rattle.policy_override.specs.ZoneSet.{overrides_in};

use crate::zone_set::ZoneSet;
use dns_name::Name;
use std::alloc::{AllocError, Global};
use std::marker::Model;

/// What an operator sets over the rules of a policy zone. It changes what the rules do, and not which rules the zone has: their
/// triggers stay, and a row that makes no rule makes none under any override. The words are those of BIND's `policy`; Unbound's
/// `rpz-action-override` has them too, but for `given` and `tcp-only`.
#[derive(Debug, Drop)]
pub enum Override {
    /// `given`: each rule does what the zone says.
    Given,
    /// `disabled`: no rule of the zone counts.
    Disabled,
    /// `nxdomain`: the name does not exist.
    NxDomain,
    /// `nodata`: the name has no records of the type.
    NoData,
    /// `passthru`: the answer passes as it is.
    PassThru,
    /// `drop`: no reply.
    Drop,
    /// `tcp-only`: over UDP a truncated reply, so that the client asks again over TCP.
    TcpOnly,
    /// `cname`: the name is an alias of this target, whose letters are kept as they came.
    Cname(Name),
}

impl Override {
    /// The override that this word names: `given`, `disabled`, `nxdomain`, `nodata`, `passthru`, `drop` or `tcp-only`, in lower
    /// case. No other word names one, and `cname` neither, since it wants a target.
    #[tactic(auto, unfolding(crate::specs::Override::named_override))]
    pub fn named(word: &[u8]) -> Option<Override>
        ensures { result ≡ named_override word.now }
    {
        if word == b"given".as_slice() {
            return Some(Override::Given);
        }
        if word == b"disabled".as_slice() {
            return Some(Override::Disabled);
        }
        if word == b"nxdomain".as_slice() {
            return Some(Override::NxDomain);
        }
        if word == b"nodata".as_slice() {
            return Some(Override::NoData);
        }
        if word == b"passthru".as_slice() {
            return Some(Override::PassThru);
        }
        if word == b"drop".as_slice() {
            return Some(Override::Drop);
        }
        if word == b"tcp-only".as_slice() {
            return Some(Override::TcpOnly);
        }
        None
    }

    /// The same override. Only the target of `Cname` takes memory.
    pub fn copied(&self) -> Result<Override, AllocError>
        ensures { IfOk result (λ copy. copy ≡ self.now) }
    {
        match self {
            Override::Given => Ok(Override::Given),
            Override::Disabled => Ok(Override::Disabled),
            Override::NxDomain => Ok(Override::NxDomain),
            Override::NoData => Ok(Override::NoData),
            Override::PassThru => Ok(Override::PassThru),
            Override::Drop => Ok(Override::Drop),
            Override::TcpOnly => Ok(Override::TcpOnly),
            Override::Cname(target) => Ok(Override::Cname(copied_name(target)?)),
        }
    }

    /// Whether the rules of a zone under it count: under each but `Disabled`.
    pub fn is_ruling(&self) -> bool
        ensures { result ≡ is_ruling self.now }
    {
        !matches!(self, Override::Disabled)
    }
}

/// The overrides of the zones of a policy, the first of them that of zone 1. Contracts see the list.
#[derive(Debug, Drop)]
pub struct Overrides {
    all: Vec<Override>,
    // Lent for a number of which there is none.
    given: Override,
}

impl Model for Overrides {
    ghost use Rattle.std.specs.Prelude.{◌≡◌, List};
    ghost use Rattle.policy_override.specs.declared.overrides.Override.{Override};
    ghost use Rattle.policy_override.specs.declared.overrides.Override.TheVariants.{Given};

    ghost Value = { List Override };

    ghost view = { λ o. o.all.items };

    ghost invariant = { λ o. o.given ≡ Given };
}

impl Overrides {
    /// Copies of the overrides of these zones, in order.
    pub fn of(alloc: Global, zones: &[ZoneSet]) -> Result<Self, AllocError>
        ensures { IfOk result (λ overrides. overrides ≡ overrides_in zones.now) }
    {
        let mut all = Vec::with_capacity(alloc, zones.len())?;
        for zone in zones {
            all.push(zone.over.copied()?)?;
        }
        Ok(Overrides {
            all,
            given: Override::Given,
        })
    }

    /// The override of the zone of a number; the first is zone 1. It is `Given` where there is none of this number.
    pub fn at(&self, number: u32) -> &Override
        ensures { result.now ≡ over_at self.now number }
    {
        if number == 0 {
            return &self.given;
        }
        match self.all.get(number as usize - 1) {
            None => &self.given,
            Some(over) => over,
        }
    }
}

// The same name.
pub(crate) fn copied_name(name: &Name) -> Result<Name, AllocError>
    ensures { IfOk result (λ copy. copy ≡ name.now) }
{
    name.clone()
}
