//! Policy zones as words.

ghost use Rattle.std.specs.Prelude.{◌≡◌, map, IfOk};
ghost use Rattle.std.specs.List.{before_first};
ghost use Rattle.policy_override.specs.Override.{named_override};
ghost use Rattle.rpz_words.specs.Endpoint.{endpoint_of};
ghost use Rattle.rpz_words.specs.Lists.{each_of};
ghost use Rattle.rpz_words.specs.Outcome.{Gives, or_said};
ghost use Rattle.rpz_words.specs.ZoneWords.{GivesZone, cname_override, is_equals_sign, origin_of, override_behind, override_of, zone_fault, zone_setting_of, zones_of};

use crate::cutting::{cut, has_byte};
use crate::endpoint_text::read_endpoint;
use crate::usage_cause::{UsageCause, ZoneWordFault, ZonesFault};
use crate::words_error::WordsError;
use crate::zones::{ZoneSetting, Zones};
use dns_name::{Name, TextError};
use edge_io::Endpoint;
use policy_override::Override;
use std::alloc::{AllocError, Global};
use zone_rows::ZONE_LIMIT;

/// Why a text could not be read as a zone.
#[derive(Clone, Copy, Debug, PartialEq, Eq)]
pub(crate) enum ZoneWordError {
    /// An allocation failed.
    OutOfMemory,
    /// It writes none, and why.
    Fault(ZoneWordFault),
}

impl From<AllocError> for ZoneWordError {
    ghost use Rattle.std.specs.Prelude.{◌≡◌};
    ghost use Rattle.rpz_words.specs.declared.zone_words.ZoneWordError.TheVariants.{OutOfMemory};

    ghost from_gives = { λ _ e. e ≡ OutOfMemory };

    fn from(_e: AllocError) -> ZoneWordError {
        ZoneWordError::OutOfMemory
    }
}

impl From<ZoneWordFault> for ZoneWordError {
    ghost use Rattle.std.specs.Prelude.{◌≡◌};
    ghost use Rattle.rpz_words.specs.declared.zone_words.ZoneWordError.TheVariants.{Fault};

    ghost from_gives = { λ why e. e ≡ Fault why };

    fn from(why: ZoneWordFault) -> ZoneWordError {
        ZoneWordError::Fault(why)
    }
}

/// The zones of a policy, each of which one of the texts writes: 1 to 64, of distinct names.
#[tactic(auto, unfolding(crate::specs::ZoneWords::zones_of))]
pub(crate) fn read_zones(alloc: Global, texts: &[&str]) -> Result<Zones, WordsError>
    ensures { Gives result (zones_of (map (λ text. text.now) texts.now)) }
{
    if texts.is_empty() {
        return Err(WordsError::Usage(UsageCause::Words));
    }
    if texts.len() > ZONE_LIMIT {
        return Err(WordsError::Usage(UsageCause::Zones(ZonesFault::Many)));
    }
    let zones = read_each(alloc, texts)?;
    if zones.has_repeated() {
        return Err(WordsError::Usage(UsageCause::Zones(ZonesFault::Repeated)));
    }
    Ok(zones)
}

// The zone of each text.
fn read_each(alloc: Global, texts: &[&str]) -> Result<Zones, WordsError>
    ensures { Gives result
        (each_of zone_setting_of zone_fault 1 (map (λ text. text.now) texts.now)) }
{
    let mut zones = Zones::new(alloc);
    let mut number = 0;
    for text in texts {
        number += 1;
        let zone = read_at(alloc, number, text.as_bytes())?;
        zones.push(zone)?;
    }
    Ok(zones)
}

// The zone of this number.
fn read_at(alloc: Global, number: usize, text: &[u8]) -> Result<ZoneSetting, WordsError>
    ensures { Gives result (or_said (zone_fault number) (zone_setting_of text.now)) }
{
    match read_zone(alloc, text) {
        Ok(zone) => Ok(zone),
        Err(ZoneWordError::OutOfMemory) => Err(WordsError::OutOfMemory),
        Err(ZoneWordError::Fault(why)) => Err(WordsError::Usage(UsageCause::Zone { number, why })),
    }
}

// The zone, its primary and its override that `ZONE@PRIMARY` or `ZONE@PRIMARY=OVERRIDE` writes.
#[tactic(auto, unfolding(crate::specs::ZoneWords::zone_setting_of))]
fn read_zone(alloc: Global, text: &[u8]) -> Result<ZoneSetting, ZoneWordError>
    ensures { GivesZone result (zone_setting_of text.now) }
{
    if !has_byte(text, b'@') {
        return Err(ZoneWordError::Fault(ZoneWordFault::Form));
    }
    let (origin, source) = cut(text, b'@');
    let origin = read_name(alloc, origin)?.ok_or(ZoneWordFault::Name)?;
    let primary = read_primary(source)?;
    let over = read_override_behind(alloc, source)?.ok_or(ZoneWordFault::Override)?;
    Ok(ZoneSetting {
        origin,
        primary,
        over,
    })
}

// The endpoint that stands before the first equals sign, or alone.
fn read_primary(source: &[u8]) -> Result<Endpoint, ZoneWordFault>
    ensures { result ≡ or_said ZoneWordFault.Primary (endpoint_of (before_first is_equals_sign source.now)) }
{
    let (primary, _over) = cut(source, b'=');
    match read_endpoint(primary) {
        Ok(primary) => Ok(primary),
        Err(why) => Err(ZoneWordFault::Primary(why)),
    }
}

// The override that stands behind the first equals sign, or `Given` where there is none.
fn read_override_behind(alloc: Global, source: &[u8]) -> Result<Option<Override>, AllocError>
    ensures { IfOk result (λ over. over ≡ override_behind source.now) }
{
    if has_byte(source, b'=') {
        let (_primary, over) = cut(source, b'=');
        return read_override(alloc, over);
    }
    Ok(Some(Override::Given))
}

// The override that `cname:TARGET` or a word writes.
fn read_override(alloc: Global, text: &[u8]) -> Result<Option<Override>, AllocError>
    ensures { IfOk result (λ over. over ≡ override_of text.now) }
{
    if has_byte(text, b':') {
        let (word, target) = cut(text, b':');
        return read_cname(alloc, word, target);
    }
    Ok(Override::named(text))
}

// The override that `cname` and its target write.
fn read_cname(alloc: Global, word: &[u8], target: &[u8]) -> Result<Option<Override>, AllocError>
    ensures { IfOk result (λ over. over ≡ cname_override word.now target.now) }
{
    if word != b"cname".as_slice() {
        return Ok(None);
    }
    match read_name(alloc, target)? {
        Some(name) => Ok(Some(Override::Cname(name))),
        None => Ok(None),
    }
}

// The name that a text writes.
fn read_name(alloc: Global, text: &[u8]) -> Result<Option<Name>, AllocError>
    ensures { IfOk result (λ name. name ≡ origin_of text.now) }
{
    match Name::from_text(alloc, text) {
        Ok(name) => Ok(Some(name)),
        Err(TextError::OutOfMemory) => Err(AllocError),
        Err(TextError::Fault(_)) => Ok(None),
    }
}
