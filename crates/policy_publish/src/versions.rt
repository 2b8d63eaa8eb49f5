//! The version that comes next.

ghost use Rattle.std.specs.Prelude.{◌≡◌, ℕ, ◌∷◌, [], ◌++◌, List, IfOk, IfErr, IfSome, IsSome};
ghost use Rattle.std.specs.Arc.{arc_value};
ghost use Rattle.zone_rows.specs.Zone.{Fails, apply_outcome};
ghost use Rattle.policy_snapshot.specs.declared.entry.Entry.{Entry};
ghost use Rattle.policy_snapshot.specs.Policy.{zone_at};
ghost use Rattle.policy_override.specs.declared.zone_set.ZoneSet.{ZoneSet};
ghost use Rattle.policy_snapshot.specs.Stands.{StandsFor};
ghost use Rattle.policy_publish.specs.Publishing.{HasSize, Takes};
ghost use Rattle.policy_publish.specs.Shows.{IsOf};

use crate::front::{LogWriter, StoreName};
use crate::publication::Publication;
use crate::shown::Shown;
use policy_snapshot::{Entry, Snapshot};
use std::alloc::Global;
use std::sync::Arc;
use zone_index::Zone;
use zone_rows::{ApplyError, Transfer};

/// A book takes fewer publications than this: the count must fit what counts them.
const MOST: u64 = 1 << 62;

/// The zone of this number.
pub(crate) fn zone_of(version: &Snapshot, number: u32) -> &Zone
    requires { IsSome (zone_at version.now.zones number) }
    ensures { IfSome (zone_at version.now.zones number) (λ zone. result.now ≡ zone) }
{
    version.zone(number).unwrap()
}

// The serial and the number of rows of the zone of this number; 0 where nothing is loaded.
fn size_of(version: &Snapshot, number: u32) -> Publication
    requires { IsSome (zone_at version.now.zones number) }
    ensures { IfSome (zone_at version.now.zones number) (λ zone. HasSize result zone.content) }
{
    let zone = zone_of(version, number);
    Publication {
        serial: zone.serial().unwrap_or(0),
        rows: zone.row_count().unwrap_or(0),
    }
}

// The version after one more transfer, and what the zone holds then. Where the one before stands for some entries, it stands for
// these with one more.
fn version_after(
    alloc: Global,
    version: &Snapshot,
    number: u32,
    transfer: Transfer,
) -> Result<(Snapshot, Publication), ApplyError>
    requires { IsSome (zone_at version.now.zones number) }
    ensures ok { IfOk result (λ t. IfSome (zone_at version.now.zones number) (λ zone.
        Takes number zone transfer t.1 version.now t.0)) }
    ensures err { IfErr result (λ error. IfSome (zone_at version.now.zones number) (λ zone.
        Fails error (apply_outcome zone transfer))) }
    ensures stands { IfOk result (λ t. (settings : List ZoneSet) (entries : List Entry) →
        StandsFor settings version.now entries →
        StandsFor settings t.0 (entries ++ record { zone = number; transfer = transfer } ∷ [])) }
{
    let next = version.apply(alloc, number, transfer)?;
    let size = size_of(&next, number);
    Ok((next, size))
}

/// What is to be shown next.
pub(crate) struct Prepared {
    pub shown: Shown,
    /// The same once more.
    pub again: Shown,
    /// The same a third time.
    pub twice: Shown,
    pub size: Publication,
}

/// What comes after what is shown. From here on nothing more is allocated.
pub(crate) fn prepare<N: StoreName>(
    alloc: Global,
    latest: &Shown,
    log_writer: &LogWriter,
    number: u32,
    transfer: Transfer,
) -> Result<Prepared, ApplyError>
    requires store { IsOf N.store latest.now × (log_writer.now ≡ N.store.book) }
    requires zone { IsSome (zone_at (arc_value latest.now.version).zones number) }
    ensures ok { IfOk result
        (λ p. IfSome (zone_at (arc_value latest.now.version).zones number) (λ zone.
        Takes number zone transfer p.size (arc_value latest.now.version)
        (arc_value p.shown.version))) }
    ensures err { IfErr result
        (λ error. IfSome (zone_at (arc_value latest.now.version).zones number) (λ zone.
        Fails error (apply_outcome zone transfer))) }
    ensures list { IfOk result (λ p.
        p.shown.line.entries
        ≡ latest.now.line.entries ++ record { zone = number; transfer = transfer } ∷ []) }
    ensures store { IfOk result (λ p. IsOf N.store p.shown) }
    ensures again { IfOk result (λ p. (p.again.line ≡ p.shown.line) ×
        (arc_value p.again.version ≡ arc_value p.shown.version)) }
    ensures twice { IfOk result (λ p. (p.twice.line ≡ p.shown.line) ×
        (arc_value p.twice.version ≡ arc_value p.shown.version)) }
{
    if latest.line.len() >= MOST {
        return Err(ApplyError::OutOfMemory);
    }
    let entry = Entry {
        zone: number,
        transfer,
    };
    let addition = latest.line.addition(&entry);
    let Entry { zone, transfer } = entry;
    let (next, size) = version_after(alloc, &latest.version, zone, transfer)?;
    let version = Arc::new(alloc, next)?;
    let again = Arc::try_clone(&version)?;
    let twice = Arc::try_clone(&version)?;
    let Some(line) = log_writer.add(addition) else {
        return Err(ApplyError::OutOfMemory);
    };
    Ok(Prepared {
        shown: Shown {
            version,
            line: line.again(),
        },
        again: Shown {
            version: again,
            line: line.again(),
        },
        twice: Shown {
            version: twice,
            line,
        },
        size,
    })
}
