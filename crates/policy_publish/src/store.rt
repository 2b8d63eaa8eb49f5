//! How a store is started, and opened under a name.

ghost use Rattle.std.specs.Prelude.{◌≡◌, ◌<◌, ◌≤◌, [], IfOk, length, vec_len, All};
ghost use Rattle.std.specs.Arc.{arc_value};
ghost use Rattle.zone_rows.specs.declared.zone.TheConstants.{ZONE_LIMIT};
ghost use Rattle.policy_snapshot.specs.Stands.{StandsFor};
ghost use Rattle.policy_publish.specs.Lists.{IsNew};

use crate::allowed::Allowed;
use crate::front::{Front, Line, LogWriter, StoreName, open_book};
use crate::publisher::Publisher;
use crate::reader::PolicyReader;
use crate::shown::Shown;
use ixfr_apply::Marks;
use networks::AllowList;
use policy_override::{ZoneSet, ZoneSets, origins_of};
use policy_snapshot::Snapshot;
use std::alloc::{AllocError, Global};
use std::marker::Model;
use std::sync::{Arc, Wait};

/// How many readers a store has at most: one for each thread that answers queries.
pub const READER_LIMIT: usize = 1_024;

/// A store that has no name yet. Contracts see the book of its publications, the origins of its zones with the override of each, the
/// networks whose clients may ask, and how many readers it has.
#[derive(Drop)]
pub struct Parts {
    log_writer: LogWriter,
    line: Line,
    settings: ZoneSets,
    allowed: AllowList,
    readers: usize,
}

impl Model for Parts {
    ghost use Rattle.std.specs.Prelude.{◌≡◌, ◌<◌, ◌≤◌, [], length};
    ghost use Rattle.zone_rows.specs.declared.zone.TheConstants.{ZONE_LIMIT};
    ghost use Rattle.policy_publish.specs.Stores.{Store};
    ghost use Rattle.policy_publish.specs.declared.store.TheConstants.{READER_LIMIT};

    ghost Value = { Store };

    ghost view = { λ p.
        record {
          book = p.log_writer;
          settings = p.settings;
          allowed = p.allowed;
          readers = p.readers;
        } };

    ghost invariant = { λ p. (p.line.book ≡ p.log_writer) × (p.line.entries ≡ []) ×
        (length p.settings ≤ ZONE_LIMIT) × (0 < p.readers) × (p.readers ≤ READER_LIMIT) };
}

/// A store with zones of these settings in this order, at most 64, the networks whose clients may ask, and so many readers, 1 to
/// 1,024. It waits for nobody and takes no memory.
pub fn start_store(settings: ZoneSets, allowed: AllowList, readers: usize) -> Parts
    requires settings { length settings ≤ ZONE_LIMIT }
    requires readers { (0 < readers) × (readers ≤ READER_LIMIT) }
    ensures settings { result.settings ≡ settings }
    ensures allowed { result.allowed ≡ allowed }
    ensures readers { result.readers ≡ readers }
{
    let (log_writer, line) = open_book();
    Parts {
        log_writer,
        line,
        settings,
        allowed,
        readers,
    }
}

impl Parts {
    ghost use Rattle.std.specs.Prelude.{◌≡◌, [], IfOk, vec_len, All};
    ghost use Rattle.ixfr_apply.specs.Marks.{no_marks};
    ghost use Rattle.policy_override.specs.ZoneSet.{origins_in};
    ghost use Rattle.policy_snapshot.specs.Stands.{StandsFor};
    ghost use Rattle.policy_publish.specs.Lists.{IsNew};

    /// The publisher and the readers of the store, which is then the one that `N` names. Nothing is published, nothing is loaded, and no
    /// zone is marked. It waits for nobody.
    pub fn open<N: StoreName, R: Wait>(
        self,
        rt: &R,
        alloc: Global,
    ) -> Result<(Publisher<N>, Vec<PolicyReader<N>>), AllocError>
        requires { self ≡ N.store }
        ensures list { IfOk result
            (λ r. (r.0.list ≡ []) × StandsFor N.store.settings r.0.version []) }
        ensures marks { IfOk result (λ r. r.0.marks ≡ no_marks (origins_in N.store.settings)) }
        ensures readers { IfOk result (λ r. vec_len r.1 ≡ self.readers) }
        ensures new { IfOk result (λ r. All (λ k. IsNew k) r.1.items) }
    {
        let Parts {
            log_writer,
            line,
            settings,
            allowed,
            readers,
        } = self;
        let front: Front<N> = Front::over(line.again());
        let origins = origins_of(alloc, settings.as_slice())?;
        let marks = Marks::new(alloc, origins.as_slice())?;
        let shown = first_shown(alloc, settings.as_slice(), line)?;
        let allowed: Allowed<N> = Allowed::new(alloc, allowed)?;
        let publisher = Publisher::over(rt, alloc, shown, marks, log_writer, allowed, readers)?;
        match all_readers(alloc, &publisher, &front, readers) {
            Ok(all) => Ok((publisher, all)),
            Err(_) => {
                publisher.close(rt);
                Err(AllocError)
            }
        }
    }
}

// The version with nothing loaded, which stands for the line of no entry.
fn first_shown(alloc: Global, settings: &[ZoneSet], line: Line) -> Result<Shown, AllocError>
    requires limit { length settings.now ≤ ZONE_LIMIT }
    requires empty { line.entries ≡ [] }
    ensures line { IfOk result (λ shown. shown.line ≡ line) }
    ensures stands { IfOk result (λ shown. StandsFor settings.now (arc_value shown.version) []) }
{
    let version = Arc::new(alloc, Snapshot::start(alloc, settings)?)?;
    Ok(Shown { version, line })
}

// So many readers, which have seen nothing and were told nothing.
fn all_readers<N: StoreName>(
    alloc: Global,
    publisher: &Publisher<N>,
    front: &Front<N>,
    readers: usize,
) -> Result<Vec<PolicyReader<N>>, AllocError>
    requires { front.now ≡ [] }
    ensures readers { IfOk result (λ all. vec_len all ≡ readers) }
    ensures new { IfOk result (λ all. All (λ k. IsNew k) all.items) }
{
    let mut all = Vec::new(alloc);
    for _ in 0..readers {
        all.push(publisher.reader(front)?)?;
    }
    Ok(all)
}
