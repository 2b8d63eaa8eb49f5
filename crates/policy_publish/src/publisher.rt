//! The one thread that publishes.

ghost use Rattle.std.specs.Prelude.{◌≡◌, ◌≤◌, ◌<◌, [], drop, IfOk};
ghost use Rattle.std.specs.Option.{IsSomeAnd};
ghost use Rattle.std.specs.Arc.{arc_value};
ghost use Rattle.policy_publish.specs.Shows.{IsOf};

use crate::allowed::Allowed;
use crate::front::{Front, LogWriter, StoreName};
use crate::publication::Publication;
use crate::reader::{PolicyReader, Told};
use crate::rule::OfStore;
use crate::showing::swap_in;
use crate::shown::Shown;
use crate::store::READER_LIMIT;
use crate::versions::{Prepared, prepare, zone_of};
use axfr_apply::Wanted;
use dns_name::Name;
use dns_record::Soa;
use ip_prefix::Addr;
use ixfr_apply::{Marks, wanted};
use left_right::writer::Writer;
use policy_snapshot::OldZone;
use std::alloc::{AllocError, Global};
use std::marker::Model;
use std::sync::Wait;
use zone_rows::{ApplyError, Transfer};

/// The list of the transfers that were published, the version that readers take, which stands for it, and which zones are marked, so
/// that all of them is asked for next. It is not `Drop`: end it by [`Publisher::close`].
pub struct Publisher<N: StoreName> {
    // `None` only while a version is on its way.
    writer: Option<Writer<Shown, Shown, (), OfStore<N>>>,
    // What readers take.
    latest: Shown,
    marks: Marks,
    log_writer: LogWriter,
    allowed: Allowed<N>,
    // Zones that others took the place of, and that readers may still hold. No clause speaks of them.
    replaced: Vec<OldZone>,
    alloc: Global,
}

impl<N: StoreName> Model for Publisher<N> {
    ghost use Rattle.std.specs.Prelude.{◌≡◌, [], drop};
    ghost use Rattle.std.specs.Option.{IsSomeAnd};
    ghost use Rattle.std.specs.Arc.{arc_value};
    ghost use Rattle.policy_publish.specs.Lists.{Published};
    ghost use Rattle.policy_publish.specs.Shows.{IsOf};

    ghost Value = { Published };

    ghost view = { λ p.
        record {
          list = p.latest.line.entries;
          version = arc_value p.latest.version;
          marks = p.marks;
        } };

    // the writer shows the latest version, and nothing waits behind it
    ghost invariant = { λ p. IsOf N.store p.latest × (p.log_writer ≡ N.store.book) ×
        IsSomeAnd p.writer (λ w. (drop w.behind w.log.items ≡ []) ×
        (w.desk.shown.value.line ≡ p.latest.line) ×
        (arc_value w.desk.shown.value.version ≡ arc_value p.latest.version)) };
}

impl<N: StoreName> Publisher<N> {
    ghost use Rattle.std.specs.Prelude.{◌≡◌, length, true, false, is_some, option_copied, option_map, IfOk, IfSome, IsSome};
    ghost use Rattle.zone_rows.specs.declared.zone.TheConstants.{ZONE_LIMIT};
    ghost use Rattle.ixfr_apply.specs.Marks.{mark_at, with_mark};
    ghost use Rattle.ixfr_apply.specs.Offer.{wanted_of};
    ghost use Rattle.policy_snapshot.specs.Policy.{zone_at};
    ghost use Rattle.policy_snapshot.specs.Stands.{StandsFor};
    ghost use Rattle.networks.specs.Allowed.{is_allowed};
    ghost use Rattle.policy_publish.specs.Publishing.{Publishes};

    // It publishes the first version once, so that its queue has room from then on.
    pub(crate) fn over<R: Wait>(
        rt: &R,
        alloc: Global,
        shown: Shown,
        marks: Marks,
        log_writer: LogWriter,
        allowed: Allowed<N>,
        readers: usize,
    ) -> Result<Publisher<N>, AllocError>
        requires readers { (0 < readers) × (readers ≤ READER_LIMIT) }
        requires store { IsOf N.store shown × (log_writer ≡ N.store.book) }
        ensures shown { IfOk result
            (λ p. (p.list ≡ shown.line.entries) × (p.version ≡ arc_value shown.version)) }
        ensures marks { IfOk result (λ p. p.marks ≡ marks) }
    {
        let (first, spare, again) = (shown.again()?, shown.again()?, shown.again()?);
        let mut writer: Writer<Shown, Shown, (), OfStore<N>> = Writer::new(
            alloc, first, spare, readers,
        )?;
        if writer.append(again).is_err() {
            drop(writer.take(rt));
            return Err(AllocError);
        }
        let (writer, done) = writer.publish_as::<OfStore<N>, R>(rt);
        if done.is_err() {
            drop(writer.take(rt));
            return Err(AllocError);
        }
        Ok(Publisher {
            writer: Some(writer),
            latest: shown,
            marks,
            log_writer,
            allowed,
            replaced: Vec::new(alloc),
            alloc,
        })
    }

    // One more reader, which has seen and was told the entries of the front.
    pub(crate) fn reader(&self, front: &Front<N>) -> Result<PolicyReader<N>, AllocError>
        ensures { IfOk result (λ r. (r.seen ≡ front.now) × (r.told ≡ front.now)) }
    {
        let Some(writer) = &self.writer else {
            return Err(AllocError);
        };
        let reader = writer.factory().reader()?;
        Ok(PolicyReader::over(self.alloc, reader, front, self.allowed.again()?))
    }

    /// Publishes the policy after one more transfer, whole or in steps, of the zone of this number, the first of which is zone 1, and
    /// answers what the zone holds then. The zone is no more marked. It answers `Fault` where the zone can't take the transfer, and
    /// `OutOfMemory` where memory ran out, or 2^62 transfers were published; all is as it was then. Its time is that of building one
    /// zone, and it waits until no reader is entering. The zone as it was before is given up by [`Publisher::give_up_old`].
    pub fn publish<R: Wait>(
        &mut self,
        rt: &R,
        number: u32,
        transfer: Transfer,
    ) -> Result<Publication, ApplyError>
        requires { IsSome (zone_at self.old.version.zones number) }
        ensures stands { StandsFor N.store.settings self.new.version self.new.list }
        ensures publishes { IfSome (zone_at self.old.version.zones number) (λ zone.
            Publishes number zone transfer result self.old self.new) }
    {
        let before = self.latest.version.hold(number)?;
        self.replaced.reserve(1)?;
        let prepared = prepare::<N>(self.alloc, &self.latest, &self.log_writer, number, transfer);
        let Prepared {
            shown,
            again,
            twice,
            size,
        } = match prepared {
            Ok(prepared) => prepared,
            Err(error) => {
                drop(before);
                return Err(error);
            }
        };
        swap_in(rt, &mut self.writer, again);
        // so that the copy that readers don't see has no version before this one
        swap_in(rt, &mut self.writer, twice);
        self.latest = shown;
        self.marks.set(number, false);
        keep(&mut self.replaced, before);
        Ok(size)
    }

    /// Gives up the zones that others took the place of, as far as no reader holds them any more, and says how many are left. So no
    /// reader is the one that gives a zone up, which takes time linear in its rows. It waits for nobody and takes no memory.
    pub fn give_up_old(&mut self) -> usize
        ensures { self.new ≡ self.old }
    {
        self.replaced.retain(|zone| zone.is_held());
        self.replaced.len()
    }

    /// The list as it is now, for a reader to learn. It waits for nobody and takes no memory.
    pub fn tell(&self) -> Told<N>
        ensures { result ≡ self.now.list }
    {
        Told::of(Front::over(self.latest.line.again()))
    }

    /// Marks the zone of this number, so that all of it is asked for next. It waits for nobody and takes no memory.
    pub fn mark_whole(&mut self, number: u32)
        requires { IsSome (zone_at self.old.version.zones number) }
        ensures list { self.new.list ≡ self.old.list }
        ensures version { self.new.version ≡ self.old.version }
        ensures marks { self.new.marks ≡ with_mark self.old.marks number true }
    {
        self.marks.set(number, true);
    }

    /// The zone of this number is not marked from now on. It waits for nobody and takes no memory.
    pub fn unmark(&mut self, number: u32)
        requires { IsSome (zone_at self.old.version.zones number) }
        ensures list { self.new.list ≡ self.old.list }
        ensures version { self.new.version ≡ self.old.version }
        ensures marks { self.new.marks ≡ with_mark self.old.marks number false }
    {
        self.marks.set(number, false);
    }

    /// What is to be asked for of the zone of this number. It waits for nobody and takes no memory.
    pub fn wanted(&self, number: u32) -> Wanted
        requires { IsSome (zone_at self.now.version.zones number) }
        ensures { IfSome (zone_at self.now.version.zones number) (λ zone.
            result ≡ wanted_of (mark_at self.now.marks number) zone.content) }
    {
        let zone = zone_of(&self.latest.version, number);
        wanted(self.marks.get(number), zone.serial())
    }

    /// The SOA of the zone of this number; `None` where nothing is loaded. It waits for nobody and takes no memory.
    pub fn soa(&self, number: u32) -> Option<&Soa>
        requires { IsSome (zone_at self.now.version.zones number) }
        ensures { IfSome (zone_at self.now.version.zones number) (λ zone.
            option_copied result ≡ option_map (λ content. content.soa) zone.content) }
    {
        zone_of(&self.latest.version, number).soa()
    }

    /// The origin of the zone of this number. It waits for nobody and takes no memory.
    pub fn origin(&self, number: u32) -> &Name
        requires { IsSome (zone_at self.now.version.zones number) }
        ensures { IfSome (zone_at self.now.version.zones number)
            (λ zone. result.now ≡ zone.origin) }
    {
        zone_of(&self.latest.version, number).origin()
    }

    /// How many zones the policy has, at most 64.
    pub fn zone_count(&self) -> usize
        ensures count { result ≡ length self.now.version.zones }
        ensures limit { result ≤ ZONE_LIMIT }
    {
        self.latest.version.zone_count()
    }

    /// Whether a client of this address may ask, by the list of the store. It waits for nobody and takes no memory.
    pub fn may_ask(&self, addr: Addr) -> bool
        ensures { result ≡ is_allowed N.store.allowed addr }
    {
        self.allowed.allows(addr)
    }

    /// Whether there is a zone of this number; the first is zone 1.
    pub fn has_zone(&self, number: u32) -> bool
        ensures { result ≡ is_some (zone_at self.now.version.zones number) }
    {
        self.latest.version.zone(number).is_some()
    }

    /// Ends it. Versions that were taken stay. It waits until no reader is entering.
    pub fn close<R: Wait>(self, rt: &R) {
        let Publisher {
            writer,
            latest: _latest,
            marks: _marks,
            log_writer: _log_writer,
            allowed: _allowed,
            replaced: _replaced,
            alloc: _,
        } = self;
        if let Some(writer) = writer {
            drop(writer.take(rt));
        }
    }
}

// Keeps a zone that another took the place of, for which there is room.
fn keep(zones: &mut Vec<OldZone>, zone: Option<OldZone>) {
    if let Some(zone) = zone {
        if zones.len() < zones.capacity() {
            zones.push_reserved(zone);
        }
    }
}
