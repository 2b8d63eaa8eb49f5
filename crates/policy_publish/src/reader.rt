//! The threads that take versions.

ghost use Rattle.std.specs.Prelude.{◌≡◌, IfOk, IfSome};
ghost use Rattle.std.specs.Arc.{arc_value};
ghost use Rattle.policy_publish.specs.Shows.{IsOf};

use crate::allowed::Allowed;
use crate::front::{Front, StoreName};
use crate::rule::OfStore;
use crate::shown::Shown;
use ip_prefix::Addr;
use left_right::reader::Reader;
use policy_snapshot::Snapshot;
use std::alloc::{AllocError, Global};
use std::marker::Model;
use std::sync::Arc;

/// A list that was told. Contracts see it as its entries; it keeps none of them.
#[derive(Drop)]
pub struct Told<N: StoreName> {
    front: Front<N>,
}

impl<N: StoreName> Model for Told<N> {
    ghost use Rattle.std.specs.Prelude.{List};
    ghost use Rattle.policy_snapshot.specs.declared.entry.Entry.{Entry};

    ghost Value = { List Entry };

    ghost view = { λ t. t.front };

    ghost invariant = { λ t. Unit {0} };
}

impl<N: StoreName> Told<N> {
    pub(crate) fn of(front: Front<N>) -> Told<N>
        ensures { result ≡ front }
    {
        Told { front }
    }

    /// The same list once more. It takes no memory.
    pub fn again(&self) -> Told<N>
        ensures { result ≡ self.now }
    {
        Told {
            front: self.front.again(),
        }
    }
}

/// Takes versions of the store that `N` names. Contracts see the list for which the version stands that it took last, and the longest
/// list that it was told.
#[derive(Drop)]
pub struct PolicyReader<N: StoreName> {
    // `None` only while it is entering.
    reader: Option<Reader<Shown, (), OfStore<N>>>,
    seen: Front<N>,
    told: Front<N>,
    // The version that stands for what was seen, while no more was told; behind a count of holders of this reader's own: threads that
    // count one another's holders wait for the same word of memory.
    own: Option<Arc<Snapshot, Global>>,
    allowed: Allowed<N>,
    alloc: Global,
}

impl<N: StoreName> Model for PolicyReader<N> {
    ghost use Rattle.std.specs.Prelude.{IfSome};
    ghost use Rattle.std.specs.Arc.{arc_value};
    ghost use Rattle.policy_snapshot.specs.Stands.{StandsFor};
    ghost use Rattle.policy_publish.specs.Lists.{Known};
    ghost use mathlib.Core.List.{IsPrefix};

    ghost Value = { Known };

    ghost view = { λ r. record { seen = r.seen; told = r.told } };

    ghost invariant = { λ r. IfSome r.own
        (λ version. StandsFor N.store.settings (arc_value version) r.seen ×
        IsPrefix r.told r.seen) };
}

// What is shown once more; `None` where it has no more entries than these.
fn newer(shown: &Shown, entries: Option<u64>) -> Result<Option<Shown>, AllocError>
    ensures { IfOk result
        (λ taken. IfSome taken (λ s. (arc_value s.version ≡ arc_value shown.now.version) ×
        (s.line ≡ shown.now.line))) }
{
    match entries {
        Some(count) if shown.line.len() <= count => Ok(None),
        _ => Ok(Some(shown.again()?)),
    }
}

// Takes the version that is published, and its list; `None` where that has no more entries than these.
fn enter<N: StoreName>(
    reader: Reader<Shown, (), OfStore<N>>,
    entries: Option<u64>,
) -> (
    Reader<Shown, (), OfStore<N>>,
    Result<Option<Shown>, AllocError>,
)
    ensures { IfOk result.1 (λ taken. IfSome taken (λ shown. IsOf N.store shown)) }
{
    match reader.enter_as::<OfStore<N>>() {
        Ok(reading) => {
            let taken = newer(reading.get(), entries);
            (reading.leave(), taken)
        }
        Err(reader) => (reader, Err(AllocError)),
    }
}

impl<N: StoreName> PolicyReader<N> {
    ghost use Rattle.std.specs.Prelude.{◌≡◌, OnOk, OnErr, IfOk, IsTrue};
    ghost use Rattle.policy_snapshot.specs.Stands.{StandsFor};
    ghost use Rattle.networks.specs.Allowed.{is_allowed};
    ghost use Rattle.policy_publish.specs.Lists.{GoesOn, WasTold, KeepsTold};

    // A reader that has seen and was told the entries of the front.
    pub(crate) fn over(
        alloc: Global,
        reader: Reader<Shown, (), OfStore<N>>,
        front: &Front<N>,
        allowed: Allowed<N>,
    ) -> PolicyReader<N>
        ensures { (result.seen ≡ front.now) × (result.told ≡ front.now) }
    {
        PolicyReader {
            reader: Some(reader),
            seen: front.again(),
            told: front.again(),
            own: None,
            allowed,
            alloc,
        }
    }

    // How many entries were seen, where the reader has the version that stands for them.
    fn entries(&self) -> Option<u64> {
        match &self.own {
            Some(_) => Some(self.seen.len()),
            None => None,
        }
    }

    // The version that the reader has, once more; an error where it has none.
    fn own_again(&self) -> Result<Arc<Snapshot, Global>, AllocError>
        ensures stands { IfOk result
            (λ version. StandsFor N.store.settings (arc_value version) self.now.seen) }
        ensures later { OnOk result (GoesOn self.now self.now.seen) }
    {
        match &self.own {
            Some(own) => Ok(Arc::try_clone(own)?),
            None => Err(AllocError),
        }
    }

    // Whether a front goes on from what was seen and what was told.
    #[tactic(auto, using(crate::proofs::Fronts::prefix_trans))]
    fn is_later(&self, front: &Front<N>) -> bool
        ensures { IsTrue result → GoesOn self.now front.now }
    {
        self.seen.begins(front) && self.told.begins(front)
    }

    // Takes a version that was entered.
    fn take(&mut self, shown: Shown) -> Result<Arc<Snapshot, Global>, AllocError>
        requires { IsOf N.store shown }
        ensures stands { IfOk result
            (λ version. StandsFor N.store.settings (arc_value version) self.new.seen) }
        ensures later { OnOk result (GoesOn self.old self.new.seen) }
        ensures told { self.new.told ≡ self.old.told }
        ensures err { OnErr result (self.new ≡ self.old) }
    {
        let Shown { version, line } = shown;
        let front = Front::over(line);
        // never false: what is entered is not older than what was seen or told; but no clause of `left_right` says it
        if self.is_later(&front) {
            self.keep(&version, front)
        } else {
            Err(AllocError)
        }
    }

    // Has a version from now on behind a count of its own.
    fn keep(
        &mut self,
        version: &Snapshot,
        front: Front<N>,
    ) -> Result<Arc<Snapshot, Global>, AllocError>
        requires stands { StandsFor N.store.settings version.now front }
        requires later { GoesOn self.old front }
        ensures stands { IfOk result
            (λ version. StandsFor N.store.settings (arc_value version) self.new.seen) }
        ensures later { OnOk result (GoesOn self.old self.new.seen) }
        ensures told { self.new.told ≡ self.old.told }
        ensures err { OnErr result (self.new ≡ self.old) }
    {
        let own = Arc::new(self.alloc, version.again(self.alloc)?)?;
        let again = Arc::try_clone(&own)?;
        self.seen = front;
        self.own = Some(own);
        Ok(again)
    }

    /// Takes the version that is published. It waits for nobody. Where that is the one that it took before, it takes no memory but
    /// the count of its holders, which no other thread counts; else as much as there are zones, at most 64. It answers an error where
    /// memory runs out, and is as it was then.
    pub fn pin(&mut self) -> Result<Arc<Snapshot, Global>, AllocError>
        ensures stands { IfOk result
            (λ version. StandsFor N.store.settings (arc_value version) self.new.seen) }
        ensures later { OnOk result (GoesOn self.old self.new.seen) }
        ensures told { self.new.told ≡ self.old.told }
        ensures err { OnErr result (self.new ≡ self.old) }
    {
        let entries = self.entries();
        let Some(reader) = self.reader.take() else {
            return Err(AllocError);
        };
        let (reader, taken) = enter(reader, entries);
        self.reader = Some(reader);
        match taken {
            Ok(Some(shown)) => self.take(shown),
            Ok(None) => self.own_again(),
            Err(error) => Err(error),
        }
    }

    /// Whether a client of this address may ask, by the list of the store. It waits for nobody and takes no memory.
    pub fn may_ask(&self, addr: Addr) -> bool
        ensures { result ≡ is_allowed N.store.allowed addr }
    {
        self.allowed.allows(addr)
    }

    /// The list for which the version stands that the reader took last; the empty one where it has taken none. It waits for nobody and
    /// takes no memory.
    pub fn tell_seen(&self) -> Told<N>
        ensures { result ≡ self.now.seen }
    {
        Told::of(self.seen.again())
    }

    /// From now on `pin` gives no version before this list. Where that is more than the reader has seen, it lets the version go that it
    /// took last, so that an idle thread holds no old zone. It waits for nobody and takes no memory.
    pub fn learn(&mut self, told: Told<N>)
        ensures learnt { WasTold self.new told }
        ensures kept { KeepsTold self.old self.new }
        ensures seen { self.new.seen ≡ self.old.seen }
    {
        self.told = self.told.longer(&told.front);
        if !self.told.begins(&self.seen) {
            self.own = None;
        }
    }
}
