//! How a version is shown to readers.

ghost use Rattle.std.specs.Prelude.{◌≡◌, [], ◌∷◌, drop};
ghost use Rattle.std.specs.Option.{IsSomeAnd};
ghost use Rattle.std.specs.Arc.{arc_value};
ghost use Rattle.policy_publish.specs.Shows.{IsOf};

use crate::front::StoreName;
use crate::rule::OfStore;
use crate::shown::Shown;
use left_right::writer::Writer;
use std::sync::Wait;

// Puts a version behind the writer, however often it has to be tried.
fn queue<N: StoreName, R: Wait>(
    rt: &R,
    writer: Writer<Shown, Shown, (), OfStore<N>>,
    shown: Shown,
) -> Writer<Shown, Shown, (), OfStore<N>>
    requires { drop writer.behind writer.log.items ≡ [] }
    ensures { drop result.behind result.log.items ≡ shown ∷ [] }
{
    let mut writer = writer;
    let mut next = shown;
    for _ in rt.forever() {
        match writer.append(next) {
            Ok(()) => return writer,
            Err(back) => next = back,
        }
    }
    unreachable!()
}

// Publishes a version, however often it has to be tried.
fn show<N: StoreName, R: Wait>(
    rt: &R,
    writer: Writer<Shown, Shown, (), OfStore<N>>,
    shown: Shown,
) -> Writer<Shown, Shown, (), OfStore<N>>
    requires pending { drop writer.behind writer.log.items ≡ [] }
    requires store { IsOf N.store shown }
    ensures pending { drop result.behind result.log.items ≡ [] }
    ensures line { result.desk.shown.value.line ≡ shown.line }
    ensures version { arc_value result.desk.shown.value.version ≡ arc_value shown.version }
{
    let mut writer = queue(rt, writer, shown);
    for _ in rt.forever() {
        let (after, done) = writer.publish_as::<OfStore<N>, R>(rt);
        writer = after;
        if done.is_ok() {
            return writer;
        }
    }
    unreachable!()
}

/// Publishes a version in place of the one before.
pub(crate) fn swap_in<N: StoreName, R: Wait>(
    rt: &R,
    place: &mut Option<Writer<Shown, Shown, (), OfStore<N>>>,
    shown: Shown,
)
    requires pending { IsSomeAnd place.old (λ w. drop w.behind w.log.items ≡ []) }
    requires store { IsOf N.store shown }
    ensures { IsSomeAnd place.new (λ w. (drop w.behind w.log.items ≡ []) ×
        (w.desk.shown.value.line ≡ shown.line) ×
        (arc_value w.desk.shown.value.version ≡ arc_value shown.version)) }
{
    let writer = place.take().unwrap();
    let after = show(rt, writer, shown);
    if let Some(other) = place.replace(after) {
        drop(other.take(rt));
    }
}
