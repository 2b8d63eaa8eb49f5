//! What the rows of an entry do.

ghost use Rattle.std.specs.Prelude.{◌≡◌, ◌∷◌, [], All};
ghost use Rattle.std.specs.Option.{option_map};
ghost use Rattle.action_codec.specs.Local.{local_row};
ghost use Rattle.action_codec.specs.Seen.{action_seen};
ghost use Rattle.zone_index.specs.Entry.{entry_seen};
ghost use Rattle.zone_index.specs.Placed.{alone_does, entry_action, entry_shown};
ghost use Rattle.zone_rows.specs.Stored.{IsStored};

use crate::does::DoesRef;
use crate::entry::EntryRef;
use crate::numbers::Numbers;
use action_codec::{ActionRef, LocalPart, LocalRef};
use packed_lists::RowList;
use zone_rows::RowRef;

// The row of the first of these numbers, as an answer.
fn alone<'a>(rows: &'a RowList, numbers: Numbers<'a>) -> Option<ActionRef<'a>>
    requires { All IsStored rows.now.rows }
    ensures { option_map action_seen result ≡ alone_does numbers.entry rows.now.rows }
{
    match numbers.first() {
        None => None,
        Some(number) => match rows.get(number) {
            None => None,
            Some(row) => Some(ActionRef::Local(one_row(RowRef::new(row)))),
        },
    }
}

// The row, as an answer.
fn one_row<'a>(row: RowRef<'a>) -> LocalRef<'a>
    ensures { result ≡ local_row row.entry ∷ [] }
{
    LocalRef::one(LocalPart {
        rtype: row.rtype(),
        ttl: row.ttl(),
        rdata: row.rdata(),
    })
}

/// What the rows of the entry do.
pub(crate) fn lend<'a>(rows: &'a RowList, entry: EntryRef<'a>) -> Option<ActionRef<'a>>
    requires { All IsStored rows.now.rows }
    ensures { option_map action_seen result ≡ entry_action rows.now.rows (entry_seen entry.entry) }
{
    match entry.does {
        DoesRef::Nothing => None,
        DoesRef::NxDomain => Some(ActionRef::NxDomain),
        DoesRef::NoData => Some(ActionRef::NoData),
        DoesRef::PassThru => Some(ActionRef::PassThru),
        DoesRef::Drop => Some(ActionRef::Drop),
        DoesRef::TcpOnly => Some(ActionRef::TcpOnly),
        DoesRef::Row => alone(rows, entry.numbers),
        DoesRef::Rows(local) => Some(ActionRef::Local(local)),
    }
}

/// The same beside the key of the entry.
pub(crate) fn lend_found<'a, K: Drop>(
    rows: &'a RowList,
    found: Option<(K, EntryRef<'a>)>,
) -> Option<(K, ActionRef<'a>)>
    requires { All IsStored rows.now.rows }
    ensures { option_map (λ e. (e.0, action_seen e.1)) result
        ≡ entry_shown rows.now.rows (option_map (λ e. (e.0, entry_seen e.1)) found.entry) }
{
    match found {
        None => None,
        Some(found) => match lend(rows, found.1) {
            None => None,
            Some(action) => Some((found.0, action)),
        },
    }
}
