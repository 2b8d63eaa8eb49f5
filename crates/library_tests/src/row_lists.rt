//! Lists of rows.

use crate::asserts::assert_same;
use crate::row_samples::{SERVER, own_rows, rows};

// The other list has what it had.
#[test]
fn rows_that_repeat_count_once(rt: HostRuntime) {
    let rows = rows(&rt, rt.alloc(), &[SERVER, SERVER]);
    let shared = rows.share().expect(&rt, "no error");
    let kept = rows.without_repeats(rt.alloc()).expect(&rt, "no error");
    assert_same(&rt, kept.len(), 1);
    assert_same(&rt, own_rows(&rt, rt.alloc(), &shared).len(), 2);
}

// A list is shown by how many rows it has.
#[test]
fn a_list_is_shown_by_its_length(rt: HostRuntime) {
    let rows = rows(&rt, rt.alloc(), &[SERVER]);
    let shown = format!(in rt.alloc(); "{rows:?}").expect(&rt, "no error");
    assert_same(&rt, shown.as_str(), "Rows { len: 1 }");
}
