//! The canonical order of names, told by their keys (RFC 4034, section 6.1).

ghost use Rattle.std.specs.Prelude.{◌≡◌};
ghost use Rattle.dns_name.specs.Order.{canonical_order, label_order};
ghost use Rattle.qname_index.specs.Key.{name_key};
ghost use Rattle.qname_index.specs.Patterns.{name_in};

use std::cmp::Ordering;

// The order of two labels: as bytes, in lower case.
fn compare_labels(a: &[u8], b: &[u8]) -> Ordering
    ensures { result ≡ label_order a.now b.now }
{
    a.iter()
        .map(|x| x.to_ascii_lowercase())
        .cmp(b.iter().map(|x| x.to_ascii_lowercase()))
}

// The canonical order of the names of two keys. The labels stand in the keys in the order in which they decide.
pub(crate) fn compare_keys(a: &[u8], b: &[u8]) -> Ordering
    requires first { a.now ≡ name_key (name_in a.now) }
    requires second { b.now ≡ name_key (name_in b.now) }
    ensures { result ≡ canonical_order (name_in a.now) (name_in b.now) }
{
    let mut mine = a;
    let mut theirs = b;
    while let Some((my_len, my_others)) = mine.split_first() {
        let Some((their_len, their_others)) = theirs.split_first() else {
            return Ordering::Greater;
        };
        let (my_label, my_rest) = my_others.split_at(usize::from(*my_len));
        let (their_label, their_rest) = their_others.split_at(usize::from(*their_len));
        match compare_labels(my_label, their_label) {
            Ordering::Equal => {
                mine = my_rest;
                theirs = their_rest;
            }
            order => return order,
        }
    }
    if theirs.is_empty() {
        Ordering::Equal
    } else {
        Ordering::Less
    }
}
