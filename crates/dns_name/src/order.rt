//! The canonical order of names (RFC 4034, section 6.1).

ghost use Rattle.std.specs.Prelude.{◌≡◌};
ghost use Rattle.dns_name.specs.Order.{label_order, canonical_order};

use crate::name::Name;
use std::cmp::Ordering;

fn compare_labels(a: &[u8], b: &[u8]) -> Ordering
    ensures { result ≡ label_order a.now b.now }
{
    a.iter()
        .map(|x| x.to_ascii_lowercase())
        .cmp(b.iter().map(|x| x.to_ascii_lowercase()))
}

impl Name {
    /// The canonical order of names: they compare label by label from the last on, each as bytes in lower
    /// case, and a name comes before those below it (RFC 4034, section 6.1). It takes no memory, and
    /// its time is linear in the bytes of both names.
    pub fn canonical_cmp(&self, other: &Name) -> Ordering
        ensures { result ≡ canonical_order self.now other.now }
    {
        let my_count = self.label_count();
        let their_count = other.label_count();
        let mut mine = self.labels();
        let mut theirs = other.labels();
        mine.skip(my_count.saturating_sub(their_count));
        theirs.skip(their_count.saturating_sub(my_count));
        let mut order = my_count.cmp(&their_count);
        while let Some(a) = mine.next_label() {
            if let Some(b) = theirs.next_label() {
                order = compare_labels(a, b).then(order);
            }
        }
        order
    }
}
