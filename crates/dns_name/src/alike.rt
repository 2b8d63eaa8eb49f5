//! Octets that are the same without case.

ghost use Rattle.std.specs.Prelude.{◌≡◌, ◌↔◌, IsTrue, map};
ghost use Rattle.std.specs.Char.{to_ascii_lowercase};

/// Whether the octets are alike. The case of ASCII letters doesn't count. Octets that are equal are mostly so in case, too, and
/// that is found many at a time.
pub(crate) fn are_alike(a: &[u8], b: &[u8]) -> bool
    ensures test { IsTrue result ↔ (map to_ascii_lowercase a.now ≡ map to_ascii_lowercase b.now) }
{
    are_equal(a, b) || a.eq_ignore_ascii_case(b)
}

// Whether the octets are equal. It looks at all of them, with no test between, so that many are compared at once.
fn are_equal(a: &[u8], b: &[u8]) -> bool
    ensures { IsTrue result → a.now ≡ b.now }
{
    if a.len() != b.len() {
        return false;
    }
    let mut same = true;
    for i in 0..a.len() {
        same &= a[i] == b[i];
    }
    same
}
