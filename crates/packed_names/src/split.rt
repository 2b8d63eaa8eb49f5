//! Names as they are written in full, split: behind the first label, or from the octets that follow.

ghost use Rattle.std.specs.Prelude.{◌≡◌, ℕ, [], List, ◌++◌, MatchOption};
ghost use Rattle.dns_name.specs.Labels.{IsName, name_octets, Name};
ghost use Rattle.dns_name.specs.Wire.{labels_in, IsWire};
ghost use Rattle.packed_names.specs.Front.{BeginsWithName};
ghost use Rattle.packed_names.specs.Table.{SplitsLabel};

/// How many bytes the first label has with its length byte, and the name without it. The root has no label.
pub(crate) fn split_label<'n>(octets: &'n [u8]) -> Option<(usize, &'n [u8])>
    requires { IsWire octets.now }
    ensures { MatchOption result (labels_in octets.now ≡ [])
        (λ p. SplitsLabel octets.now p.0 p.1.now) }
{
    let len = usize::from(octets[0]);
    if len == 0 {
        return None;
    }
    Some((len + 1, &octets[len + 1..]))
}

/// The octets of the name that stands in full at the front, and those behind it. [`Places::write_octets`](crate::Places)
/// writes the former compressed.
pub fn split_name<'n>(octets: &'n [u8]) -> (&'n [u8], &'n [u8])
    requires { BeginsWithName octets.now }
    ensures only { (name : Name) (rest : List ℕ) → IsName name → octets.now ≡ name_octets name ++ rest →
        (result.0.now ≡ name_octets name) × (result.1.now ≡ rest) }
    ensures wire { IsWire result.0.now }
{
    let mut at = 0;
    while octets[at] != 0 {
        at += usize::from(octets[at]) + 1;
    }
    octets.split_at(at + 1)
}
